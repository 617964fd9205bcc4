ghost use Rattle.std.specs.Prelude.{◌≡◌, ◌≤◌, ℕ, List, ⊤, IfOk, MatchResult};
ghost use Rattle.plcx_st.specs.declared.tree.Unit as tree;
ghost use Rattle.plcx_st.specs.Grammar.{limit};
ghost use Rattle.plcx_st.specs.Stands.{StandsForUnit};
ghost use Rattle.plcx_read.specs.Fails.{IsRead, ReadFails};

use crate::lexemes::Lexemes;
use crate::unit::pous;
use plcx_lex::{TextError, tokens};
use plcx_st::Unit;
use plcx_types::limits::MAX_TEXT_DEPTH;
use std::alloc::Global;

/// The unit that a text is, or why it is none and where.
pub fn read(alloc: Global, bytes: &[u8]) -> Result<Unit, TextError>
    ensures found { IfOk result (λ unit. (d : ℕ) × (d ≤ limit) × StandsForUnit bytes.now unit d) }
    ensures only { (unit : tree.Unit) (d : ℕ) → d ≤ limit → StandsForUnit bytes.now unit d → IsRead result unit }
    ensures fails { MatchResult result (λ _. ⊤) (ReadFails bytes.now) }
{
    let tokens = tokens(alloc, bytes)?;
    let lexemes = Lexemes::new(bytes, &tokens);
    let pous = pous(alloc, bytes.len() as u64, MAX_TEXT_DEPTH, &lexemes)?;
    Ok(Unit { pous })
}

/// A text stands for one unit at most.
pub fn one_unit()
    ensures { (bytes : List ℕ) (u v : tree.Unit) (d c : ℕ) → StandsForUnit bytes u d → StandsForUnit bytes v c → u ≡ v }
{}

ghost use Rattle.std.specs.Prelude.{◌≡◌, ◌≤◌, ◌<◌, ◌+◌, IfOk};
ghost use Rattle.plcx_st.specs.Grammar.{ending};
ghost use Rattle.plcx_read.specs.Reading as spec;
ghost use Rattle.plcx_read.specs.Gives.{Gives};

use crate::declaration::blocks;
use crate::lexemes::Lexemes;
use crate::lists::several;
use crate::statement::statements;
use crate::token::{Read, behind, expect, name_at, too_deep, unexpected};
use plcx_lex::TextError;
use plcx_st::{PouText, Terminal, TextKind};
use sqlite_items::Items;
use std::alloc::Global;

fn ending(kind: TextKind) -> Terminal
    ensures { result ≡ ending kind }
{
    match kind {
        TextKind::Program => Terminal::EndProgram,
        TextKind::FunctionBlock => Terminal::EndFunctionBlock,
    }
}

#[tactic(auto, unfolding(crate::specs::Reading::pou_of))]
fn pou_of<'t>(
    alloc: Global,
    end: u64,
    allowance: usize,
    kind: TextKind,
    tokens: &Lexemes<'t>,
) -> Read<'t, PouText>
    requires { allowance < 1000 }
    ensures gives { Gives end (λ x. (x.0, x.1, x.2)) result (spec.pou_of allowance kind tokens.now) }
    ensures within { IfOk result (λ x. x.1 ≤ allowance + 1) }
{
    let (name, rest) = name_at(alloc, end, &behind(tokens))?;
    let (blocks, rest) = blocks(alloc, end, &rest)?;
    let (body, depth, rest) = statements(alloc, end, allowance, &rest)?;
    let rest = expect(end, ending(kind), &rest)?;
    let pou = PouText {
        kind,
        name,
        blocks,
        body,
    };
    Ok((pou, depth + 1, rest))
}

#[tactic(auto, unfolding(crate::specs::Reading::pou))]
fn pou<'t>(alloc: Global, end: u64, allowance: usize, tokens: &Lexemes<'t>) -> Read<'t, PouText>
    requires { allowance ≤ 1000 }
    ensures gives { Gives end (λ x. (x.0, x.1, x.2)) result (spec.pou allowance tokens.now) }
    ensures within { IfOk result (λ x. x.1 ≤ allowance) }
{
    if allowance == 0 {
        return Err(too_deep(end, tokens));
    }
    match tokens.split() {
        None => Err(unexpected(end, tokens)),
        Some((x, _)) => match x.terminal() {
            Terminal::Program => pou_of(alloc, end, allowance - 1, TextKind::Program, tokens),
            Terminal::FunctionBlock => {
                pou_of(alloc, end, allowance - 1, TextKind::FunctionBlock, tokens)
            }
            _ => Err(unexpected(end, tokens)),
        },
    }
}

fn begins_pou(terminal: Terminal) -> bool
    ensures { result ≡ spec.begins_pou terminal }
{
    matches!(terminal, Terminal::Program | Terminal::FunctionBlock)
}

#[tactic(auto, unfolding(crate::specs::Reading::several))]
fn several<'t>(
    alloc: Global,
    end: u64,
    allowance: usize,
    tokens: &Lexemes<'t>,
) -> Read<'t, Items<PouText>>
    requires { allowance ≤ 1000 }
    ensures gives { Gives end (λ x. (x.0, x.1, x.2)) result (spec.all_of spec.begins_pou (spec.pou allowance) tokens.now) }
    ensures within { IfOk result (λ x. x.1 ≤ allowance) }
{
    several!(
        alloc,
        end,
        tokens,
        begins_pou,
        |rest| pou(alloc, end, allowance, &rest)
    )
}

/// The POUs that all of the tokens are, each of at most that depth.
#[tactic(auto, unfolding(crate::specs::Reading::pous))]
pub fn pous<'t>(
    alloc: Global,
    end: u64,
    allowance: usize,
    tokens: &Lexemes<'t>,
) -> Result<Items<PouText>, TextError>
    requires { allowance ≤ 1000 }
    ensures { Gives end (λ x. x) result (spec.pous allowance tokens.now) }
{
    let (pous, _, rest) = several(alloc, end, allowance, tokens)?;
    if !rest.is_empty() {
        return Err(unexpected(end, &rest));
    }
    Ok(pous)
}

//! Numbers with the name of their type before them.
ghost use Rattle.std.specs.Prelude.{◌≡◌, ℤ, IfSome, IfNone, Some, None};
ghost use Rattle.plcx_types.specs.declared.ty.Ty.{Ty};
ghost use Rattle.plcx_types.specs.Name.{in_lower_case};
ghost use Rattle.plcx_lex.specs.Number.{IsLiteral};
ghost use Rattle.plcx_lex.specs.ReadNumber.{named, behind_word, literal_of};

use crate::runs::{Class, run_len};
use plcx_types::{Ty, read_number, truth};

/// The type that a word before `#` names.
pub(crate) fn named(word: &[u8]) -> Option<Ty>
    ensures { result ≡ named (in_lower_case word.now) }
{
    if word.eq_ignore_ascii_case(b"t") {
        Some(Ty::Time)
    } else {
        Ty::named(word)
    }
}

#[tactic(auto, unfolding(crate::specs::ReadNumber::behind_word))]
fn behind_word(word: &[u8], rest: &[u8]) -> Option<(Ty, i128)>
    ensures { result ≡ behind_word (in_lower_case word.now) (in_lower_case rest.now) }
{
    match rest {
        [] => {
            let n = truth(word)?;
            Some((Ty::Bool, n))
        }
        [mark, digits @ ..] => {
            if *mark != b'#' {
                return None;
            }
            let ty = named(word)?;
            let n = read_number(ty, digits)?;
            Some((ty, n))
        }
    }
}

#[tactic(auto, unfolding(crate::specs::ReadNumber::typed_of), using(crate::proofs::Numbers::word_split))]
fn literal_of(text: &[u8]) -> Option<(Ty, i128)>
    ensures { result ≡ literal_of text.now }
{
    let (word, rest) = text.split_at(run_len(Class::Part, text));
    behind_word(word, rest)
}

/// The type and the number of a number's text; it may lie outside the type.
#[tactic(auto, using(crate::proofs::Numbers::literal_reads, crate::proofs::Numbers::literal_is))]
pub fn number_of(text: &[u8]) -> Option<(Ty, i128)>
    ensures value { result ≡ literal_of text.now }
    ensures some { IfSome result (λ number. IsLiteral text.now number.0 number.1) }
    ensures none { IfNone result ((t : Ty) (n : ℤ) → IsLiteral text.now t n → ⊥) }
{
    literal_of(text)
}

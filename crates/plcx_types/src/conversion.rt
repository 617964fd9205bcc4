//! The names of the conversions between types.
ghost use Rattle.std.specs.Prelude.{◌≡◌, IfSome, IfNone, Some, None};
ghost use Rattle.plcx_types.specs.declared.ty.Ty.{Ty};
ghost use Rattle.plcx_types.specs.Name.{in_lower_case};
ghost use Rattle.plcx_types.specs.Conversion.{NamesConversion};
ghost use Rattle.plcx_types.specs.ReadConversion.{apart, conversion_of};

use crate::reading::{behind, split_letters};
use crate::ty::Ty;

fn apart(from: Ty, to: Ty) -> Option<(Ty, Ty)>
    ensures { result ≡ apart from to }
{
    if from == to { None } else { Some((from, to)) }
}

#[tactic(auto, unfolding(crate::specs::ReadConversion::conversion_of))]
fn conversion_of(word: &[u8]) -> Option<(Ty, Ty)>
    ensures { result ≡ conversion_of (in_lower_case word.now) }
{
    let (from, rest) = split_letters(word);
    let to = behind(b"_to_", rest)?;
    apart(Ty::named(from)?, Ty::named(to)?)
}

/// The types that the name of a conversion names, as INT_TO_DINT, whatever the case of its letters.
#[tactic(auto, using(crate::proofs::Conversions::conversion_is))]
pub fn conversion_named(word: &[u8]) -> Option<(Ty, Ty)>
    ensures some { IfSome result (λ types. NamesConversion word.now types.0 types.1) }
    ensures none { IfNone result ((from to : Ty) → NamesConversion word.now from to → ⊥) }
    ensures value { result ≡ conversion_of (in_lower_case word.now) }
{
    conversion_of(word)
}

//! The choice of an arm of a CASE.
ghost use Rattle.std.specs.Prelude.{◌≡◌};
ghost use Rattle.plcx_text_steps.specs.Numbered.{choice};

use crate::text::Arm;
use plcx_types::Val;

/// The section of the first arm that has the value's number as its label.
pub fn chosen(arms: &[Arm], value: Val) -> Option<usize>
    ensures { result ≡ choice arms.now value.n }
{
    for arm in arms {
        if i128::from(arm.label) == value.n() {
            return Some(arm.section);
        }
    }
    None
}

//! A unit printed and read again.
ghost use Rattle.std.specs.Prelude.{◌≡◌, IfOk, IfErr};
ghost use Rattle.plcx_lex.specs.declared.error.TextError.TheVariants as text;
ghost use Rattle.plcx_st.specs.Meant.{meant};
ghost use Rattle.plcx_st.specs.InRange.{UnitInRange};
ghost use Rattle.plcx_st.specs.Fitting.{UnitFits};

use crate::text::read;
use plcx_lex::TextError;
use plcx_st::{Unit, print, read_again};
use std::alloc::Global;

/// What a unit reads as once it is printed: where it is in range, the same unit but for the places of its words.
pub fn read_printed(alloc: Global, unit: &Unit) -> Result<Unit, TextError>
    ensures same { UnitInRange (meant unit.now) → UnitFits (meant unit.now) → IfOk result (λ again. meant again ≡ meant unit.now) }
    ensures fails { UnitInRange (meant unit.now) → UnitFits (meant unit.now) → IfErr result (λ error. error ≡ text.NoMemory) }
{
    read_again();
    let Ok(bytes) = print(alloc, unit) else {
        return Err(TextError::NoMemory);
    };
    read(alloc, &bytes)
}

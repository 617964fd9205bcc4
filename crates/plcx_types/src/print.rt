//! Printed values.
ghost use Rattle.std.specs.Prelude.{◌≡◌, ◌++◌, IfOk, codes};
ghost use Rattle.std.specs.Fmt.{signed_decimal};
ghost use Rattle.plcx_types.specs.Printed.{printed, truth_word};
ghost use Rattle.plcx_types.specs.Literal.{StandsForLiteral};
ghost use Rattle.plcx_types.specs.declared.literal.Literal.TheVariants.{Typed};
ghost use Rattle.plcx_types.specs.Range.{InRange};
ghost use Rattle.std.specs.Prelude.{string_bytes};
ghost use Rattle.plcx_types.specs.Literal.{value};

use crate::memory::NoMemory;
use crate::ty::Ty;
use crate::val::Val;
use std::alloc::Global;

fn truth_text(alloc: Global, n: i128) -> Result<String, NoMemory>
    ensures { IfOk result (λ text. string_bytes text ≡ truth_word n) }
{
    let text = match n {
        0 => String::from_str(alloc, "FALSE")?,
        1 => String::from_str(alloc, "TRUE")?,
        _ => format!(in alloc; "{}#{n}", Ty::Bool.name())?,
    };
    Ok(text)
}

/// A number of a type as its literal is printed; the number may lie outside the type.
pub fn number_text(alloc: Global, ty: Ty, n: i128) -> Result<String, NoMemory>
    ensures { IfOk result (λ text. string_bytes text ≡ printed (value ty n)) }
{
    let text = match ty {
        Ty::Bool => truth_text(alloc, n)?,
        Ty::Time => format!(in alloc; "T#{n}ms")?,
        _ => format!(in alloc; "{}#{n}", ty.name())?,
    };
    Ok(text)
}

fn bytes_of(alloc: Global, v: Val) -> Result<Vec<u8>, NoMemory>
    ensures form { IfOk result (λ bytes. bytes.items ≡ printed v) }
    ensures range { IfOk result (λ _. InRange v.ty v.n) }
{
    let text = number_text(alloc, v.ty(), v.n())?;
    Ok(text.into_bytes())
}

/// The literal of a value, as it is printed everywhere.
pub fn print_literal(alloc: Global, v: Val) -> Result<Vec<u8>, NoMemory>
    ensures form { IfOk result (λ bytes. bytes.items ≡ printed v) }
    ensures stands { IfOk result (λ bytes. StandsForLiteral bytes.items (Typed v)) }
{
    let bytes = bytes_of(alloc, v)?;
    Ok(bytes)
}

//! The pins that a block lists.
ghost use Rattle.std.specs.Prelude.{◌≡◌, List};
ghost use Rattle.plcx_model.specs.declared.body.PinOut.{PinOut};
ghost use Rattle.plcx_rules.specs.Callees.{is_function, is_enable, is_connected, input_count, is_eno, result_count, output_name};

use crate::texts::same_name;
use plcx_model::{PinIn, PinOut};
use plcx_rules::Callee;

/// Whether the callee is a function.
pub fn is_function(callee: Callee) -> bool
    ensures { result ≡ is_function callee }
{
    matches!(callee, Callee::Function(_))
}

/// Whether an input is EN.
pub fn is_enable(pin: &PinIn) -> bool
    ensures { result ≡ is_enable pin.now }
{
    same_name(pin.formal.as_slice(), b"EN")
}

/// Whether an input has a connection.
pub fn is_connected(pin: &PinIn) -> bool
    ensures { result ≡ is_connected pin.now }
{
    !pin.input.as_slice().is_empty()
}

/// How many inputs stand beside EN.
pub fn input_count(inputs: &[PinIn]) -> usize
    ensures { result ≡ input_count inputs.now }
{
    inputs.iter().filter(|pin| !is_enable(pin)).count()
}

/// Whether an output is ENO.
pub fn is_eno(output: &PinOut) -> bool
    ensures { result ≡ is_eno output.now }
{
    same_name(output.formal.as_slice(), b"ENO")
}

/// How many outputs stand beside ENO.
pub fn result_count(outputs: &[PinOut]) -> usize
    ensures { result ≡ result_count outputs.now }
{
    outputs.iter().filter(|output| !is_eno(output)).count()
}

/// The name that a listed output stands for, where so many stand beside ENO.
pub fn output_name<'a>(function: bool, count: usize, output: &'a PinOut) -> &'a [u8]
    ensures { (outputs : List PinOut) → count ≡ result_count outputs → result.now ≡ output_name function outputs output.now }
{
    let name = output.formal.as_slice();
    if function && !is_eno(output) && (count == 1 || name.is_empty()) {
        b"OUT"
    } else {
        name
    }
}

//! Bytes that are read as a text.
ghost use Rattle.std.specs.Prelude.{◌≡◌, IfOk, IfErr};
ghost use Rattle.plcx_text_file.specs.Texts.{IsReadyText, Keeps, broken};
ghost use Rattle.plcx_text_file.specs.Refusals.{Refuses, RefusesBytes, of_reading, of_unit};

use crate::broken::{BrokenText, TextFileError, TextRule};
use plcx_lex::TextError;
use plcx_read::read;
use plcx_types::limits::MAX_TEXT_BYTES;
use plcx_unit::{Ready, UnitFault, resolve};
use std::alloc::Global;

/// A rule that is broken at a byte.
pub(crate) fn broken(rule: TextRule, at: u64) -> BrokenText
    ensures { result ≡ broken rule at }
{
    BrokenText { rule, at }
}

/// Why bytes are refused that are no unit.
fn of_reading(error: TextError) -> TextFileError
    ensures { result ≡ of_reading error }
{
    match error {
        TextError::Lex { at } => TextFileError::Broken(broken(TextRule::Lex, at)),
        TextError::Syntax { at } => TextFileError::Broken(broken(TextRule::Syntax, at)),
        TextError::TooDeep { at } => TextFileError::Broken(broken(TextRule::Depth, at)),
        TextError::NoMemory => TextFileError::NoMemory,
    }
}

/// Why a unit is refused that isn't ready.
fn of_unit(fault: UnitFault) -> TextFileError
    ensures { result ≡ of_unit fault }
{
    match fault {
        UnitFault::Name { at } => TextFileError::Broken(broken(TextRule::Name, at)),
        UnitFault::WrongType { at } => TextFileError::Broken(broken(TextRule::Types, at)),
        UnitFault::Recursion { at } => TextFileError::Broken(broken(TextRule::Recursion, at)),
        UnitFault::Literal { at } => TextFileError::Broken(broken(TextRule::Literal, at)),
        UnitFault::NoMemory => TextFileError::NoMemory,
    }
}

/// The unit that bytes are, whatever their length.
fn unit_of(alloc: Global, bytes: &[u8]) -> Result<Ready, TextFileError>
    ensures ready { IfOk result (Keeps bytes.now) }
    ensures refused { IfErr result (RefusesBytes bytes.now) }
{
    match read(alloc, bytes) {
        Ok(unit) => match resolve(alloc, unit) {
            Ok(ready) => Ok(ready),
            Err(error) => Err(of_unit(error.fault)),
        },
        Err(error) => Err(of_reading(error)),
    }
}

/// The unit that a text is, where it is ready to run. The length of the text is looked at first.
pub fn read_text(alloc: Global, bytes: &[u8]) -> Result<Ready, TextFileError>
    ensures ready { IfOk result (IsReadyText bytes.now) }
    ensures refused { IfErr result (Refuses bytes.now) }
{
    if bytes.len() as u64 > MAX_TEXT_BYTES {
        return Err(TextFileError::Broken(broken(TextRule::Length, MAX_TEXT_BYTES)));
    }
    unit_of(alloc, bytes)
}

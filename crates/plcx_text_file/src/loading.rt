//! A file that is read as a text.
ghost use Rattle.std.specs.Prelude.{◌≡◌, ◌≤◌, ℕ, List, IfOk, IfErr};
ghost use Rattle.plcx_io.specs.Counts.{Rose};
ghost use Rattle.plcx_text_file.specs.Files.{IsTextFile, WhyNoText};

use crate::broken::{TextFileError, TextReadError, TextRule};
use crate::reading::{broken, read_text};
use plcx_io::{Desk, LoadError, load};
use plcx_types::limits::MAX_TEXT_BYTES;
use plcx_unit::Ready;
use std::alloc::Global;

/// The unit that the text of a file is, where it is ready to run.
pub fn load_text<D: Desk>(alloc: Global, desk: &mut D, name: &str) -> Result<Ready, TextReadError>
    ensures ready { IfOk result (IsTextFile (D.file desk.old name.now)) }
    ensures refused { IfErr result (WhyNoText (D.file desk.old name.now)
        (Rose (D.faults desk.old name.now) (D.faults desk.new name.now))) }
    ensures files { (other : List ℕ) → D.file desk.new other ≡ D.file desk.old other }
    ensures later { (other : List ℕ) → D.faults desk.old other ≤ D.faults desk.new other }
{
    let bytes = match load(alloc, desk, name, MAX_TEXT_BYTES) {
        Ok(bytes) => bytes,
        Err(LoadError::Read) => return Err(TextReadError::Read),
        Err(LoadError::TooLong { limit: _ }) => {
            let long = broken(TextRule::Length, MAX_TEXT_BYTES);
            return Err(TextReadError::Broken(long));
        }
        Err(LoadError::NoMemory) => return Err(TextReadError::NoMemory),
    };
    match read_text(alloc, &bytes) {
        Ok(ready) => Ok(ready),
        Err(TextFileError::Broken(found)) => Err(TextReadError::Broken(found)),
        Err(TextFileError::NoMemory) => Err(TextReadError::NoMemory),
    }
}

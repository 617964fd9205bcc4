//! A project file that is read and judged.
ghost use Rattle.std.specs.Prelude.{◌≡◌, ◌≤◌, ℕ, List, IfOk};
ghost use Rattle.plcx_io.specs.Counts.{Rose};

use crate::judging::{Judgement, at_byte, judge};
use crate::line::ProjectFile;
use crate::replies::{broken, read_fault};
use crate::reply::Reply;
use plcx_check::Checked;
use plcx_io::{Desk, LoadError, load};
use plcx_types::NoMemory;
use plcx_types::limits::MAX_FILE_BYTES;
use std::alloc::Global;

/// A file that was read: accepted, or refused with a reply.
#[derive(Drop)]
pub enum Taken {
    Accepted(Checked),
    Refused(Reply),
}

ghost use Rattle.plcx_command.specs.Taken.{IsTaken, IsTakenFrom};

/// The verdict on bytes, as it is answered.
fn take(alloc: Global, file: ProjectFile, bytes: &[u8]) -> Result<Taken, NoMemory>
    ensures { IfOk result (λ taken. IsTaken file bytes.now taken) }
{
    match judge(alloc, bytes)? {
        Judgement::Accepted(checked) => Ok(Taken::Accepted(checked)),
        Judgement::Broken(found) => Ok(Taken::Refused(broken(alloc, file, &found)?)),
    }
}

/// Reads a file and judges it.
pub fn take_file<D: Desk>(
    alloc: Global,
    desk: &mut D,
    file: ProjectFile,
    name: &str,
) -> Result<Taken, NoMemory>
    ensures taken { IfOk result (λ taken. IsTakenFrom file (D.file desk.old name.now)
        (Rose (D.faults desk.old name.now) (D.faults desk.new name.now)) name.now taken) }
    ensures files { (other : List ℕ) → D.file desk.new other ≡ D.file desk.old other }
    ensures later { (other : List ℕ) → D.faults desk.old other ≤ D.faults desk.new other }
{
    match load(alloc, desk, name, MAX_FILE_BYTES) {
        Ok(bytes) => take(alloc, file, &bytes),
        Err(LoadError::Read) => Ok(Taken::Refused(read_fault(alloc, name)?)),
        Err(LoadError::TooLong { limit: _ }) => {
            let long = at_byte(7, MAX_FILE_BYTES);
            Ok(Taken::Refused(broken(alloc, file, &long)?))
        }
        Err(LoadError::NoMemory) => Err(NoMemory),
    }
}

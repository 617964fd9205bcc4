//! Why a run leaves no trace.
use plcx_types::NoMemory;

/// Why a run leaves no trace. Lines and rows count from 1; a file that is too long is refused at 0.
#[derive(Clone, Copy, Debug, PartialEq, Eq)]
pub enum RunError {
    /// There is no program of the name; or none is named, and there are so many.
    NoProgram { programs: u64 },
    /// The retained file can't be read.
    RetainedRead,
    Line { line: u64 },
    /// The file of events can't be read.
    EventsRead,
    Row { row: u64 },
    NoMemory,
}

impl From<NoMemory> for RunError {
    ghost use Rattle.std.specs.Prelude.{◌≡◌};
    ghost use Rattle.plcx_traced.specs.declared.error.RunError.TheVariants.{NoMemory};

    ghost from_gives = { λ _ e. e ≡ NoMemory };

    fn from(_: NoMemory) -> RunError {
        RunError::NoMemory
    }
}

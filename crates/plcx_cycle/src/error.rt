//! Why a run of tasks leaves no text.
use plcx_plan::TaskKind;
use plcx_types::NoMemory;

/// Why a run of tasks leaves no text. Rows count from 1; a file of ticks that is too long is refused at 0.
#[derive(Clone, Copy, Debug, PartialEq, Eq)]
pub enum CycleError {
    /// The tasks of the file are wrong, at a byte.
    Tasks { kind: TaskKind, at: u64 },
    /// The file of ticks can't be read.
    TicksRead,
    Row { row: u64 },
    NoMemory,
}

impl From<NoMemory> for CycleError {
    ghost use Rattle.std.specs.Prelude.{◌≡◌};
    ghost use Rattle.plcx_cycle.specs.declared.error.CycleError.TheVariants.{NoMemory};

    ghost from_gives = { λ _ e. e ≡ NoMemory };

    fn from(_: NoMemory) -> CycleError {
        CycleError::NoMemory
    }
}

//! Why a file of ticks gives no text.
use plcx_types::NoMemory;

/// Why a file of ticks gives no text. Rows count from 1; a file that is too long is refused at 0.
#[derive(Clone, Copy, Debug, PartialEq, Eq)]
pub enum TicksError {
    /// The file can't be read.
    Read,
    Row { row: u64 },
    NoMemory,
}

impl From<NoMemory> for TicksError {
    ghost use Rattle.std.specs.Prelude.{◌≡◌};
    ghost use Rattle.plcx_ticked.specs.declared.error.TicksError.TheVariants.{NoMemory};

    ghost from_gives = { λ _ e. e ≡ NoMemory };

    fn from(_: NoMemory) -> TicksError {
        TicksError::NoMemory
    }
}

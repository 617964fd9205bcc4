//! Why a side can't be opened.
use plcx_types::NoMemory;
use std::alloc::AllocError;

/// Why a side was not opened: there is no program of that name, or memory was refused.
#[derive(Clone, Copy, Debug, PartialEq, Eq)]
pub enum OpenError {
    NoProgram,
    NoMemory,
}

impl From<NoMemory> for OpenError {
    ghost use Rattle.std.specs.Prelude.{◌≡◌};
    ghost use Rattle.plcx_scan.specs.declared.open.OpenError.TheVariants.{NoMemory};

    ghost from_gives = { λ _ e. e ≡ NoMemory };

    fn from(_: NoMemory) -> OpenError {
        OpenError::NoMemory
    }
}

impl From<AllocError> for OpenError {
    ghost use Rattle.std.specs.Prelude.{◌≡◌};
    ghost use Rattle.plcx_scan.specs.declared.open.OpenError.TheVariants.{NoMemory};

    ghost from_gives = { λ _ e. e ≡ NoMemory };

    fn from(_: AllocError) -> OpenError {
        OpenError::NoMemory
    }
}

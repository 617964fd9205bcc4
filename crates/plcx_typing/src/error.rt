//! Why a project gives no types.
ghost use Rattle.std.specs.Prelude.{◌≡◌};
ghost use Rattle.plcx_typing.specs.declared.error.TypingError.TheVariants.{NoMemory};

use plcx_model::Broken;
use plcx_types::NoMemory as NoRoom;
use std::alloc::AllocError;

/// Why a project gives no types: the first rule that it breaks, at an element, or want of memory.
#[derive(Debug, Drop)]
pub enum TypingError {
    Broken(Broken),
    NoMemory,
}

impl From<AllocError> for TypingError {
    ghost from_gives = { λ _ e. e ≡ NoMemory };

    fn from(_: AllocError) -> Self {
        TypingError::NoMemory
    }
}

impl From<NoRoom> for TypingError {
    ghost from_gives = { λ _ e. e ≡ NoMemory };

    fn from(_: NoRoom) -> Self {
        TypingError::NoMemory
    }
}

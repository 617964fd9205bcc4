//! Why a project gives no links.
ghost use Rattle.std.specs.Prelude.{◌≡◌};
ghost use Rattle.plcx_link.specs.declared.error.LinkError.TheVariants.{NoMemory};

use plcx_model::Broken;
use plcx_types::NoMemory as NoRoom;
use std::alloc::AllocError;

/// Why a project gives no links: the first rule that it breaks, at an element, or want of memory.
#[derive(Debug, Drop)]
pub enum LinkError {
    Broken(Broken),
    NoMemory,
}

impl From<AllocError> for LinkError {
    ghost from_gives = { λ _ e. e ≡ NoMemory };

    fn from(_: AllocError) -> Self {
        LinkError::NoMemory
    }
}

impl From<NoRoom> for LinkError {
    ghost from_gives = { λ _ e. e ≡ NoMemory };

    fn from(_: NoRoom) -> Self {
        LinkError::NoMemory
    }
}

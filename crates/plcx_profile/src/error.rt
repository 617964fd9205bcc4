//! Why a tree gives no project.
ghost use Rattle.std.specs.Prelude.{◌≡◌};
ghost use Rattle.plcx_profile.specs.declared.error.ProfileError.TheVariants.{NoMemory};

use plcx_model::Broken;
use plcx_types::NoMemory as NoRoom;
use std::alloc::AllocError;

/// Why a tree gives no project: the first rule that it breaks, at a byte, or want of memory.
#[derive(Debug, Drop)]
pub enum ProfileError {
    Broken(Broken),
    NoMemory,
}

impl From<AllocError> for ProfileError {
    ghost from_gives = { λ _ e. e ≡ NoMemory };

    fn from(_: AllocError) -> Self {
        ProfileError::NoMemory
    }
}

impl From<NoRoom> for ProfileError {
    ghost from_gives = { λ _ e. e ≡ NoMemory };

    fn from(_: NoRoom) -> Self {
        ProfileError::NoMemory
    }
}

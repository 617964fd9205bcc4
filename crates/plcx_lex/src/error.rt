//! Why a text is not read.
ghost use Rattle.std.specs.Prelude.{◌≡◌};
ghost use Rattle.plcx_lex.specs.declared.error.TextError.TheVariants.{NoMemory};

use std::alloc::{AllocError, AllocFailed};
use thiserror::Error;

/// Why a text is not read, and where: the offset of a byte, or the length of the text.
#[derive(Clone, Copy, Debug, PartialEq, Eq, Error)]
pub enum TextError {
    #[error("no token begins at byte {at}")]
    Lex { at: u64 },
    #[error("the text can't go on as it does at byte {at}")]
    Syntax { at: u64 },
    #[error("the text is too deep at byte {at}")]
    TooDeep { at: u64 },
    #[error("out of memory")]
    NoMemory,
}

impl From<AllocError> for TextError {
    ghost from_gives = { λ _ error. error ≡ NoMemory };

    fn from(_: AllocError) -> Self {
        TextError::NoMemory
    }
}

impl<T: Drop> From<AllocFailed<T>> for TextError {
    ghost from_gives = { λ _ error. error ≡ NoMemory };

    fn from(_: AllocFailed<T>) -> Self {
        TextError::NoMemory
    }
}

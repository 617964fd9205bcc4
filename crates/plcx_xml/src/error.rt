//! Why bytes stand for no tree that is read.
ghost use Rattle.std.specs.Prelude.{◌≡◌};
ghost use Rattle.plcx_xml.specs.declared.error.XmlError.TheVariants.{NoMemory};

use std::alloc::{AllocError, AllocFailed};
use thiserror::Error;

/// Why bytes gave no tree. Each `at` is an offset in bytes, and the first fault in this order is told.
#[derive(Clone, Copy, Debug, PartialEq, Eq, Error)]
pub enum XmlError {
    /// The bytes aren't UTF-8 (rule 1).
    #[error("not UTF-8 at byte {at}")]
    NotUtf8 { at: u64 },
    /// No token stands there (rule 2).
    #[error("no XML token at byte {at}")]
    Token { at: u64 },
    /// The tags don't nest, or the root isn't alone (rule 3).
    #[error("tags do not nest at byte {at}")]
    Nesting { at: u64 },
    /// The first element that lies in 64 others (rule 7).
    #[error("elements are nested too deeply at byte {at}")]
    TooDeep { at: u64 },
    #[error("out of memory")]
    NoMemory,
}

impl From<AllocError> for XmlError {
    ghost from_gives = { λ _ e. e ≡ NoMemory };

    fn from(_: AllocError) -> Self {
        XmlError::NoMemory
    }
}

impl<T: Drop> From<AllocFailed<T>> for XmlError {
    ghost from_gives = { λ _ e. e ≡ NoMemory };

    fn from(_: AllocFailed<T>) -> Self {
        XmlError::NoMemory
    }
}

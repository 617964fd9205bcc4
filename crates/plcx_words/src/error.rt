//! Why words were not read.

/// Why words were not read: they ask for nothing, or memory is refused.
#[derive(Clone, Copy, Debug, PartialEq, Eq)]
pub enum WordsError {
    Usage,
    NoMemory,
}

//! Why a text is refused.

/// What a text has to keep, in the order in which it is looked at: its length, that it is made of tokens, that these are
/// a unit no deeper than one may be, and the conditions of a unit that runs.
#[derive(Clone, Copy, Debug, PartialEq, Eq)]
pub enum TextRule {
    Length,
    Lex,
    Syntax,
    Depth,
    Name,
    Types,
    Recursion,
    Literal,
}

/// What a text breaks first, and at which byte.
#[derive(Clone, Copy, Debug, PartialEq, Eq)]
pub struct BrokenText {
    pub rule: TextRule,
    pub at: u64,
}

/// Why bytes give no unit.
#[derive(Clone, Copy, Debug, PartialEq, Eq)]
pub enum TextFileError {
    Broken(BrokenText),
    NoMemory,
}

/// Why a file gives no unit.
#[derive(Clone, Copy, Debug, PartialEq, Eq)]
pub enum TextReadError {
    /// The file can't be read.
    Read,
    Broken(BrokenText),
    NoMemory,
}

//! Tokens and their kinds.
use crate::terminal::Terminal;
use plcx_types::Span;

/// What a token is. TRUE and FALSE are numbers.
#[derive(Clone, Copy, Debug, PartialEq, Eq)]
pub enum TokenKind {
    Keyword,
    Name,
    Number,
    Digits,
    Address,
    Sign,
}

/// A token where it stands, with what it is in the grammar; its text is the slice of the source at its span.
#[derive(Clone, Copy, Debug, PartialEq, Eq)]
pub struct TextToken {
    pub terminal: Terminal,
    pub span: Span,
}

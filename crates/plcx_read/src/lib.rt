//! The reader of a text.
#![tactic(auto)]

mod declaration;
mod expression;
mod lexeme;
mod lexemes;
mod lists;
mod place;
mod printed;
mod statement;
mod text;
mod token;
mod unit;

pub use place::one_place;
pub use plcx_lex::{TextError, TextToken, TokenKind, tokens};
pub use printed::read_printed;
pub use text::{one_unit, read};

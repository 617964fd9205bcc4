//! The tokens of a text.
#![tactic(auto)]

mod address;
mod cutting;
mod error;
mod law;
mod lexing;
mod number;
mod pieces;
mod runs;
mod sign;
mod terminal;
mod token;
mod whole;

pub use cutting::tokens;
pub use error::TextError;
pub use law::one_list;
pub use number::number_of;
pub use terminal::Terminal;
pub use token::{TextToken, TokenKind};

//! A text that is run: from the bytes of its file to a unit that is ready, or what it breaks first.
//!
//! A text breaks nothing where it is no longer than a text may be, is made of tokens that are a unit, and the unit meets
//! the conditions of one that runs. Else it has one refusal: a rule and a byte.
#![tactic(auto)]

mod broken;
mod law;
mod loading;
mod reading;

pub use broken::{BrokenText, TextFileError, TextReadError, TextRule};
pub use law::one_text_verdict;
pub use loading::load_text;
pub use reading::read_text;

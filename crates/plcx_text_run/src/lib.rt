//! A run of a text, from its file to its trace.
//!
//! The file of the text is read first; then a program of it runs over the other files of the run. What a run comes to, or
//! which of its files stops it and where, is one thing.
#![tactic(auto)]

mod law;
mod running;

pub use law::one_outcome;
pub use running::{TextRunError, text_run};

//! The words of the command: what they ask for, or that they are a faulty command line.
//!
//! The crate `clap` reads them as one simple command. Which action takes what, and the form of numbers, is told
//! here. The top call asks for `command_of` alone.
#![tactic(auto)]

mod arguments;
mod command;
mod error;
mod number;
mod words;

pub use command::{Command, Migration, Run, TaskRun, command_of};
pub use error::WordsError;
pub use words::Words;

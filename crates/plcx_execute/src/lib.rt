//! A run of a text: the trace of a program of a unit that is ready, over the files that a run reads.
//!
//! The program is that of the run's name, or the only one; what it leaves is the trace of its text.
#![tactic(auto)]

mod choosing;
mod executing;
mod law;

pub use executing::execute;
pub use law::one_outcome;

//! A simulation: the trace of a program of a checked project, over the files that a run reads.
//!
//! The program is that of the run's name, or the only one; what it leaves is the trace of its diagram.
#![tactic(auto)]

mod choosing;
mod law;
mod simulating;

pub use choosing::program_of;
pub use law::one_outcome;
pub use simulating::{layout_of, simulate};

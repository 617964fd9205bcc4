//! Runs of a program of a file: from a layout and a side to the trace, over the two files that a run reads.
//!
//! A run names a retained file, or none, and a file of events. `begun` gives the retained state that it begins with, and
//! `traced` the trace that a side leaves over the events. Whoever has a program and can open its side puts them together;
//! what such a run then leaves, or why it leaves nothing, is said once, for any programs.
#![tactic(auto)]

mod beginning;
mod error;
mod tracing;

pub use beginning::begun;
pub use error::RunError;
pub use tracing::traced;

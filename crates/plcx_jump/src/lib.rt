//! The text of a checked project, as a unit that can be printed.
//!
//! The declarations and the body of each POU follow the templates of plcx_meaning. A body without a jump and a return is
//! straight; another is a loop over a counter, in which each network is an arm of a CASE.
#![tactic(auto)]

mod bodies;
mod compiling;

pub use compiling::compile;

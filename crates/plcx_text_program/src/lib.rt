//! The prepared text of a ready unit, with the program beside it.
//!
//! The POUs are prepared level by level, so that what a POU calls stands before it.
#![tactic(auto)]

mod bodies;
mod numbers;
mod pous;
mod preparing;

pub use preparing::prepared;

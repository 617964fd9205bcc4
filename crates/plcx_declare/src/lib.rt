//! The declarations of the text of a POU.
#![tactic(auto)]

mod declaring;

pub use declaring::blocks;

//! Leaves of a program, one by one: that of a variable, and those of a standard block.
#![tactic(auto)]

mod laying;

pub use laying::{Marks, leaf, with_standard, within_one};

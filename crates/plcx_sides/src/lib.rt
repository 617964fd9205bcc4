//! The side of a diagram and the side of its text, once both are open, and runs of both over the same files.
#![tactic(auto)]

mod law;

pub use law::{runs_come_to_the_same, sides_show_alike, sides_tell_alike};

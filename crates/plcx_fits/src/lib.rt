//! The diagram of a checked project fits: what the meaning of diagrams presumes follows from the rules. And it is one.
#![tactic(auto)]

mod laws;

pub use laws::{checked_fits, one_diagram};

//! Where the jumps and returns of a drawing lead: the network of each label.
#![tactic(auto)]

mod targets;

pub use targets::{Targets, element_at, has_jump};

//! The prepared program of a project: a body for each POU, with its networks and its place among the wires.
#![tactic(auto)]

mod bodies;
mod networks;
mod preparing;

pub use preparing::prepared;

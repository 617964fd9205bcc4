//! The networks of bodies over the numbers of their outputs and variables, and where the wires of each body stand.
#![tactic(auto)]

mod counting;
mod frames;
mod networks;
mod parts;
mod wires;

pub use frames::with_frames;
pub use networks::{Made, Shared, network, width};

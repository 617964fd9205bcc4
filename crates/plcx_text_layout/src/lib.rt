//! The program of a name in a unit that is ready, and its layout: its leaves, by the declarations of the unit's POUs.
#![tactic(auto)]

mod leaves;
mod opening;

pub use opening::{layout_at, program_place, text_layout};

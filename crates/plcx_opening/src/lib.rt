//! What it takes to open a program of a checked project: the drawings of all POUs, and the program's layout.
#![tactic(auto)]

mod drawn;
mod laws;
mod opening;

pub use drawn::drawings;
pub use laws::memories_are_laid;
pub use opening::{diagram_layout, layout_at, program_place};

//! The leaves and memories of a program, from the declarations of its POUs and of those that it has instances of.
//!
//! `leaves_are_laid` says that they are the layout that the meaning of diagrams speaks of.
#![tactic(auto)]

mod laws;
mod leaves;
mod memories;

pub use laws::{leaves_are_laid, leaves_stand};
pub use leaves::program_leaves;
pub use memories::program_memories;

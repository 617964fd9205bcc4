//! The diagram of a checked project, element by element: what compilers and runners are proved against.
//!
//! `diagrams_of` gives for a project, with its links, types and plan, the project of `plcx_meaning` that it means.
//! Names stand there as they are declared, links have the types of their pins, and a literal its number alone.
#![tactic(auto)]

mod examples;

pub use examples::{diagrams_of_blocks, diagrams_of_functions, diagrams_of_rungs};

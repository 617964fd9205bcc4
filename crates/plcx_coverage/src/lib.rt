//! The coverage of a simulation: how often a run of a program evaluated each wire of its project.
//!
//! A run reads its files, and is refused, as a simulation is; what it leaves is the text of the counts.
#![tactic(auto)]

mod covering;
mod law;

pub use covering::cover;
pub use law::one_coverage;

//! The tasks of a file's resource: its plan, or the first condition that fails.
//!
//! `items_in` is what is looked at in a file, in document order, and `TaskVerdict` says which condition fails first
//! and at which element. `read_tasks` gives the plan exactly where none fails.
#![tactic(auto)]

mod condition;
mod error;
mod examples;
mod interval;
mod laws;
mod look;
mod names;
mod programs;
mod progress;
mod reading;
mod walk;

pub use condition::TaskKind;
pub use error::TaskError;
pub use examples::examples_of_intervals;
pub use laws::{no_plan, one_fault, one_plan};
pub use reading::read_tasks;

//! The tasks of a resource: which instances a tick runs, in which order, and with which inputs.
//!
//! A plan has tasks and the instances of programs that they run. `run_tasks` goes over events with a side for each
//! instance, and gives the rows of each event. Each side goes over the own list of its instance alone, which is said
//! in `Tasks` of the definitions.
#![tactic(auto)]

mod clocking;
mod giving;
mod planning;
mod ranking;
mod rows;
mod running;
mod scheduling;
mod ticking;

pub use planning::{Instance, Task, TaskPlan};
pub use rows::{TaskRow, TaskTrace};
pub use running::run_tasks;
pub use ticking::{TaskEvent, TaskInput};

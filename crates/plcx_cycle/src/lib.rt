//! The run of the tasks of a file's resource: the text of what each instance of a program does.
//!
//! The tasks and instances are those of the file's tree; each instance runs the diagram of its program, and has a side of
//! its own. `cycle` gives the text of the rows over the file of ticks, or what came first of all that stands in its way.
#![tactic(auto)]

mod cycling;
mod error;
mod law;
mod sides;

pub use cycling::cycle;
pub use error::CycleError;
pub use law::one_cycle;

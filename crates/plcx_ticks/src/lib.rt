//! The files of a resource's runs: the ticks that are read, and what is told of them, as a text.
//!
//! `read_ticks` reads a file of ticks, whose columns are settable leaves of instances. `task_text` gives the rows of a
//! run, each with the name of its instance and of each shown leaf.
#![tactic(auto)]

mod column;
mod law;
mod once;
mod reading;
mod telling;
mod tick_row;

pub use law::{one_list_of_ticks, one_wrong_record};
pub use reading::read_ticks;
pub use telling::task_text;

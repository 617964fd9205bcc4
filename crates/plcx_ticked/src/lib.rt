//! Runs of a plan's tasks over a file of ticks: from layouts and sides of the instances to the text of their rows.
//!
//! `ticked` reads the file, runs the sides of the instances over its events, and gives the rows as a text. Whoever has a
//! plan and can open the sides puts them together; what such a run then leaves is said once, for any programs.
#![tactic(auto)]

mod error;
mod ticking;

pub use error::TicksError;
pub use ticking::ticked;

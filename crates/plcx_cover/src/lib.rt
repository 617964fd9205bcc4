//! What a run has evaluated: how often each wire of a project was, and how often it was TRUE.
//!
//! A `Cover` has a row for each wire, and listens to the scans of a side: `run_covered` runs one so, and any other watched
//! run may be given it as its watch. `cover_text` prints the rows.
#![tactic(auto)]

mod counting;
mod examples;
mod law;
mod listing;
mod opening;
mod printing;
mod running;

pub use counting::{Cover, CoverRow};
pub use examples::examples_of_coverage;
pub use law::counts_grow;
pub use printing::cover_text;
pub use running::{run_covered, run_listened};

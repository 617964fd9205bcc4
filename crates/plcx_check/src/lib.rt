//! The verdict on a project: `check` answers a `Checked`, or the first rule from 20 to 36 that is broken, and where.
//!
//! A `Checked` keeps the project with its links, types and plan. Its diagram is `diagrams_of` of plcx_view over these.
#![tactic(auto)]

mod checked;
mod error;
mod plans;
mod verdict;

pub use checked::Checked;
pub use error::CheckError;
pub use verdict::check;

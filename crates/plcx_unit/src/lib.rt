//! Whether a unit is ready to run, or the first condition that it breaks.
//!
//! Each piece of a unit has a function that answers what comes first of all that is broken in it, and `resolve` what
//! comes first in the whole unit.
#![tactic(auto)]

mod calls;
mod declarations;
mod error;
mod expressions;
mod first;
mod functions;
mod here;
mod pieces;
mod ready;
mod statements;

pub use error::{UnitError, UnitFault};
pub use ready::{Ready, resolve};

//! The numbers of what the POUs of a unit name, in tables: leaves, temporaries and in-outs by their names, and how many
//! levels of function blocks are below each POU.
#![tactic(auto)]

mod counts;
mod laws;
mod numbers;
mod tables;

pub use laws::tables_tell;
pub use numbers::{Number, Place, Table};
pub use tables::Tables;

//! The steps of drawn elements, over the numbers of their wires, variables and memories.
//!
//! Each function answers just what `Prepared` of plcx_numbered defines.
#![tactic(auto)]

mod calls;
mod elements;
mod emitting;
mod functions;
mod links;
mod numbers;
mod plain;

pub use elements::{Prepared, with_network};
pub use numbers::{Callee, Numbers};

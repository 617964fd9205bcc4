//! The lines of statements, over the numbers of what they name.
//!
//! Each function adds just what `Pieces` of plcx_text_pieces defines.
#![tactic(auto)]

mod calls;
mod emitting;
mod expressions;
mod functions;
mod numbers;
mod statements;

pub use emitting::Prepared;
pub use numbers::{Callee, Formal, Named, Numbers, Part, Place};
pub use statements::with_body;

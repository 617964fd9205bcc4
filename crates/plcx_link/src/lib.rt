//! The sources of each input pin of a project, or the first rule from 20 to 33 that it breaks.
//!
//! `LinkVerdict` of plcx_rules says which rule that is and at which element. Each body is resolved once: its names stand
//! in tables, and what each block calls and each expression holds is kept beside its element. The rules are tested one
//! after the other, each over the elements of all bodies.
#![tactic(auto)]

mod blocks;
mod body;
mod error;
mod expressions;
mod formals;
mod judging;
mod linking;
mod references;
mod rules;
mod sources;

pub use error::LinkError;
pub use linking::link;

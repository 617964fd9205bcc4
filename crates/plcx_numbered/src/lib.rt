//! What is prepared of a diagram does over numbers what the diagram does.
//!
//! `Prepared` of the specs says which steps an element becomes, `Numbers` and `Programs` which numbers stand in them,
//! `Right` when numbers are right, and `Agreeing` when those of a state are a diagram's state. The laws are that what
//! is prepared of a project that fits is right, and that a scan of it keeps the agreement.
#![tactic(auto)]

mod laws;

pub use laws::{prepared_is_right, programs_are_alike, scans_are_alike};

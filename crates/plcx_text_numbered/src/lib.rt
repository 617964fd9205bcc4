//! What is prepared of a text does over numbers what the text does.
//!
//! `Prepared` of the specs says which lines an expression becomes, `Right` when the numbers in them are right,
//! `Statements` which lines and sections stand for statements, and `Agreeing` when the numbers of a state are a text's
//! state. The laws are that the lines of an expression compute its value, and that a scan keeps the agreement; and
//! that a text with the lists of `Example` is prepared.
#![tactic(auto)]

mod laws;

pub use laws::{example_is_prepared, expressions_are_alike, scans_are_alike};

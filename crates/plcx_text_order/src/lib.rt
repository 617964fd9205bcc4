//! The POUs of a unit, prepared level by level, are a text that is prepared of the unit.
//!
//! `Made` of the specs says what is there when the POUs of lower levels, and some of a level, have been prepared. The
//! law is that this is a text of the unit once it holds of all levels and each body has its frame.
#![tactic(auto)]

mod laws;

pub use laws::ordered_is_text;

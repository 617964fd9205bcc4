//! The text that is prepared of a ready unit does what the unit does, and can be run.
//!
//! `Shapes` of the specs says which types the places of an instance have. The laws are on the lines of expressions, and
//! on whole texts: that their numbers are right, so that a scan is alike the unit's; that they are sound, and use each
//! place at its type; and that a program stands where there is room.
#![tactic(auto)]

mod laws;

pub use laws::{
    bodies_are_there, expressions_can_run, prepared_can_run, prepared_is_right, programs_stand,
    texts_are_alike,
};

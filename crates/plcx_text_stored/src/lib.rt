//! The store of a program between two scans is the state of its text.
//!
//! `LaidFor` of the specs says when a layout is that of a program, and `Between` when a store agrees with a state of
//! the text. The laws are that they agree from the start on, when inputs are written, after each scan and after
//! restarts; and that a store which agrees shows what the text shows.
#![tactic(auto)]

mod laws;

pub use laws::{
    inputs_are_stored, one_agreement, scans_are_stored, store_is_typed, store_opens,
    store_restarts, store_shows,
};

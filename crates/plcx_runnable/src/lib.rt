//! The program that is prepared of a project that fits can be run.
//!
//! `Shapes` of the specs says which types the places of an instance have. The laws say that the numbers of such a
//! program are sound, that it uses each place at its type, and that a program of it stands where there is room; of the
//! project and of what was prepared they ask for no more than a struct can keep.
#![tactic(auto)]

mod laws;

pub use laws::{bodies_are_there, prepared_can_run, programs_stand, types_stay};

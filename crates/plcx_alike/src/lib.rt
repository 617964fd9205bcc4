//! A diagram's side and its text's side are alike after every event, over the values that they show by number.
#![tactic(auto)]

mod laws;

pub use laws::{machines_show_alike, machines_tell_alike};

//! What is asked of a unit that is ready to run: the places where a unit breaks a condition.
//!
//! `Placed` is a unit with the places of its words. `Known` says what names lead to; `Expressions`, `Statements` and
//! `Declarations` say what is broken at each part of a unit, and `Broken` which of it comes first. A unit breaks
//! nothing exactly where it is ready, by the definition that plcx_meaning has of units without places.
#![tactic(auto)]

mod broken;
mod examples;
mod laws;

pub use broken::{Broken, Condition};
pub use examples::examples_of_conditions;
pub use laws::{one_comes_first, places_are_added, ready_units_break_nothing};

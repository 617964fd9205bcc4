//! Retained values for a new version of a program.
//!
//! A new version has another layout. `carry_over` says what becomes of each of its retained leaves: a leaf has the old
//! value at its path, or the old number in another type, or its initial value; and it says which old values are lost.
//! `carried` makes the retained state that the new version begins with, `carried_lines` prints it, and `report_text`
//! tells what became of each value.
#![tactic(auto)]

mod carry;
mod examples;
mod law;
mod lines;
mod state;

pub use carry::{Carry, CarryRow, Fate, Lost, carry_over};
pub use examples::{examples_of_carrying, examples_of_reports};
pub use law::{kept_twice, lines_are_read_again, nothing_changes, one_state, runs_go_on};
pub use lines::{carried_lines, report_text};
pub use state::carried;

//! Texts, run by their own meaning.
//!
//! A `TextSide` has a program of a unit that is prepared, and scans over numbers without taking memory. The specs say
//! which side of the meaning it stands for.
#![tactic(auto)]

mod side;

pub use plcx_text_layout::text_layout;
pub use side::TextSide;

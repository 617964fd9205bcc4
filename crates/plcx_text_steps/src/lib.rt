//! Prepared texts, and the scan of one over the numbers of its leaves and wires.
//!
//! A statement becomes lines, the statements within an IF, a WHILE or an arm of a CASE a section of their own. The
//! actions of lines, the frames of bodies and the store are those of prepared diagrams.
#![tactic(auto)]

mod choosing;
mod running;
mod text;

pub use choosing::chosen;
pub use running::scan;
pub use text::{Arm, Entry, Line, Section, Text};

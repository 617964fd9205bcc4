//! The types of a project's pins and wires, or the first of the rules 34 to 36 that it breaks.
//!
//! A body is taken apart into its form (`forms`): its elements, input pins and wires, and where the type of each comes
//! from. What flows among its groups (`flow`) is searched for (`closure`), each type at each group once; then the rules
//! are tests (`rules`) at each pin and each element (`faults`).
#![tactic(auto)]

mod answering;
mod body;
mod closure;
mod error;
mod faults;
mod flow;
mod forms;
mod outputs;
mod rules;

pub use answering::typing;
pub use error::TypingError;

//! Prepared programs, and the scan of one over the numbers of its leaves, memories and wires.
#![tactic(auto)]

mod acting;
mod program;
mod running;
mod state;
mod watching;

pub use acting::{Spot, act, is_on, leaf, source_value};
pub use program::{
    Action, Argument, Body, Instance, Jump, Network, Operand, Program, Source, Step,
};
pub use running::{bind, scan};
pub use state::{State, Stop, Watch};
pub use watching::{LogWatch, Silent, Told};

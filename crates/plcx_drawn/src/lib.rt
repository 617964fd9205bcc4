//! The elements of a diagram, as data that code works on: what compilers and runners read.
//!
//! Names stand as they are declared, and are borrowed from the project. `shown_element` and `shown_networks` give what
//! the elements and networks are among the diagrams of plcx_meaning.
#![tactic(auto)]

mod drawing;
mod element;
mod outputs;

pub use drawing::Drawing;
pub use element::{
    Coiling, Contacting, Element, ElementKind, Enable, InOutPin, InputPin, Link, Operand, Output,
    OutputPin, Port, Source, Storing,
};
pub use outputs::{has_edge, out_type, ports};

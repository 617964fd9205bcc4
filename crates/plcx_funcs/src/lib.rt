//! The standard functions: their names, their pins, and what they give.
#![tactic(auto)]

mod allowed;
mod applying;
mod arithmetic;
mod bits;
mod choice;
mod converting;
mod fitting;
mod func;
mod name;
mod pins;
mod table;

pub use allowed::Allowed;
pub use applying::apply;
pub use fitting::fits_signature;
pub use func::Func;
pub use name::{FuncName, lookup};
pub use pins::{Class, FuncPins, Pin0, PinName, signature};

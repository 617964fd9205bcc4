//! A bench: the project of a number of networks is made, checked and compiled, and its text is printed and read back.
//!
//! The diagram and the text each go through ten scans, and both sums are of values that the sides show behind them.
//! Someone listens to the scans of the diagram.
#![tactic(auto)]

mod benching;
mod law;
mod scanning;
mod sides;
mod summary;
mod text;
mod watching;

pub use benching::bench;
pub use law::one_summary;

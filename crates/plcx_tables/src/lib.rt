//! What is declared of the POUs of a project, by tables: the numbers of their leaves, memories and in-outs by their
//! names, and the numbers that a network uses.
#![tactic(auto)]

mod fitting;
mod keys;
mod levels;
mod named;
mod names;
mod network;
mod networks;
mod numbered;
mod own;
mod placed;
mod table;
mod variables;

pub use fitting::Tables;
pub use keys::Key;
pub use names::Name;
pub use network::NetworkNumbers;
pub use numbered::Numbered;
pub use own::{Own, owns};
pub use placed::{Placed, Table};
pub use table::tables;
pub use variables::Declared;

//! The state of a program: its layout, what is retained of it, and its store.
//!
//! A layout numbers the leaves of a program and what its elements remember. A store has a value for each of them, by
//! number; the specs say what the numbers stand for by `at`, which is a store of the meaning, from paths to numbers.
//! A retained state has a value for each retained leaf that a declaration made, and is read from lines and printed as
//! lines.
#![tactic(auto)]

mod law;
mod layout;
mod lines;
mod path;
mod retained;
mod store;
mod table;

pub use law::{lines_are_read_again, states_are_retained, values_are_stores};
pub use layout::{Layout, Leaf, Memory};
pub use lines::{RetainError, print_retained, read_retained};
pub use path::Path;
pub use retained::{Retained, initial};
pub use store::Store;
pub use table::{PathTable, in_lower_case, path_text};

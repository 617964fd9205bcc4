//! Trees of elements, read from the bytes of an exchange file.
//!
//! `StandsForTree` says which tree bytes stand for, and `IsTreeOf` that it isn't deeper than what is read.
//! `read_tree` gives that tree, or none where there is none. The crates above look at a tree one element at
//! a time: its name, its attributes, and its children.
#![tactic(auto)]

mod building;
mod content;
mod error;
mod front;
mod laws;
mod lexing;
mod look;
mod name;
mod reading;
mod reference;
mod token;
mod tokens;
mod tree;
mod value;

pub use content::Content;
pub use error::XmlError;
pub use laws::{no_tree, one_fault, one_tree};
pub use name::Name;
pub use reading::read_tree;
pub use token::{Kind, Token};
pub use tree::{Attribute, Element, Node, Text};

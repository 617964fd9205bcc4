//! The statements of the elements of a diagram, as plcx_meaning's templates have them.
//!
//! Every public function asks that the statements or names that it makes are in range, as those of a diagram that fits are
//! (`texts_are_in_range` of plcx_st). A network's statements come one element after another, in the order of evaluation.
#![tactic(auto)]

mod body;
mod elements;
mod expressions;
mod functions;
mod network;
mod words;

pub use expressions::{number, truth};
pub use network::{lower_network, lower_networks};
pub use words::{counter_word, edge_word, fed_word, wire_word, word_like, word_named};

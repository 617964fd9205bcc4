//! What is prepared of the statements of a unit of text, computed.
//!
//! `Pieces` of the specs gives the lines and sections of statements, over any numbers of what they name. The law is that
//! they stand for the statements, wherever they stand among what is prepared.
#![tactic(auto)]

mod laws;

pub use laws::pieces_stand;

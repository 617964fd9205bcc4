//! What an exchange file says, as it is written.
//!
//! `draft_in` of the definitions is the draft of every file, whether it breaks a rule or not: the first child and the
//! first attribute of each name count, and where there is none, nothing. Declarations are texts yet; bodies are as they
//! are checked from rule 20 on. The function of that name gives the draft.
#![tactic(auto)]

mod body;
mod draft;
mod part;
mod read;

pub use draft::{Draft, DraftList, DraftPou, DraftType, DraftVariable};
pub use read::draft_in;

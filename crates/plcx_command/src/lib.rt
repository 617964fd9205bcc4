//! The command: words in, a status out, with what was written on the way.
//!
//! `plcx` is all that the program does. Its clauses say, for every desk and every two sinks, which status comes
//! when and what each sink got, and that the text of a diagram, read back, does what the diagram does.
#![tactic(auto)]

mod benching;
mod covering;
mod cycling;
mod deciding;
mod finishing;
mod judging;
mod law;
mod line;
mod migrating;
mod replies;
mod reply;
mod status;
mod taking;
mod texts;
mod top;

pub use law::{one_list_of_diagrams, one_text, one_verdict};
pub use plcx_words::Words;
pub use status::Status;
pub use top::plcx;

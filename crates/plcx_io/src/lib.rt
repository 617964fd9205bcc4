//! The outside: files by name, sinks of bytes, and the two walks over them.
//!
//! A desk and a sink keep counts of faults that never fall, and answer `Failed` only where one rose. So
//! whoever blames the outside is held to it: the crates above name a fault only where a count shows it.
#![tactic(auto)]

mod desk;
mod loading;
mod memory_desk;
mod memory_sink;
mod putting;
mod real;
mod sink;

pub use desk::{Desk, Failed};
pub use loading::{LoadError, load};
pub use memory_desk::{MemDesk, MemFile};
pub use memory_sink::MemSink;
pub use putting::{PutError, put_all};
pub use real::{FileDesk, StdSink};
pub use sink::Sink;

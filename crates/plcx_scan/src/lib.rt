//! Events, sides and traces.
//!
//! A `Side` is a program between two events: that of a diagram or that of a text. It stands for sides of the meaning,
//! and each call brings it to what the meaning gives. `read_events` reads a file of events, `run` goes over events and
//! gives a row for each, and `run_to_text` gives the whole trace, as `simulate` and `run` print it.
#![tactic(auto)]

mod column;
mod event;
mod event_row;
mod law;
mod open;
mod reading;
mod record;
mod row;
mod running;
mod side;
mod tracing;

pub use column::{Column, column_named};
pub use event::{Events, Input};
pub use event_row::read_time;
pub use law::{events_are_meant, one_list_of_events, one_wrong_record};
pub use open::OpenError;
pub use reading::{EventError, read_events};
pub use record::{Record, Records};
pub use row::{Shown, Trace, TraceRow};
pub use running::run;
pub use side::{Outcome, Side};
pub use tracing::{outcome_word, push_number, run_to_text, trace_text};

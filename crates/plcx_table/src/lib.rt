//! The exchange format as a table, and the first rule on its form that a file breaks.
//!
//! `children` and `attributes` are the table: a row for each way in which an element is read. `looked_at` is the
//! list of the elements that are looked at, in document order, each with what becomes of it by the table, and
//! `FormatVerdict` says which of the rules 4 to 7 is broken first, and at which element. `format_verdict` gives it.
#![tactic(auto)]

mod constructs;
mod decimal;
mod fate;
mod laws;
mod limits;
mod look;
mod row;
mod rules;
mod table;
mod verdict;
mod walk;

pub use decimal::{coordinate, number};
pub use fate::fate_for;
pub use laws::one_format_verdict;
pub use look::{attribute_of, first_value, number_at, same};
pub use row::{Fate, Form, FormatRule, Often, Row, Seat, Taken};
pub use verdict::format_verdict;

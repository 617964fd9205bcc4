//! What all of plcx speaks of: names, types, values, spans, and want of memory.
//!
//! A name is seen by contracts as its bytes, in the spelling that it was given. The crates above compare
//! names by `in_lower_case`, and refuse names by `is_reserved`. A value is seen as its type and its number.
#![tactic(auto)]

mod address;
mod conversion;
mod duration;
mod fault;
mod ident;
mod law;
pub mod limits;
mod literal;
mod memory;
mod numeral;
mod print;
mod reading;
mod reserved;
mod span;
mod ty;
mod val;

pub use address::{is_address, is_area, is_size};
pub use conversion::conversion_named;
pub use fault::Fault;
pub use ident::{Ident, IdentError, is_identifier, same_name};
pub use law::{one_literal, printed_is_read, types_by_name};
pub use literal::{Literal, NotLiteral, read_literal, read_number, read_value, truth};
pub use memory::NoMemory;
pub use numeral::{digit, with_digit};
pub use print::{number_text, print_literal};
pub use reading::behind;
pub use reserved::{is_keyword, is_listed, is_reserved};
pub use span::Span;
pub use ty::{ALL_TYPES, Bounds, Ty};
pub use val::{Val, default_of, in_range};

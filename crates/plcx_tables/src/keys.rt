//! What an element has numbers for.
use crate::names::Name;

/// The edge of an element, or one of its outputs.
#[derive(Clone, Copy, Debug, PartialEq, Eq, Hash)]
pub enum Key<'a> {
    Edge(u64),
    Output(u64, Name<'a>),
}

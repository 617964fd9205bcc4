//! The ends of a connection.

/// A pin of an element, which is named by its place in the body. An output pin has its place among the outputs of a
/// block and is 0 at other elements; an input pin has its place among the input pins and then the in-out pins.
#[derive(Clone, Copy, Debug, PartialEq, Eq)]
pub struct Source {
    pub element: u32,
    pub pin: u32,
}

/// A connection, from the output pin that gives to the input pin that takes.
#[derive(Clone, Copy, Debug, PartialEq, Eq)]
pub struct Wire {
    pub from: Source,
    pub to: Source,
}

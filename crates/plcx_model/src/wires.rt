//! A body as a graph: elements by their place in the body, and numbered connections.
ghost use Rattle.plcx_model.specs.Graph.{IsGraph};

use crate::key::Key;
use crate::source::Wire;

/// The elements of a body with their keys, and its connections. A connection is learnt by `look` alone.
#[derive(Debug, Drop)]
pub struct Wires {
    pub(crate) keys: Vec<Key>,
    pub(crate) parts: Vec<bool>,
    pub(crate) wires: Vec<Wire>,
    ghost graph: { IsGraph (record { keys = keys.items; parts = parts.items; wires = wires.items }) },
}

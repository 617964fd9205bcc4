//! What `Wires` tells of a body, without memory.
ghost use Rattle.std.specs.Prelude.{◌≡◌, ◌<◌, ◌+◌, length};
ghost use Rattle.plcx_model.specs.Graph.{takes_part, elements, key_at, wire_at};
ghost use Rattle.plcx_model.specs.Shown.{graph_of};

use crate::key::Key;
use crate::source::Wire;
use crate::steps::Steps;
use crate::wires::Wires;
use std::sync::ledger::Ledger;

impl Wires {
    /// The number of elements.
    pub fn elements(&self) -> u32
        ensures { result ≡ elements (graph_of self.now) }
    {
        self.keys.len() as u32
    }

    /// The number of connections.
    pub fn connections(&self) -> u64
        ensures { result ≡ length (graph_of self.now).wires }
    {
        self.wires.len() as u64
    }

    /// An element's key.
    pub fn key(&self, e: u32) -> Key
        requires { e < elements (graph_of self.now) }
        ensures { result ≡ key_at (graph_of self.now) e }
    {
        self.keys[e as usize]
    }

    /// Whether an element can be in a network: rails and skipped elements can't.
    pub fn takes_part(&self, e: u32) -> bool
        requires { e < elements (graph_of self.now) }
        ensures { result ≡ takes_part (graph_of self.now) e }
    {
        self.parts[e as usize]
    }

    /// Looks at one connection, which is the only way to one.
    pub fn look<L: Ledger>(&self, i: u64, steps: &mut Steps<L>) -> Wire
        requires { i < length (graph_of self.now).wires }
        ensures value { result ≡ wire_at (graph_of self.now).wires i }
        ensures from { result.from.element < elements (graph_of self.now) }
        ensures to { result.to.element < elements (graph_of self.now) }
        ensures cost { steps.new ≡ steps.old + 1 }
    {
        steps.tick();
        self.wires[i as usize]
    }
}

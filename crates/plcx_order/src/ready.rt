//! A heap of the elements that are ready, least key first.
ghost use Rattle.std.specs.Prelude.{◌≡◌, [], ◌∷◌, IfSome, IfNone, OnOk, OnErr};
ghost use Rattle.std.specs.List.Sorted.{IsPermutation};
ghost use Rattle.plcx_order.specs.Counts.{TakesLeast};

use crate::rank::Rank;
use plcx_types::NoMemory;
use std::alloc::Global;
use std::cmp::Reverse;
use std::collections::BinaryHeap;
use std::marker::Model;

/// An element with the rank of its key.
#[derive(Clone, Copy, Debug, PartialEq, Eq, PartialOrd, Ord)]
pub(crate) struct Entry {
    pub rank: Rank,
    pub element: u32,
}

/// The entries that are ready.
#[derive(Drop)]
pub(crate) struct Ready {
    heap: BinaryHeap<Reverse<Entry>>,
}

impl Model for Ready {
    ghost use Rattle.std.specs.Prelude.{List, map};
    ghost use Rattle.std.specs.BinaryHeap.{IsHeap, heap_items};
    ghost use Rattle.plcx_order.specs.Counts.{entry_cmp};
    ghost use Rattle.plcx_order.specs.declared.ready.Entry.{Entry};

    ghost Value = { List Entry };

    ghost view = { λ r. map (λ x. x.0) (heap_items r.heap) };

    ghost invariant = { λ r. IsHeap (λ x y. entry_cmp y.0 x.0) (heap_items r.heap) };
}

impl Ready {
    /// Nothing is ready.
    pub fn new(alloc: Global) -> Ready
        ensures { result ≡ [] }
    {
        Ready {
            heap: BinaryHeap::new(alloc),
        }
    }

    /// One more is ready.
    pub fn push(&mut self, entry: Entry) -> Result<(), NoMemory>
        ensures { OnOk result (IsPermutation (entry ∷ self.old) self.new) }
    {
        let Ok(()) = self.heap.push(Reverse(entry)) else {
            return Err(NoMemory);
        };
        Ok(())
    }

    /// Takes the one with the least key.
    pub fn pop(&mut self) -> Option<Entry>
        ensures least { IfSome result (λ x. TakesLeast self.old x self.new) }
        ensures none { IfNone result ((self.old ≡ []) × (self.new ≡ [])) }
    {
        let Some(top) = self.heap.pop() else {
            return None;
        };
        Some(top.0)
    }
}

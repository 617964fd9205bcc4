//! What is waited for.
ghost use Rattle.std.specs.Prelude.{◌≡◌, ◌<◌, ◌≤◌, ◌+◌, ℕ, true, false, length, slice_index, slice_set, IfOk, IfSome, OnOk, ◌++◌, ◌∷◌, []};
ghost use Rattle.plcx_model.specs.Graph.{elements, to_at};
ghost use Rattle.plcx_model.specs.Shown.{graph_of};
ghost use Rattle.plcx_order.specs.Counts.{IsCounted, IsWholeCount, AreAwaited, one, came, is_awaited};

use plcx_model::{Steps, Wires};
use plcx_types::NoMemory;
use std::alloc::Global;
use std::sync::ledger::Ledger;

/// The connections whose sources are waited for, and how many of them lead to each element.
#[derive(Drop)]
pub(crate) struct Waits {
    awaited: Vec<bool>,
    count: Vec<usize>,
}

impl Waits {
    /// Each connection between elements that take part is waited for, if it isn't feedback. It looks at each once.
    pub fn new<L: Ledger>(
        alloc: Global,
        wires: &Wires,
        marks: &[bool],
        steps: &mut Steps<L>,
    ) -> Result<Waits, NoMemory>
        requires marks { length marks.now ≡ length (graph_of wires.now).wires }
        ensures counted { IfOk result (λ w. IsWholeCount (graph_of wires.now) w.awaited.items w.count.items) }
        ensures awaited { IfOk result (λ w. AreAwaited (graph_of wires.now) marks.now (length (graph_of wires.now).wires) w.awaited.items) }
        ensures cost { steps.new ≤ steps.old + length (graph_of wires.now).wires }
    {
        let mut waits = Waits {
            awaited: Vec::new(alloc),
            count: vec![in alloc; 0usize; wires.elements() as usize]?,
        };
        for i in 0..wires.connections() as usize {
            let wire = wires.look(i as u64, steps);
            let awaited = !marks[i]
                && wires.takes_part(wire.from.element)
                && wires.takes_part(wire.to.element);
            waits.add(wires, i, wire.to.element as usize, awaited)?;
        }
        Ok(waits)
    }

    /// How many connections lead to an element that are waited for.
    pub fn count(&self, v: usize) -> usize
        requires { v < length self.now.count.items }
        ensures { result ≡ slice_index self.now.count.items v }
    {
        self.count[v]
    }

    /// One connection more, awaited or not.
    fn add(&mut self, wires: &Wires, i: usize, v: usize, awaited: bool) -> Result<(), NoMemory>
        requires counted { IsCounted (elements (graph_of wires.now)) (graph_of wires.now).wires i self.old.awaited.items self.old.count.items }
        requires within { i < length (graph_of wires.now).wires }
        requires to { v ≡ to_at (graph_of wires.now).wires i }
        requires element { v < elements (graph_of wires.now) }
        ensures counted { OnOk result (IsCounted (elements (graph_of wires.now)) (graph_of wires.now).wires (i + 1) self.new.awaited.items self.new.count.items) }
        ensures awaited { OnOk result (self.new.awaited.items ≡ self.old.awaited.items ++ awaited ∷ []) }
    {
        self.awaited.push(awaited)?;
        if !awaited {
            return Ok(());
        }
        self.count[v] += 1;
        Ok(())
    }

    /// A connection's source is listed. Answers the element that waits for nothing more by that.
    pub fn hear(&mut self, wires: &Wires, i: usize, v: u32) -> Option<u32>
        requires counted { IsWholeCount (graph_of wires.now) self.old.awaited.items self.old.count.items }
        requires within { i < length (graph_of wires.now).wires }
        requires to { v ≡ to_at (graph_of wires.now).wires i }
        requires element { v < elements (graph_of wires.now) }
        ensures counted { IsWholeCount (graph_of wires.now) self.new.awaited.items self.new.count.items }
        ensures heard { self.new.awaited.items ≡ slice_set self.old.awaited.items i false }
        ensures came { (w : ℕ) → w < elements (graph_of wires.now) → one (slice_index self.new.count.items w) 0 ≡ one (slice_index self.old.count.items w) 0 + came result w }
        ensures element { IfSome result (λ w. (w < elements (graph_of wires.now)) × (w ≡ v) × (is_awaited self.old.awaited.items i ≡ true)) }
    {
        let was = self.awaited[i];
        self.awaited[i] = false;
        if !was {
            return None;
        }
        let at = v as usize;
        self.count[at] -= 1;
        if self.count[at] == 0 { Some(v) } else { None }
    }
}

//! A walk that finds strong components, with a stack of its own.
//!
//! Elements that are seen and not yet in a component stand on the stack. It is cut into blocks; a connection from
//! the top block to a lower one makes one block of them and of those between. Where nothing waits in the top block, it is a component.
ghost use Rattle.std.specs.Prelude.{◌≡◌, ◌↔◌, true, ◌<◌, ◌≤◌, ◌+◌, ◌-◌, ℕ, length, get_or, slice_index, IfOk, IfSome, IfNone, OnOk};
ghost use Rattle.plcx_order.specs.Walks.{state_of, Opens, Lowers, Closes, Agree, IsClosed, IsUnderWay, KeepsSeen, Goes, work, IsWholeTable, AreWholeLast, AreComponents};
ghost use Rattle.plcx_model.specs.Graph.{elements};
ghost use Rattle.plcx_model.specs.Shown.{graph_of};
ghost use Rattle.plcx_order.specs.declared.walk.Place.TheVariants.{Unseen, Open, Done};

use crate::chains::Table;
use plcx_model::Wires;
use plcx_types::NoMemory;
use std::alloc::Global;

/// Where an element is: not seen, at a place on the stack, or in a component.
#[derive(Clone, Copy, Debug, PartialEq, Eq)]
pub(crate) enum Place {
    Unseen,
    Open(usize),
    Done(usize),
}

/// The state of a walk.
#[derive(Drop)]
pub(crate) struct Walk {
    place: Vec<Place>,
    /// The open elements.
    stack: Vec<usize>,
    /// The places on the stack at which a block begins.
    starts: Vec<usize>,
    /// One more than the next connection out of each element, or 0.
    left: Vec<usize>,
    /// The places of open elements that have connections left, and some that have none.
    todo: Vec<usize>,
    /// The place at which each component's block began. Its length numbers the next component.
    closed: Vec<usize>,
}

/// Takes the last number away.
fn drop_last(numbers: &mut Vec<usize>)
    requires { 0 < length numbers.old.items }
    ensures count { length numbers.new.items + 1 ≡ length numbers.old.items }
    ensures rest { (k : ℕ) → k < length numbers.new.items → slice_index numbers.new.items k ≡ slice_index numbers.old.items k }
{
    numbers.truncate(numbers.len() - 1);
}

/// The last number, where it isn't below a bound.
fn last_from(numbers: &[usize], bound: usize) -> Option<usize>
    ensures some { IfSome result (λ p. (0 < length numbers.now) × (bound ≤ p) × (p ≡ slice_index numbers.now (length numbers.now - 1))) }
    ensures none { IfNone result (0 < length numbers.now → slice_index numbers.now (length numbers.now - 1) < bound) }
{
    if numbers.is_empty() {
        return None;
    }
    let last = numbers[numbers.len() - 1];
    (last >= bound).then_some(last)
}

/// Puts the open elements from a place on into a component.
fn close_places(place: &mut [Place], stack: &[usize], first: usize, component: usize)
    requires agree { Agree place.old stack.now }
    requires within { first ≤ length stack.now }
    ensures { (v : ℕ) → v < length place.old → IsClosed first component (get_or place.old v Unseen) (get_or place.new v Unseen) }
{
    for p in first..stack.len() {
        place[stack[p]] = Place::Done(component);
    }
}

impl Walk {
    fn is_unseen(&self, v: usize) -> bool
        requires { v < length self.now.place.items }
        ensures { (result ≡ true) ↔ (get_or self.now.place.items v Unseen ≡ Unseen) }
    {
        matches!(self.place[v], Place::Unseen)
    }

    /// Puts an element on the stack, as a block of its own.
    fn open(&mut self, v: usize) -> Result<(), NoMemory>
        requires { v < length self.old.place.items }
        ensures opens { OnOk result (Opens (state_of self.old) (state_of self.new) v) }
        ensures places { OnOk result (length self.new.place.items ≡ length self.old.place.items) }
        ensures left { OnOk result (self.new.left ≡ self.old.left) }
        ensures starts { OnOk result (length self.new.starts.items ≡ length self.old.starts.items + 1) }
        ensures todo { OnOk result (length self.new.todo.items ≡ length self.old.todo.items + 1) }
    {
        let at = self.stack.len();
        self.stack.push(v)?;
        self.starts.push(at)?;
        self.todo.push(at)?;
        self.place[v] = Place::Open(at);
        Ok(())
    }

    /// Makes one block of those from place q up.
    fn merge(&mut self, q: usize)
        requires { 0 < length self.old.starts.items }
        ensures lowers { Lowers (state_of self.old) (state_of self.new) q }
        ensures places { self.new.place ≡ self.old.place }
        ensures left { self.new.left ≡ self.old.left }
        ensures todo { self.new.todo ≡ self.old.todo }
        ensures fewer { length self.new.starts.items ≤ length self.old.starts.items }
    {
        let mut keep = self.starts.len();
        while keep > 1 && self.starts[keep - 1] > q {
            keep -= 1;
        }
        self.starts.truncate(keep);
    }

    /// Makes a component of the top block, which begins at a place.
    fn close(&mut self, first: usize) -> Result<(), NoMemory>
        requires some { 0 < length self.old.starts.items }
        requires last { first ≡ slice_index self.old.starts.items (length self.old.starts.items - 1) }
        requires within { first ≤ length self.old.stack.items }
        requires agree { Agree self.old.place.items self.old.stack.items }
        ensures closes { OnOk result (Closes (length self.old.place.items) (state_of self.old) (state_of self.new)) }
        ensures places { OnOk result (length self.new.place.items ≡ length self.old.place.items) }
        ensures left { OnOk result (self.new.left ≡ self.old.left) }
        ensures todo { OnOk result (self.new.todo ≡ self.old.todo) }
        ensures fewer { OnOk result (length self.new.starts.items + 1 ≡ length self.old.starts.items) }
    {
        let component = self.closed.len();
        self.closed.push(first)?;
        close_places(&mut self.place, &self.stack, first, component);
        self.stack.truncate(first);
        drop_last(&mut self.starts);
        Ok(())
    }

    /// Goes over a connection to an element.
    fn go(&mut self, v: usize) -> Result<(), NoMemory>
        requires seen { v < length self.old.place.items }
        requires some { 0 < length self.old.starts.items }
        ensures went { OnOk result (Goes (state_of self.old) (state_of self.new) v) }
        ensures places { OnOk result (length self.new.place.items ≡ length self.old.place.items) }
        ensures left { OnOk result (self.new.left ≡ self.old.left) }
        ensures starts { OnOk result (length self.new.starts.items ≤ length self.old.starts.items + 1) }
        ensures todo { OnOk result (length self.new.todo.items ≤ length self.old.todo.items + 1) }
    {
        match self.place[v] {
            Place::Unseen => self.open(v)?,
            Place::Open(q) => self.merge(q),
            Place::Done(_) => {}
        }
        Ok(())
    }

    /// Takes the next connection out of the element at a place in the top block.
    fn next(&mut self, wires: &Wires, table: &Table, p: usize) -> Result<(), NoMemory>
        requires under_way { IsUnderWay (graph_of wires.now) self.old }
        requires table { IsWholeTable (graph_of wires.now) table.now.before.items table.now.to.items }
        requires some { 0 < length self.old.starts.items }
        requires top { slice_index self.old.starts.items (length self.old.starts.items - 1) ≤ p }
        requires todos { 0 < length self.old.todo.items }
        requires todo { p ≡ slice_index self.old.todo.items (length self.old.todo.items - 1) }
        ensures under_way { OnOk result (IsUnderWay (graph_of wires.now) self.new) }
        ensures seen { OnOk result (KeepsSeen (elements (graph_of wires.now)) (state_of self.old) (state_of self.new)) }
        ensures less { OnOk result (work self.new < work self.old) }
    {
        let u = self.stack[p];
        let left = self.left[u];
        if left == 0 {
            drop_last(&mut self.todo);
            return Ok(());
        }
        self.go(table.to[left - 1] as usize)?;
        self.left[u] = table.before[left - 1];
        Ok(())
    }

    /// One move. The top block begins at a place.
    fn turn(&mut self, wires: &Wires, table: &Table, first: usize) -> Result<(), NoMemory>
        requires under_way { IsUnderWay (graph_of wires.now) self.old }
        requires table { IsWholeTable (graph_of wires.now) table.now.before.items table.now.to.items }
        requires some { 0 < length self.old.starts.items }
        requires first { first ≡ slice_index self.old.starts.items (length self.old.starts.items - 1) }
        ensures under_way { OnOk result (IsUnderWay (graph_of wires.now) self.new) }
        ensures seen { OnOk result (KeepsSeen (elements (graph_of wires.now)) (state_of self.old) (state_of self.new)) }
        ensures less { OnOk result (work self.new < work self.old) }
    {
        match last_from(&self.todo, first) {
            Some(p) => self.next(wires, table, p),
            None => {
                self.close(first)?;
                Ok(())
            }
        }
    }

    /// Visits an element, if it wasn't seen, and what it reaches and wasn't seen.
    fn visit(&mut self, wires: &Wires, table: &Table, root: usize) -> Result<(), NoMemory>
        requires under_way { IsUnderWay (graph_of wires.now) self.old }
        requires table { IsWholeTable (graph_of wires.now) table.now.before.items table.now.to.items }
        requires root { root < elements (graph_of wires.now) }
        requires empty { length self.old.starts.items ≡ 0 }
        ensures under_way { OnOk result (IsUnderWay (graph_of wires.now) self.new) }
        ensures seen { OnOk result (KeepsSeen (elements (graph_of wires.now)) (state_of self.old) (state_of self.new)) }
        ensures root { OnOk result (get_or self.new.place.items root Unseen ≡ Unseen → ⊥) }
        ensures empty { OnOk result (length self.new.starts.items ≡ 0) }
    {
        if !self.is_unseen(root) {
            return Ok(());
        }
        self.open(root)?;
        while !self.starts.is_empty() {
            let first = self.starts[self.starts.len() - 1];
            self.turn(wires, table, first)?;
        }
        Ok(())
    }
}

/// Each element's component.
pub(crate) fn components(
    alloc: Global,
    wires: &Wires,
    last: Vec<usize>,
    table: &Table,
) -> Result<Vec<Place>, NoMemory>
    requires last { AreWholeLast (graph_of wires.now) last.items }
    requires table { IsWholeTable (graph_of wires.now) table.now.before.items table.now.to.items }
    ensures { IfOk result (λ places. AreComponents (graph_of wires.now) places.items) }
{
    let mut walk = Walk {
        place: vec![in alloc; Place::Unseen; wires.elements() as usize]?,
        stack: Vec::new(alloc),
        starts: Vec::new(alloc),
        left: last,
        todo: Vec::new(alloc),
        closed: Vec::new(alloc),
    };
    for root in 0..wires.elements() as usize {
        walk.visit(wires, table, root)?;
    }
    Ok(walk.place)
}

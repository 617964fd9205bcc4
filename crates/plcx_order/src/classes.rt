//! Networks, by a walk over neighbours.
//!
//! Elements are visited by their places, so that networks are found in their order. What is seen has the number of its network.
ghost use Rattle.std.specs.Prelude.{◌≡◌, ◌<◌, ◌≤◌, ◌+◌, ◌^◌, ◌⊎◌, ℕ, [], length, slice_index, get_or, nat_eq, IfOk, OnOk};
ghost use Rattle.plcx_model.specs.Graph.{TakesPart, PlaceBefore, elements};
ghost use Rattle.plcx_model.specs.Paths.{IsLink};
ghost use Rattle.plcx_model.specs.Shown.{graph_of};
ghost use Rattle.plcx_model.specs.Networks.{Listed, AreNetworks};
ghost use Rattle.plcx_order.specs.Walks.{IsLast, AreLast, IsTable};
ghost use Rattle.plcx_order.specs.Classes.{AreLinks, IsSpread, Spreading, KeepsNumbers, append_if, class_below, NoMoreToDo};

use crate::chains::Table;
use crate::links::{links, neighbours};
use crate::standing::by_place;
use plcx_model::{Steps, Wire, Wires};
use plcx_types::NoMemory;
use sqlite_items::Items;
use std::alloc::Global;
use std::marker::Brand;
use std::sync::ledger::{Blank, Ledger};

/// The state of a walk.
#[derive(Drop)]
pub(crate) struct Classes {
    /// One more than the number of each element's network, or 0 where it isn't seen.
    number: Vec<usize>,
    /// What is seen and whose neighbours aren't.
    todo: Vec<u32>,
    /// The first element of each network.
    firsts: Vec<u32>,
}

impl Classes {
    /// Sees a neighbour of an element of the network that is walked.
    fn meet(&mut self, wires: &Wires, u: u32, v: u32) -> Result<(), NoMemory>
        requires spread { IsSpread (graph_of wires.now) self.old.number.items (Spreading u self.old.todo.items) self.old.firsts.items }
        requires link { IsLink (graph_of wires.now) u v }
        ensures spread { OnOk result (IsSpread (graph_of wires.now) self.new.number.items (Spreading u self.new.todo.items) self.new.firsts.items) }
        ensures met { OnOk result (slice_index self.new.number.items v ≡ slice_index self.new.number.items u) }
        ensures kept { OnOk result (KeepsNumbers self.old.number.items self.new.number.items) }
        ensures firsts { OnOk result (self.new.firsts ≡ self.old.firsts) }
        ensures less { OnOk result (NoMoreToDo (graph_of wires.now) self.old.number.items self.old.todo.items self.new.number.items self.new.todo.items) }
    {
        if self.number[v as usize] != 0 {
            return Ok(());
        }
        self.todo.push(v)?;
        self.number[v as usize] = self.firsts.len();
        Ok(())
    }

    /// Sees all neighbours of an element.
    fn spread(
        &mut self,
        wires: &Wires,
        links: &[Wire],
        table: &Table,
        u: u32,
        last: usize,
    ) -> Result<(), NoMemory>
        requires spread { IsSpread (graph_of wires.now) self.old.number.items (Spreading u self.old.todo.items) self.old.firsts.items }
        requires links { AreLinks (graph_of wires.now) (length (graph_of wires.now).wires) links.now }
        requires table { IsTable links.now (length links.now) table.now.before.items table.now.to.items }
        requires last { IsLast links.now (length links.now) u last }
        ensures spread { OnOk result (IsSpread (graph_of wires.now) self.new.number.items (Listed self.new.todo.items) self.new.firsts.items) }
        ensures kept { OnOk result (KeepsNumbers self.old.number.items self.new.number.items) }
        ensures firsts { OnOk result (self.new.firsts ≡ self.old.firsts) }
        ensures less { OnOk result (NoMoreToDo (graph_of wires.now) self.old.number.items self.old.todo.items self.new.number.items self.new.todo.items) }
    {
        let mut next = last;
        while next > 0 {
            self.meet(wires, u, table.to[next - 1])?;
            next = table.before[next - 1];
        }
        Ok(())
    }

    /// Begins a network at an element that isn't seen.
    fn begin(&mut self, wires: &Wires, root: u32) -> Result<(), NoMemory>
        requires spread { IsSpread (graph_of wires.now) self.old.number.items (Listed []) self.old.firsts.items }
        requires empty { self.old.todo.items ≡ [] }
        requires part { TakesPart (graph_of wires.now) root }
        requires unseen { slice_index self.old.number.items root ≡ 0 }
        requires least { (v : ℕ) → TakesPart (graph_of wires.now) v → slice_index self.old.number.items v ≡ 0 → (v ≡ root) ⊎ PlaceBefore (graph_of wires.now) root v }
        ensures spread { OnOk result (IsSpread (graph_of wires.now) self.new.number.items (Listed self.new.todo.items) self.new.firsts.items) }
        ensures kept { OnOk result (KeepsNumbers self.old.number.items self.new.number.items) }
        ensures seen { OnOk result (0 < slice_index self.new.number.items root) }
    {
        self.firsts.push(root)?;
        self.todo.push(root)?;
        self.number[root as usize] = self.firsts.len();
        Ok(())
    }

    /// Walks the network of an element that isn't seen.
    fn walk(
        &mut self,
        wires: &Wires,
        links: &[Wire],
        table: &Table,
        last: &[usize],
        root: u32,
    ) -> Result<(), NoMemory>
        requires spread { IsSpread (graph_of wires.now) self.old.number.items (Listed []) self.old.firsts.items }
        requires empty { self.old.todo.items ≡ [] }
        requires part { TakesPart (graph_of wires.now) root }
        requires unseen { slice_index self.old.number.items root ≡ 0 }
        requires least { (v : ℕ) → TakesPart (graph_of wires.now) v → slice_index self.old.number.items v ≡ 0 → (v ≡ root) ⊎ PlaceBefore (graph_of wires.now) root v }
        requires links { AreLinks (graph_of wires.now) (length (graph_of wires.now).wires) links.now }
        requires table { IsTable links.now (length links.now) table.now.before.items table.now.to.items }
        requires last { AreLast (elements (graph_of wires.now)) links.now (length links.now) last.now }
        ensures spread { OnOk result (IsSpread (graph_of wires.now) self.new.number.items (Listed []) self.new.firsts.items) }
        ensures empty { OnOk result (self.new.todo.items ≡ []) }
        ensures kept { OnOk result (KeepsNumbers self.old.number.items self.new.number.items) }
        ensures seen { OnOk result (0 < slice_index self.new.number.items root) }
    {
        self.begin(wires, root)?;
        while let Some(u) = self.todo.pop() {
            self.spread(wires, links, table, u, last[u as usize])?;
        }
        Ok(())
    }

    /// Walks the network of an element, if it takes part and isn't seen.
    fn visit(
        &mut self,
        wires: &Wires,
        links: &[Wire],
        table: &Table,
        last: &[usize],
        root: u32,
    ) -> Result<(), NoMemory>
        requires spread { IsSpread (graph_of wires.now) self.old.number.items (Listed []) self.old.firsts.items }
        requires empty { self.old.todo.items ≡ [] }
        requires element { root < elements (graph_of wires.now) }
        requires least { (v : ℕ) → TakesPart (graph_of wires.now) v → slice_index self.old.number.items v ≡ 0 → (v ≡ root) ⊎ PlaceBefore (graph_of wires.now) root v }
        requires links { AreLinks (graph_of wires.now) (length (graph_of wires.now).wires) links.now }
        requires table { IsTable links.now (length links.now) table.now.before.items table.now.to.items }
        requires last { AreLast (elements (graph_of wires.now)) links.now (length links.now) last.now }
        ensures spread { OnOk result (IsSpread (graph_of wires.now) self.new.number.items (Listed []) self.new.firsts.items) }
        ensures empty { OnOk result (self.new.todo.items ≡ []) }
        ensures kept { OnOk result (KeepsNumbers self.old.number.items self.new.number.items) }
        ensures seen { OnOk result (TakesPart (graph_of wires.now) root → 0 < slice_index self.new.number.items root) }
    {
        if !wires.takes_part(root) {
            return Ok(());
        }
        if self.number[root as usize] != 0 {
            return Ok(());
        }
        self.walk(wires, links, table, last, root)
    }
}

/// So many zeros.
fn zeros(alloc: Global, count: usize) -> Result<Vec<usize>, NoMemory>
    ensures count { IfOk result (λ number. length number.items ≡ count) }
    ensures none { IfOk result (λ number. (v : ℕ) → v < count → slice_index number.items v ≡ 0) }
{
    Ok(vec![in alloc; 0usize; count]?)
}

/// A walk in which nothing is seen.
fn start(alloc: Global, wires: &Wires) -> Result<Classes, NoMemory>
    ensures spread { IfOk result (λ c. IsSpread (graph_of wires.now) c.number.items (Listed []) c.firsts.items) }
    ensures empty { IfOk result (λ c. c.todo.items ≡ []) }
{
    Ok(Classes {
        number: zeros(alloc, wires.elements() as usize)?,
        todo: Vec::new(alloc),
        firsts: Vec::new(alloc),
    })
}

/// The number of each element's network, one higher, and the first element of each network.
fn find_classes<L: Ledger>(
    alloc: Global,
    wires: &Wires,
    steps: &mut Steps<L>,
) -> Result<Classes, NoMemory>
    ensures spread { IfOk result (λ c. IsSpread (graph_of wires.now) c.number.items (Listed []) c.firsts.items) }
    ensures seen { IfOk result (λ c. (v : ℕ) → TakesPart (graph_of wires.now) v → 0 < slice_index c.number.items v) }
    ensures cost { steps.new ≤ steps.old + length (graph_of wires.now).wires }
{
    let links = links(alloc, wires, steps)?;
    let (last, table) = neighbours(alloc, wires.elements() as usize, &links)?;
    let standings = by_place(alloc, wires)?;
    let mut classes = start(alloc, wires)?;
    for k in 0..standings.len() {
        classes.visit(wires, &links, &table, &last, standings[k].element)?;
    }
    Ok(classes)
}

/// Puts an element into the list of its network, if it has one.
fn put(lists: &mut Vec<Items<u32>>, v: u32, number: usize) -> Result<(), NoMemory>
    requires { number ≤ length lists.old.items }
    ensures count { OnOk result (length lists.new.items ≡ length lists.old.items) }
    ensures lists { OnOk result ((k : ℕ) → k < length lists.old.items → get_or lists.new.items k [] ≡ append_if (nat_eq number (k + 1)) (get_or lists.old.items k []) v) }
{
    if number == 0 {
        return Ok(());
    }
    lists[number - 1].push(v)?;
    Ok(())
}

/// So many empty lists.
fn empty_lists(alloc: Global, count: usize) -> Result<Vec<Items<u32>>, NoMemory>
    ensures count { IfOk result (λ lists. length lists.items ≡ count) }
    ensures empty { IfOk result (λ lists. (k : ℕ) → k < count → get_or lists.items k [] ≡ []) }
{
    let mut lists = Vec::new(alloc);
    for _ in 0..count {
        lists.push(Items::new(alloc))?;
    }
    Ok(lists)
}

/// For each network its elements, in the order of the body.
fn gathered(alloc: Global, classes: &Classes) -> Result<Vec<Items<u32>>, NoMemory>
    requires count { length classes.now.number.items < 2 ^ 32 }
    requires below { (v : ℕ) → slice_index classes.now.number.items v ≤ length classes.now.firsts.items }
    ensures count { IfOk result (λ lists. length lists.items ≡ length classes.now.firsts.items) }
    ensures lists { IfOk result (λ lists. (k : ℕ) → k < length classes.now.firsts.items → get_or lists.items k [] ≡ class_below classes.now.number.items k (length classes.now.number.items)) }
{
    let mut lists = empty_lists(alloc, classes.firsts.len())?;
    for v in 0..classes.number.len() {
        put(&mut lists, v as u32, classes.number[v])?;
    }
    Ok(lists)
}

/// The networks of a body: classes of linked elements that take part, in the order of their least places (by y, then
/// by x, then by localId), each in the order of the body. It looks at each connection once.
pub fn networks<L: Ledger>(
    alloc: Global,
    wires: &Wires,
    steps: &mut Steps<L>,
) -> Result<Vec<Items<u32>>, NoMemory>
    ensures networks { IfOk result (λ networks. AreNetworks (graph_of wires.now) networks.items) }
    ensures cost { steps.new ≤ steps.old + length (graph_of wires.now).wires }
{
    let classes = find_classes(alloc, wires, steps)?;
    Ok(gathered(alloc, &classes)?)
}

fn networks_with<L: Ledger>(
    alloc: Global,
    wires: &Wires,
    blank: Blank,
) -> Result<Vec<Items<u32>>, NoMemory>
    requires name { blank.name ≡ L.name }
    requires parts { blank.parts ≡ L.parts }
    requires some { 0 < blank.parts }
    ensures { IfOk result (λ networks. AreNetworks (graph_of wires.now) networks.items) }
{
    let mut steps = Steps::open(blank);
    networks::<L>(alloc, wires, &mut steps)
}

/// The same, for a caller that counts nothing.
pub fn networks_uncounted(alloc: Global, wires: &Wires) -> Result<Vec<Items<u32>>, NoMemory>
    ensures { IfOk result (λ networks. AreNetworks (graph_of wires.now) networks.items) }
{
    networks_with::<Brand>(alloc, wires, Blank::new(1))
}

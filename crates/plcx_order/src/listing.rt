//! The order of networks, by a heap of what is ready.
ghost use Rattle.std.specs.Prelude.{◌≡◌, ◌<◌, ◌≤◌, ◌+◌, ◌*◌, ℕ, Ok, true, false, [], length, slice_index, slice_set, IfOk, OnOk};
ghost use Rattle.std.specs.List.{All};
ghost use Rattle.plcx_types.specs.Lists.{Each};
ghost use Rattle.plcx_model.specs.Graph.{elements, from_at, to_at};
ghost use Rattle.plcx_model.specs.Shown.{graph_of};
ghost use Rattle.plcx_model.specs.Networks.{Listed, IsNetwork, AreNetworks};
ghost use Rattle.plcx_model.specs.Feedback.{AreMarks};
ghost use Rattle.plcx_model.specs.Orders.{IsOrder, AreOrders};
ghost use Rattle.plcx_order.specs.Walks.{IsLast, IsWholeTable, AreWholeLast};
ghost use Rattle.plcx_order.specs.Counts.{IsWholeCount, IsWaiting, IsUntouched, LeavesOthers, IsEntry, IsListing, IsBalanced, LeadsInto, HasHeard, one, entries_of, is_awaited, unlisted};

use crate::chains::{Table, chains};
use crate::rank::rank_of;
use crate::ready::{Entry, Ready};
use crate::waits::Waits;
use plcx_model::{Steps, Wires};
use plcx_types::NoMemory;
use sqlite_items::Items;
use std::alloc::Global;
use std::marker::Brand;
use std::sync::ledger::{Blank, Ledger};

/// Tells the element at a connection's end that its source is listed.
fn tell_one(
    ready: &mut Ready,
    waits: &mut Waits,
    wires: &Wires,
    network: &[u32],
    i: usize,
    v: u32,
) -> Result<(), NoMemory>
    requires counted { IsWholeCount (graph_of wires.now) waits.old.awaited.items waits.old.count.items }
    requires within { i < length (graph_of wires.now).wires }
    requires to { v ≡ to_at (graph_of wires.now).wires i }
    requires element { v < elements (graph_of wires.now) }
    requires inside { is_awaited waits.old.awaited.items i ≡ true → Listed network.now v }
    requires entries { All (IsEntry (graph_of wires.now) network.now) ready.old }
    ensures counted { OnOk result (IsWholeCount (graph_of wires.now) waits.new.awaited.items waits.new.count.items) }
    ensures heard { OnOk result (waits.new.awaited.items ≡ slice_set waits.old.awaited.items i false) }
    ensures balance { OnOk result (IsBalanced (graph_of wires.now) waits.old.count.items waits.new.count.items ready.old ready.new) }
    ensures entries { OnOk result (All (IsEntry (graph_of wires.now) network.now) ready.new) }
{
    match waits.hear(wires, i, v) {
        Some(element) => ready.push(Entry {
            rank: rank_of(wires.key(element)),
            element,
        })?,
        None => {}
    }
    Ok(())
}

/// Tells each element that an element has a connection to.
fn tell(
    ready: &mut Ready,
    waits: &mut Waits,
    wires: &Wires,
    network: &[u32],
    table: &Table,
    x: u32,
    last: usize,
) -> Result<(), NoMemory>
    requires table { IsWholeTable (graph_of wires.now) table.now.before.items table.now.to.items }
    requires last { IsLast (graph_of wires.now).wires (length (graph_of wires.now).wires) x last }
    requires counted { IsWholeCount (graph_of wires.now) waits.old.awaited.items waits.old.count.items }
    requires entries { All (IsEntry (graph_of wires.now) network.now) ready.old }
    requires inside { LeadsInto (graph_of wires.now) network.now waits.old.awaited.items x }
    ensures counted { OnOk result (IsWholeCount (graph_of wires.now) waits.new.awaited.items waits.new.count.items) }
    ensures heard { OnOk result (HasHeard (graph_of wires.now).wires waits.old.awaited.items waits.new.awaited.items x 0) }
    ensures balance { OnOk result (IsBalanced (graph_of wires.now) waits.old.count.items waits.new.count.items ready.old ready.new) }
    ensures entries { OnOk result (All (IsEntry (graph_of wires.now) network.now) ready.new) }
{
    let mut next = last;
    while next > 0 {
        let i = next - 1;
        tell_one(ready, waits, wires, network, i, table.to[i])?;
        next = table.before[i];
    }
    Ok(())
}

/// Puts an element of the network into the heap, if it waits for nothing.
fn offer(
    ready: &mut Ready,
    wires: &Wires,
    network: &[u32],
    v: u32,
    count: usize,
) -> Result<(), NoMemory>
    requires element { v < elements (graph_of wires.now) }
    requires inside { Listed network.now v }
    requires entries { All (IsEntry (graph_of wires.now) network.now) ready.old }
    ensures it { OnOk result (entries_of ready.new v ≡ entries_of ready.old v + one count 0) }
    ensures others { OnOk result ((w : ℕ) → (v ≡ w → ⊥) → entries_of ready.new w ≡ entries_of ready.old w) }
    ensures entries { OnOk result (All (IsEntry (graph_of wires.now) network.now) ready.new) }
{
    if count != 0 {
        return Ok(());
    }
    ready.push(Entry {
        rank: rank_of(wires.key(v)),
        element: v,
    })?;
    Ok(())
}

/// The elements of the network that wait for nothing.
fn first(alloc: Global, wires: &Wires, network: &[u32], waits: &Waits) -> Result<Ready, NoMemory>
    requires network { IsNetwork (graph_of wires.now) network.now }
    requires counts { length waits.now.count.items ≡ elements (graph_of wires.now) }
    ensures once { IfOk result (λ ready. (v : ℕ) → Listed network.now v → entries_of ready v ≡ one (slice_index waits.now.count.items v) 0) }
    ensures entries { IfOk result (λ ready. All (IsEntry (graph_of wires.now) network.now) ready) }
{
    let mut ready = Ready::new(alloc);
    for k in 0..network.len() {
        let v = network[k];
        offer(&mut ready, wires, network, v, waits.count(v as usize))?;
    }
    Ok(ready)
}

/// Lists the next element. Answers whether there was one.
fn list_next(
    ready: &mut Ready,
    waits: &mut Waits,
    order: &mut Vec<u32>,
    wires: &Wires,
    network: &[u32],
    marks: &[bool],
    table: &Table,
    last: &[usize],
) -> Result<bool, NoMemory>
    requires table { IsWholeTable (graph_of wires.now) table.now.before.items table.now.to.items }
    requires last { AreWholeLast (graph_of wires.now) last.now }
    requires network { IsNetwork (graph_of wires.now) network.now }
    requires listing { IsListing (graph_of wires.now) network.now marks.now waits.old.awaited.items waits.old.count.items ready.old order.old.items }
    ensures listing { OnOk result (IsListing (graph_of wires.now) network.now marks.now waits.new.awaited.items waits.new.count.items ready.new order.new.items) }
    ensures others { OnOk result (LeavesOthers (graph_of wires.now) network.now waits.old.awaited.items waits.new.awaited.items) }
    ensures more { result ≡ Ok true → unlisted (elements (graph_of wires.now)) order.new.items < unlisted (elements (graph_of wires.now)) order.old.items }
    ensures end { result ≡ Ok false → ready.new ≡ [] }
{
    let Some(entry) = ready.pop() else {
        return Ok(false);
    };
    let x = entry.element;
    tell(ready, waits, wires, network, table, x, last[x as usize])?;
    order.push(x)?;
    Ok(true)
}

/// The order of one network, over tables that are shared with other networks. It costs no more than the network's
/// own elements and connections, but for the heap.
fn list_network(
    alloc: Global,
    wires: &Wires,
    network: &[u32],
    marks: &[bool],
    waits: &mut Waits,
    last: &[usize],
    table: &Table,
) -> Result<Vec<u32>, NoMemory>
    requires table { IsWholeTable (graph_of wires.now) table.now.before.items table.now.to.items }
    requires last { AreWholeLast (graph_of wires.now) last.now }
    requires network { IsNetwork (graph_of wires.now) network.now }
    requires marks { AreMarks (graph_of wires.now) marks.now }
    requires waiting { IsWaiting (graph_of wires.now) marks.now waits.old.awaited.items waits.old.count.items }
    requires untouched { IsUntouched (graph_of wires.now) marks.now waits.old.awaited.items network.now }
    ensures order { IfOk result (λ order. IsOrder (graph_of wires.now) network.now order.items) }
    ensures waiting { OnOk result (IsWaiting (graph_of wires.now) marks.now waits.new.awaited.items waits.new.count.items) }
    ensures others { OnOk result (LeavesOthers (graph_of wires.now) network.now waits.old.awaited.items waits.new.awaited.items) }
{
    let mut ready = first(alloc, wires, network, waits)?;
    let mut order = Vec::new(alloc);
    loop {
        if !list_next(
            &mut ready, waits, &mut order, wires, network, marks, table, last,
        )? {
            return Ok(order);
        }
    }
}

/// The order of a network. It looks at each connection of the body twice.
pub fn order<L: Ledger>(
    alloc: Global,
    wires: &Wires,
    network: &[u32],
    marks: &[bool],
    steps: &mut Steps<L>,
) -> Result<Vec<u32>, NoMemory>
    requires network { IsNetwork (graph_of wires.now) network.now }
    requires marks { AreMarks (graph_of wires.now) marks.now }
    ensures order { IfOk result (λ order. IsOrder (graph_of wires.now) network.now order.items) }
    ensures cost { steps.new ≤ steps.old + 2 * length (graph_of wires.now).wires }
{
    let (last, table) = chains(alloc, wires, steps)?;
    let mut waits = Waits::new(alloc, wires, marks, steps)?;
    list_network(alloc, wires, network, marks, &mut waits, &last, &table)
}

/// The orders of all networks of the body. It looks at each connection twice in all.
pub fn orders<L: Ledger>(
    alloc: Global,
    wires: &Wires,
    networks: &[Items<u32>],
    marks: &[bool],
    steps: &mut Steps<L>,
) -> Result<Vec<Items<u32>>, NoMemory>
    requires networks { AreNetworks (graph_of wires.now) networks.now }
    requires marks { AreMarks (graph_of wires.now) marks.now }
    ensures orders { IfOk result (λ orders. AreOrders (graph_of wires.now) networks.now orders.items) }
    ensures cost { steps.new ≤ steps.old + 2 * length (graph_of wires.now).wires }
{
    let (last, table) = chains(alloc, wires, steps)?;
    let mut waits = Waits::new(alloc, wires, marks, steps)?;
    list_networks(alloc, wires, networks, marks, &mut waits, &last, &table)
}

/// The order of each network, one after the other.
fn list_networks(
    alloc: Global,
    wires: &Wires,
    networks: &[Items<u32>],
    marks: &[bool],
    waits: &mut Waits,
    last: &[usize],
    table: &Table,
) -> Result<Vec<Items<u32>>, NoMemory>
    requires table { IsWholeTable (graph_of wires.now) table.now.before.items table.now.to.items }
    requires last { AreWholeLast (graph_of wires.now) last.now }
    requires networks { AreNetworks (graph_of wires.now) networks.now }
    requires marks { AreMarks (graph_of wires.now) marks.now }
    requires waiting { IsWaiting (graph_of wires.now) marks.now waits.old.awaited.items waits.old.count.items }
    requires untouched { Each (IsUntouched (graph_of wires.now) marks.now waits.old.awaited.items) networks.now }
    ensures { IfOk result (λ orders. AreOrders (graph_of wires.now) networks.now orders.items) }
{
    let mut orders = Vec::new(alloc);
    for k in 0..networks.len() {
        let network = networks[k].as_slice();
        let order = list_network(alloc, wires, network, marks, waits, last, table)?;
        orders.push(Items::from_vec(order))?;
    }
    Ok(orders)
}

fn orders_with<L: Ledger>(
    alloc: Global,
    wires: &Wires,
    networks: &[Items<u32>],
    marks: &[bool],
    blank: Blank,
) -> Result<Vec<Items<u32>>, NoMemory>
    requires networks { AreNetworks (graph_of wires.now) networks.now }
    requires marks { AreMarks (graph_of wires.now) marks.now }
    requires name { blank.name ≡ L.name }
    requires parts { blank.parts ≡ L.parts }
    requires some { 0 < blank.parts }
    ensures { IfOk result (λ orders. AreOrders (graph_of wires.now) networks.now orders.items) }
{
    let mut steps = Steps::open(blank);
    orders::<L>(alloc, wires, networks, marks, &mut steps)
}

/// The same, for a caller that counts nothing.
pub fn orders_uncounted(
    alloc: Global,
    wires: &Wires,
    networks: &[Items<u32>],
    marks: &[bool],
) -> Result<Vec<Items<u32>>, NoMemory>
    requires networks { AreNetworks (graph_of wires.now) networks.now }
    requires marks { AreMarks (graph_of wires.now) marks.now }
    ensures { IfOk result (λ orders. AreOrders (graph_of wires.now) networks.now orders.items) }
{
    orders_with::<Brand>(alloc, wires, networks, marks, Blank::new(1))
}

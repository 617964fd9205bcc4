//! The links between elements that take part, as connections in both directions, and the neighbours of each element.
ghost use Rattle.std.specs.Prelude.{◌≡◌, ◌<◌, ◌≤◌, ◌+◌, ℕ, length, IfOk, OnOk};
ghost use Rattle.plcx_model.specs.Graph.{TakesPart, elements, from_at};
ghost use Rattle.plcx_model.specs.Paths.{IsWire};
ghost use Rattle.plcx_model.specs.Shown.{graph_of};
ghost use Rattle.plcx_order.specs.Walks.{IsTable, AreLast};
ghost use Rattle.plcx_order.specs.Classes.{AreSound, AreLinks};

use crate::chains::Table;
use plcx_model::{Steps, Wire, Wires};
use plcx_types::NoMemory;
use std::alloc::Global;
use std::sync::ledger::Ledger;

/// One connection more: both directions, if its ends take part.
fn add(links: &mut Vec<Wire>, wires: &Wires, wire: Wire) -> Result<(), NoMemory>
    requires from { wire.from.element < elements (graph_of wires.now) }
    requires to { wire.to.element < elements (graph_of wires.now) }
    requires wire { IsWire (graph_of wires.now).wires wire.from.element wire.to.element }
    requires sound { AreSound (graph_of wires.now) links.old.items }
    ensures sound { OnOk result (AreSound (graph_of wires.now) links.new.items) }
    ensures kept { OnOk result ((u v : ℕ) → IsWire links.old.items u v → IsWire links.new.items u v) }
    ensures forth { OnOk result (TakesPart (graph_of wires.now) wire.from.element → TakesPart (graph_of wires.now) wire.to.element → IsWire links.new.items wire.from.element wire.to.element) }
    ensures back { OnOk result (TakesPart (graph_of wires.now) wire.from.element → TakesPart (graph_of wires.now) wire.to.element → IsWire links.new.items wire.to.element wire.from.element) }
{
    if !wires.takes_part(wire.from.element) {
        return Ok(());
    }
    if !wires.takes_part(wire.to.element) {
        return Ok(());
    }
    links.push(wire)?;
    links.push(Wire {
        from: wire.to,
        to: wire.from,
    })?;
    Ok(())
}

/// All links. It looks at each connection once.
pub(crate) fn links<L: Ledger>(
    alloc: Global,
    wires: &Wires,
    steps: &mut Steps<L>,
) -> Result<Vec<Wire>, NoMemory>
    ensures links { IfOk result (λ links. AreLinks (graph_of wires.now) (length (graph_of wires.now).wires) links.items) }
    ensures cost { steps.new ≤ steps.old + length (graph_of wires.now).wires }
{
    let mut links = Vec::new(alloc);
    for i in 0..wires.connections() as usize {
        let wire = wires.look(i as u64, steps);
        add(&mut links, wires, wire)?;
    }
    Ok(links)
}

/// One more than the last link out of each element, or 0, and where each link leads, with the one before it.
pub(crate) fn neighbours(
    alloc: Global,
    count: usize,
    links: &[Wire],
) -> Result<(Vec<usize>, Table), NoMemory>
    requires within { (i : ℕ) → i < length links.now → from_at links.now i < count }
    ensures last { IfOk result (λ r. AreLast count links.now (length links.now) r.0.items) }
    ensures table { IfOk result (λ r. IsTable links.now (length links.now) r.1.before.items r.1.to.items) }
{
    let mut last = vec![in alloc; 0usize; count]?;
    let mut before = Vec::new(alloc);
    let mut to = Vec::new(alloc);
    for i in 0..links.len() {
        let link = links[i];
        before.push(last[link.from.element as usize])?;
        to.push(link.to.element)?;
        last[link.from.element as usize] = i + 1;
    }
    Ok((last, Table { before, to }))
}

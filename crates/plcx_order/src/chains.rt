//! The connections out of each element, as chains.
ghost use Rattle.std.specs.Prelude.{◌≡◌, ◌<◌, ◌≤◌, ◌+◌, length, IfOk};
ghost use Rattle.plcx_model.specs.Shown.{graph_of};
ghost use Rattle.plcx_order.specs.Walks.{IsWholeTable, AreWholeLast};

use plcx_model::{Steps, Wires};
use plcx_types::NoMemory;
use std::alloc::Global;
use std::sync::ledger::Ledger;

/// Where each connection leads, and one more than the number of the connection before it out of the same
/// element, or 0.
#[derive(Drop)]
pub(crate) struct Table {
    pub before: Vec<usize>,
    pub to: Vec<u32>,
}

/// One more than the last connection out of each element, or 0, and the table. It looks at each connection once.
pub(crate) fn chains<L: Ledger>(
    alloc: Global,
    wires: &Wires,
    steps: &mut Steps<L>,
) -> Result<(Vec<usize>, Table), NoMemory>
    ensures last { IfOk result (λ r. AreWholeLast (graph_of wires.now) r.0.items) }
    ensures table { IfOk result (λ r. IsWholeTable (graph_of wires.now) r.1.before.items r.1.to.items) }
    ensures cost { steps.new ≤ steps.old + length (graph_of wires.now).wires }
{
    let mut last = vec![in alloc; 0usize; wires.elements() as usize]?;
    let mut before = Vec::new(alloc);
    let mut to = Vec::new(alloc);
    for i in 0..wires.connections() as usize {
        let wire = wires.look(i as u64, steps);
        before.push(last[wire.from.element as usize])?;
        to.push(wire.to.element)?;
        last[wire.from.element as usize] = i + 1;
    }
    Ok((last, Table { before, to }))
}

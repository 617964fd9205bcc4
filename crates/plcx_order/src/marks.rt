//! Which connections are feedback.
ghost use Rattle.std.specs.Prelude.{◌≡◌, ◌↔◌, true, ◌<◌, ◌≤◌, ◌+◌, ◌*◌, ℕ, length, get_or, IfOk};
ghost use Rattle.plcx_order.specs.declared.walk.Place.TheVariants.{Unseen, Done};
ghost use Rattle.plcx_model.specs.Graph.{elements};
ghost use Rattle.plcx_model.specs.Shown.{graph_of};
ghost use Rattle.plcx_model.specs.Paths.{IsWire};
ghost use Rattle.plcx_model.specs.Feedback.{IsFeedback, AreMarks};
ghost use Rattle.plcx_order.specs.Walks.{AreComponents};

use crate::chains::chains;
use crate::rank::is_at_most;
use crate::walk::{Place, components};
use plcx_model::{Steps, Wires};
use plcx_types::NoMemory;
use std::alloc::Global;
use std::marker::Brand;
use std::sync::ledger::{Blank, Ledger};

/// The component of an element that is done.
fn component(places: &[Place], v: usize) -> usize
    requires { v < length places.now }
    ensures { (c : ℕ) → get_or places.now v Unseen ≡ Done c → result ≡ c }
{
    match places[v] {
        Place::Done(c) => c,
        _ => 0,
    }
}

/// Whether a connection from one element to another is feedback.
fn is_feedback(wires: &Wires, places: &[Place], from: u32, to: u32) -> bool
    requires places { AreComponents (graph_of wires.now) places.now }
    requires wire { IsWire (graph_of wires.now).wires from to }
    requires from { from < elements (graph_of wires.now) }
    requires to { to < elements (graph_of wires.now) }
    ensures { (result ≡ true) ↔ IsFeedback (graph_of wires.now) from to }
{
    component(places, from as usize) == component(places, to as usize)
        && is_at_most(wires.key(to), wires.key(from))
}

fn marks<L: Ledger>(
    alloc: Global,
    wires: &Wires,
    places: &[Place],
    steps: &mut Steps<L>,
) -> Result<Vec<bool>, NoMemory>
    requires { AreComponents (graph_of wires.now) places.now }
    ensures marks { IfOk result (λ marks. AreMarks (graph_of wires.now) marks.items) }
    ensures cost { steps.new ≤ steps.old + length (graph_of wires.now).wires }
{
    let mut marks = Vec::new(alloc);
    for i in 0..wires.connections() as usize {
        let wire = wires.look(i as u64, steps);
        marks.push(is_feedback(wires, places, wire.from.element, wire.to.element))?;
    }
    Ok(marks)
}

/// Marks each connection that is feedback: its element is reached from where it leads, whose key isn't greater.
pub fn feedback<L: Ledger>(
    alloc: Global,
    wires: &Wires,
    steps: &mut Steps<L>,
) -> Result<Vec<bool>, NoMemory>
    ensures marks { IfOk result (λ marks. AreMarks (graph_of wires.now) marks.items) }
    ensures cost { steps.new ≤ steps.old + 2 * length (graph_of wires.now).wires }
{
    let (last, table) = chains(alloc, wires, steps)?;
    let places = components(alloc, wires, last, &table)?;
    marks(alloc, wires, &places, steps)
}

fn feedback_with<L: Ledger>(
    alloc: Global,
    wires: &Wires,
    blank: Blank,
) -> Result<Vec<bool>, NoMemory>
    requires name { blank.name ≡ L.name }
    requires parts { blank.parts ≡ L.parts }
    requires some { 0 < blank.parts }
    ensures marks { IfOk result (λ marks. AreMarks (graph_of wires.now) marks.items) }
{
    let mut steps = Steps::open(blank);
    feedback::<L>(alloc, wires, &mut steps)
}

/// The same, for a caller that counts nothing.
pub fn feedback_uncounted(alloc: Global, wires: &Wires) -> Result<Vec<bool>, NoMemory>
    ensures marks { IfOk result (λ marks. AreMarks (graph_of wires.now) marks.items) }
{
    feedback_with::<Brand>(alloc, wires, Blank::new(1))
}

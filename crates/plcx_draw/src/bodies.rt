//! The drawing of a POU, by what was found out about the bodies of its project.
ghost use Rattle.std.specs.Prelude.{◌≡◌, ◌<◌, [], Some, get_or, length, slice_get, IfOk};
ghost use Rattle.plcx_drawn.specs.Pous.{shown_pou};
ghost use Rattle.plcx_view.specs.Diagrams.{no_plan, diagrams_of};

use crate::elements::elements_of;
use crate::pins::Pins;
use plcx_drawn::Drawing;
use plcx_model::{Links, Plan, Source, Types};
use plcx_names::Scope;
use plcx_types::{NoMemory, Ty};
use sqlite_items::Items;
use std::alloc::Global;

/// The sources of the input pins of a body.
fn sources_at(links: &Links, place: usize) -> &[Items<Source>]
    ensures { result.now ≡ get_or links.now.bodies place [] }
{
    match links.bodies().get(place) {
        None => &[],
        Some(sources) => sources.as_slice(),
    }
}

/// The types of the input pins of a body.
fn types_at(types: &Types, place: usize) -> &[Ty]
    ensures { result.now ≡ get_or types.now.inputs place [] }
{
    match types.inputs().get(place) {
        None => &[],
        Some(types) => types.as_slice(),
    }
}

/// The marks of the connections of a body.
fn marks_at(plan: &Plan, place: usize) -> &[bool]
    ensures { result.now ≡ (get_or plan.now.bodies place no_plan).marks }
{
    match plan.bodies().get(place) {
        None => &[],
        Some(plan) => plan.marks(),
    }
}

/// The networks of a body.
fn networks_at(plan: &Plan, place: usize) -> &[Items<u32>]
    ensures { result.now ≡ (get_or plan.now.bodies place no_plan).networks }
{
    match plan.bodies().get(place) {
        None => &[],
        Some(plan) => plan.networks(),
    }
}

/// The drawing of the POU at a place, with what was found out about the bodies of its project.
pub fn drawing<'a>(
    alloc: Global,
    scope: &Scope<'a>,
    links: &'a Links,
    types: &'a Types,
    plan: &'a Plan,
    place: usize,
) -> Result<Drawing<'a>, NoMemory>
    requires { place < length scope.now }
    ensures { IfOk result (λ drawing. slice_get (diagrams_of (record { pous = scope.now }) links.entry.now types.entry.now plan.entry.now) place ≡ Some (shown_pou scope.now drawing)) }
{
    let owner = &scope.owners()[place];
    let pins = Pins {
        types: types_at(types, place),
        sources: sources_at(links, place),
        marks: marks_at(plan, place),
    };
    let elements = elements_of(alloc, scope, owner, pins)?;
    Ok(Drawing {
        pou: owner.pou(),
        elements: Items::from_vec(elements),
        networks: networks_at(plan, place),
    })
}

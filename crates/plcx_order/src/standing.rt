//! The elements of a body in the order of their places on the sheet.
ghost use Rattle.std.specs.Prelude.{◌≡◌, IfOk, IsPermutation, IsSorted};
ghost use Rattle.plcx_model.specs.Graph.{elements};
ghost use Rattle.plcx_model.specs.Shown.{graph_of};
ghost use Rattle.plcx_order.specs.Classes.{AreStandings, standing_cmp};

use crate::rank::{Place, place_of};
use plcx_model::Wires;
use plcx_types::NoMemory;
use std::alloc::Global;

/// An element with its place.
#[derive(Clone, Copy, Debug, PartialEq, Eq, PartialOrd, Ord)]
pub(crate) struct Standing {
    pub place: Place,
    pub element: u32,
}

/// All elements with their places.
fn standings(alloc: Global, wires: &Wires) -> Result<Vec<Standing>, NoMemory>
    ensures { IfOk result (λ all. AreStandings (graph_of wires.now) (elements (graph_of wires.now)) all.items) }
{
    let mut all = Vec::new(alloc);
    for v in 0..wires.elements() {
        all.push(Standing {
            place: place_of(wires.key(v)),
            element: v,
        })?;
    }
    Ok(all)
}

fn sorted(standings: Vec<Standing>) -> Vec<Standing>
    ensures same { IsPermutation standings.items result.items }
    ensures sorted { IsSorted standing_cmp result.items }
{
    let mut standings = standings;
    standings.sort_unstable();
    standings
}

/// All elements with their places, by place.
pub(crate) fn by_place(alloc: Global, wires: &Wires) -> Result<Vec<Standing>, NoMemory>
    ensures all { IfOk result (λ all. AreStandings (graph_of wires.now) (elements (graph_of wires.now)) all.items) }
    ensures sorted { IfOk result (λ all. IsSorted standing_cmp all.items) }
{
    Ok(sorted(standings(alloc, wires)?))
}

//! The networks of a body, one after another.
ghost use Rattle.std.specs.Prelude.{IfOk};
ghost use Rattle.plcx_types.specs.Lists.{Each};
ghost use Rattle.plcx_meaning.specs.Diagram.{Pou, Project};
ghost use Rattle.plcx_drawn.specs.Shown.{shown_network, shown_networks};
ghost use Rattle.plcx_prepare.specs.Literals.{ElementHasLiterals};
ghost use Rattle.plcx_program.specs.Bodies.{IsDrawn, AddsNetwork, HasNetworks};

use plcx_bodies::{Shared, network};
use plcx_drawn::Drawing;
use plcx_steps::Network;
use plcx_tables::Tables;
use plcx_targets::Targets;
use plcx_types::NoMemory;
use std::alloc::Global;

/// The networks of a body so far, and what is shared behind them.
#[derive(Drop)]
pub(crate) struct Networks {
    pub(crate) items: Vec<Network>,
    pub(crate) shared: Shared,
}

/// The network of the elements at these places more.
fn with_network(
    alloc: Global,
    tables: &Tables,
    targets: &Targets,
    place: usize,
    drawing: &Drawing,
    before: Networks,
    places: &[u32],
) -> Result<Networks, NoMemory>
    requires literals { Each ElementHasLiterals (shown_network drawing.now places.now) }
    requires targets { targets.now ≡ shown_networks drawing.now }
    ensures { IfOk result (λ after. (project : Project) (p : Pou) → IsDrawn project tables.now.tables.now place drawing.now p
        → AddsNetwork project p (shown_network drawing.now places.now) before after) }
{
    let Networks { mut items, shared } = before;
    let numbers = tables.network(alloc, place, drawing, places)?;
    let made = network(&numbers, alloc, shared, targets, drawing, places)?;
    items.push(made.network)?;
    Ok(Networks {
        items,
        shared: made.shared,
    })
}

ghost use Rattle.std.specs.Prelude.{◌≡◌};

/// All networks of a drawing.
pub(crate) fn networks_of(
    alloc: Global,
    tables: &Tables,
    place: usize,
    drawing: &Drawing,
    shared: Shared,
) -> Result<Networks, NoMemory>
    requires { Each (Each ElementHasLiterals) (shown_networks drawing.now) }
    ensures { IfOk result (λ all. (project : Project) (p : Pou) → IsDrawn project tables.now.tables.now place drawing.now p → HasNetworks project p (shown_networks drawing.now) shared all) }
{
    let targets = Targets::of(alloc, drawing)?;
    let mut all = Networks {
        items: Vec::new(alloc),
        shared,
    };
    for network in drawing.networks {
        all = with_network(
            alloc,
            tables,
            &targets,
            place,
            drawing,
            all,
            network.as_slice(),
        )?;
    }
    Ok(all)
}

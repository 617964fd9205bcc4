//! Networks, and the lists that all networks of a program share.
ghost use Rattle.std.specs.Prelude.{◌≡◌, ◌≤◌, IfOk, length};
ghost use Rattle.plcx_types.specs.Lists.{Each};
ghost use Rattle.plcx_drawn.specs.Shown.{shown_network};
ghost use Rattle.plcx_prepare.specs.Literals.{ElementHasLiterals};
ghost use Rattle.plcx_bodies.specs.Made.{IsMade};
ghost use Rattle.plcx_bodies.specs.Framed.{IsWithin};

use crate::counting::greater;
use crate::parts::{Parts, parts_of};
use crate::wires::with_spares;
use plcx_drawn::Drawing;
use plcx_prepare::{Numbers, Prepared, with_network};
use plcx_steps::{Argument, Network, Operand};
use plcx_targets::Targets;
use plcx_types::NoMemory;
use std::alloc::Global;

/// What in-outs are bound to, and the inputs of functions, of all networks so far.
#[derive(Debug, Drop)]
pub struct Shared {
    pub bindings: Vec<Operand>,
    pub arguments: Vec<Argument>,
}

/// A network, and what is shared behind it.
#[derive(Debug, Drop)]
pub struct Made {
    pub network: Network,
    pub shared: Shared,
}

/// The network of the elements at these places, whose body has these targets.
pub fn network<N: Numbers>(
    numbers: &N,
    alloc: Global,
    shared: Shared,
    targets: &Targets,
    drawing: &Drawing,
    places: &[u32],
) -> Result<Made, NoMemory>
    requires { Each ElementHasLiterals (shown_network drawing.now places.now) }
    ensures { IfOk result (λ made. IsMade (N.numbering numbers.now) targets.now (shown_network drawing.now places.now) shared made) }
{
    let Parts {
        wires,
        spare,
        jumps,
    } = parts_of(numbers, alloc, targets, drawing.elements(), places)?;
    let wires = with_spares(wires, spare)?;
    let Shared {
        bindings,
        arguments,
    } = shared;
    let before = Prepared {
        steps: Vec::new(alloc),
        arguments,
        bindings,
    };
    let Prepared {
        steps,
        arguments,
        bindings,
    } = with_network(numbers, alloc, before, drawing, places)?;
    Ok(Made {
        network: Network {
            wires,
            steps,
            jumps,
        },
        shared: Shared {
            bindings,
            arguments,
        },
    })
}

/// Wires enough for each of these networks.
pub fn width(networks: &[Network]) -> usize
    ensures { Each (IsWithin result) networks.now }
{
    let mut most = 0;
    for network in networks {
        most = greater(most, network.wires.len());
    }
    most
}

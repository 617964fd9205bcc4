//! What the elements of a network have: outputs, spare wires and jumps.
ghost use Rattle.std.specs.Prelude.{◌≡◌, ◌++◌, ◌∷◌, [], IfOk, map};
ghost use Rattle.plcx_drawn.specs.Shown.{shown_element};
ghost use Rattle.plcx_numbered.specs.Right.{lead};
ghost use Rattle.plcx_numbered.specs.Programs.{jump_of};
ghost use Rattle.plcx_targets.specs.Labels.{network_of};
ghost use Rattle.plcx_bodies.specs.Parts.{AddsParts, ArePartsOf};

use crate::counting::greater;
use crate::wires::{spares, with_outputs};
use plcx_drawn::Element;
use plcx_prepare::Numbers;
use plcx_steps::Jump;
use plcx_targets::{Targets, element_at};
use plcx_types::{NoMemory, Val};
use std::alloc::Global;

/// The outputs of elements at their defaults, the most spare wires that one of them takes, and the jumps among them.
#[derive(Debug, Drop)]
pub(crate) struct Parts {
    pub(crate) wires: Vec<Val>,
    pub(crate) spare: usize,
    pub(crate) jumps: Vec<Jump>,
}

fn with_jump<N: Numbers>(
    numbers: &N,
    jumps: Vec<Jump>,
    id: u64,
    target: Option<usize>,
) -> Result<Vec<Jump>, NoMemory>
    ensures { IfOk result (λ more. more.items ≡ jumps.items ++ map (jump_of (N.numbering numbers.now)) (lead id target [])) }
{
    let mut all = jumps;
    if let Some(target) = target {
        let wire = numbers.wire(id, b"");
        all.push(Jump { wire, target })?;
    }
    Ok(all)
}

fn with_element<N: Numbers>(
    numbers: &N,
    alloc: Global,
    targets: &Targets,
    before: Parts,
    element: &Element,
) -> Result<Parts, NoMemory>
    ensures { IfOk result (λ after. AddsParts (N.numbering numbers.now) targets.now (shown_element element.now ∷ []) before after) }
{
    let Parts {
        wires,
        spare,
        jumps,
    } = before;
    let wires = with_outputs(alloc, wires, &element.kind)?;
    let spare = greater(spare, spares(&element.kind)?);
    let target = targets.leads_to(alloc, &element.kind)?;
    let jumps = with_jump(numbers, jumps, element.id, target)?;
    Ok(Parts {
        wires,
        spare,
        jumps,
    })
}

/// The element at a place more, where there is one.
fn with_place<N: Numbers>(
    numbers: &N,
    alloc: Global,
    targets: &Targets,
    before: Parts,
    elements: &[Element],
    place: u32,
) -> Result<Parts, NoMemory>
    ensures { IfOk result (λ after. AddsParts (N.numbering numbers.now) targets.now (network_of elements.now (place ∷ [])) before after) }
{
    match element_at(elements, place) {
        None => Ok(before),
        Some(element) => Ok(with_element(numbers, alloc, targets, before, element)?),
    }
}

/// What the elements at these places have.
pub(crate) fn parts_of<N: Numbers>(
    numbers: &N,
    alloc: Global,
    targets: &Targets,
    elements: &[Element],
    places: &[u32],
) -> Result<Parts, NoMemory>
    ensures { IfOk result (λ all. ArePartsOf (N.numbering numbers.now) targets.now (network_of elements.now places.now) all) }
{
    let mut all = Parts {
        wires: Vec::new(alloc),
        spare: 0,
        jumps: Vec::new(alloc),
    };
    for place in places {
        all = with_place(numbers, alloc, targets, all, elements, *place)?;
    }
    Ok(all)
}

//! What the elements of a program remember, instance by instance.
ghost use Rattle.std.specs.Prelude.{◌≡◌, ◌++◌, IfOk};
ghost use Rattle.std.specs.List.{flat_map};
ghost use Rattle.plcx_drawn.specs.Shown.{shown_element};
ghost use Rattle.plcx_layout.specs.Memories.{element_memories, elements_at, all_elements, list_memories, program_memories};
ghost use Rattle.plcx_layout.specs.Memories as specs;

use crate::leaves::{lists_at, marks_of};
use plcx_drawn::{Drawing, Element, has_edge};
use plcx_model::{Pou, VarList, VarTy};
use plcx_state::Memory;
use plcx_types::{NoMemory, Ty};
use std::alloc::Global;

/// What an element remembers more.
fn with_element(
    memories: Vec<Memory>,
    retained: bool,
    element: &Element,
) -> Result<Vec<Memory>, NoMemory>
    ensures { IfOk result (λ more. more.items ≡ memories.items ++ element_memories retained (shown_element element.now)) }
{
    let mut more = memories;
    if has_edge(&element.kind) {
        more.push(Memory {
            ty: Ty::Bool,
            retained,
        })?;
    }
    for port in element.fed.as_slice() {
        more.push(Memory {
            ty: port.ty,
            retained,
        })?;
    }
    Ok(more)
}

/// What the elements of the POU at a place remember more.
fn with_elements(
    memories: Vec<Memory>,
    retained: bool,
    drawings: &[Drawing],
    place: u32,
) -> Result<Vec<Memory>, NoMemory>
    ensures { IfOk result (λ more. more.items ≡ memories.items ++ flat_map (element_memories retained) (elements_at (all_elements drawings.now) place)) }
{
    let mut more = memories;
    let Some(drawing) = drawings.get(place as usize) else {
        return Ok(more);
    };
    let elements = drawing.elements();
    for element in elements {
        more = with_element(more, retained, element)?;
    }
    Ok(more)
}

/// What the variables of a list remember more.
#[cycle(memories)]
fn with_list(
    memories: Vec<Memory>,
    pous: &[Pou],
    drawings: &[Drawing],
    levels: u32,
    retained: bool,
    list: &VarList,
) -> Result<Vec<Memory>, NoMemory>
    ensures { IfOk result (λ more. more.items ≡ memories.items ++ list_memories (specs.memories levels pous.now (all_elements drawings.now)) retained list.now) }
{
    let mut more = memories;
    let retained = marks_of(list, retained).retained;
    let variables = list.variables();
    for variable in variables {
        if let VarTy::Block(place) = variable.ty {
            more = with_pou(more, pous, drawings, levels, retained, place)?;
        }
    }
    Ok(more)
}

/// What the POU at a place remembers more, so many levels deep.
#[cycle(memories)]
fn with_pou(
    memories: Vec<Memory>,
    pous: &[Pou],
    drawings: &[Drawing],
    levels: u32,
    retained: bool,
    place: u32,
) -> Result<Vec<Memory>, NoMemory>
    ensures { IfOk result (λ more. more.items ≡ memories.items ++ specs.memories levels pous.now (all_elements drawings.now) retained place) }
{
    if levels == 0 {
        return Ok(memories);
    }
    let mut more = with_elements(memories, retained, drawings, place)?;
    let lists = lists_at(pous, place);
    for list in lists {
        more = with_list(more, pous, drawings, levels - 1, retained, list)?;
    }
    Ok(more)
}

/// What the program at a place remembers, by the drawings of all POUs.
#[tactic(auto, unfolding(crate::specs::Memories::program_memories))]
pub fn program_memories(
    alloc: Global,
    pous: &[Pou],
    drawings: &[Drawing],
    place: u32,
) -> Result<Vec<Memory>, NoMemory>
    ensures { IfOk result (λ memories. memories.items ≡ program_memories pous.now (all_elements drawings.now) place) }
{
    Ok(with_pou(Vec::new(alloc), pous, drawings, 18, false, place)?)
}

//! The program of a name, and its layout.
ghost use Rattle.std.specs.Prelude.{◌≡◌, ◌<◌, ◌↔◌, Some, None, length, map, slice_get, IfOk, MatchOption, IsErrOf};
ghost use Rattle.std.specs.List.{position};
ghost use Rattle.plcx_meaning.specs.Diagram.{program_named};
ghost use Rattle.plcx_meaning.specs.Diagram.{Pou as Meant};
ghost use Rattle.plcx_drawn.specs.Pous.{shown_pou};
ghost use Rattle.plcx_scan.specs.declared.open.OpenError.TheVariants.{NoProgram};
ghost use Rattle.plcx_stored.specs.LaidFor.{IsLaidFor};
ghost use Rattle.plcx_view.specs.Diagrams.{diagrams_of};
ghost use Rattle.plcx_opening.specs.Named.{is_program_named};
ghost use Rattle.plcx_opening.specs.Opening.{IsProgramAt, IsLaidAs};

use crate::drawn::drawings;
use crate::laws::memories_are_laid;
use plcx_check::Checked;
use plcx_drawn::Drawing;
use plcx_layout::{leaves_are_laid, leaves_stand, program_leaves, program_memories};
use plcx_model::{Pou, PouKind};
use plcx_scan::OpenError;
use plcx_state::Layout;
use plcx_stored::one_agreement;
use plcx_types::{Ident, NoMemory};
use std::alloc::Global;

fn is_program_named(pou: &Pou, name: &Ident) -> bool
    ensures { result ≡ is_program_named name.now pou.now }
{
    match pou.kind {
        PouKind::Program => pou.name.same(name),
        PouKind::FunctionBlock => false,
    }
}

fn place_among(pous: &[Pou], name: &Ident) -> Option<usize>
    ensures { result ≡ position (is_program_named name.now) pous.now }
{
    pous.iter().position(|pou| is_program_named(pou, name))
}

/// The place of the program of a name among the POUs of the project, whatever the case of its letters.
pub fn program_place(checked: &Checked, name: &Ident) -> Option<u32>
    ensures { MatchOption result
        (program_named name.now (diagrams_of checked.now.project checked.now.links checked.now.types checked.now.plan) ≡ None)
        (IsProgramAt (diagrams_of checked.now.project checked.now.links checked.now.types checked.now.plan) name.now) }
{
    match place_among(checked.project().pous(), name) {
        None => None,
        Some(place) => {
            let number = place as u32;
            Some(number)
        }
    }
}

/// The layout of the POU at a place as a program, by the drawings of all POUs. More memories than 32 bits count would
/// not have fitted.
pub fn layout_at(
    alloc: Global,
    checked: &Checked,
    drawings: &[Drawing],
    place: u32,
) -> Result<Layout, NoMemory>
    requires drawings { map (shown_pou checked.now.project.pous) drawings.now ≡ diagrams_of checked.now.project checked.now.links checked.now.types checked.now.plan }
    requires place { place < length (diagrams_of checked.now.project checked.now.links checked.now.types checked.now.plan) }
    ensures { IfOk result (λ l. (p : Meant) → slice_get (diagrams_of checked.now.project checked.now.links checked.now.types checked.now.plan) place ≡ Some p
        → IsLaidFor (diagrams_of checked.now.project checked.now.links checked.now.types checked.now.plan) p l) }
{
    leaves_are_laid();
    leaves_stand();
    memories_are_laid();
    one_agreement();
    let pous = checked.project().pous();
    let leaves = program_leaves(alloc, pous, &pous[place as usize])?;
    let memories = program_memories(alloc, pous, drawings, place)?;
    if memories.len() >= 4_294_967_296 {
        return Err(NoMemory);
    }
    Ok(Layout::new(leaves, memories))
}

/// The layout of the program of a name.
pub fn diagram_layout(
    alloc: Global,
    checked: &Checked,
    program: &Ident,
) -> Result<Layout, OpenError>
    ensures laid { IfOk result (IsLaidAs (diagrams_of checked.now.project checked.now.links checked.now.types checked.now.plan) program.now) }
    ensures no_program { IsErrOf result NoProgram
        ↔ (program_named program.now (diagrams_of checked.now.project checked.now.links checked.now.types checked.now.plan) ≡ None) }
{
    let Some(place) = program_place(checked, program) else {
        return Err(OpenError::NoProgram);
    };
    let drawings = drawings(alloc, checked)?;
    let layout = layout_at(alloc, checked, &drawings, place)?;
    Ok(layout)
}

//! The prepared program of a project.
ghost use Rattle.std.specs.Prelude.{IfOk, map};
ghost use Rattle.plcx_types.specs.Lists.{Each};
ghost use Rattle.plcx_meaning.specs.Diagram as diagram;
ghost use Rattle.plcx_meaning.specs.Fits.{ProjectFits};
ghost use Rattle.plcx_drawn.specs.Pous.{shown_pou};
ghost use Rattle.plcx_prepare.specs.Literals.{ElementHasLiterals};
ghost use Rattle.plcx_numbered.specs.Programs.{IsProgramOf};

use crate::bodies::bodies_of;
use plcx_bodies::with_frames;
use plcx_drawn::Drawing;
use plcx_model::Pou;
use plcx_steps::Program;
use plcx_tables::{Tables, owns, tables};
use plcx_types::NoMemory;
use std::alloc::Global;

/// The program of the POUs that these drawings are.
pub fn prepared(alloc: Global, pous: &[Pou], drawings: &[Drawing]) -> Result<Program, NoMemory>
    requires literals { Each (λ (p : diagram.Pou). Each (Each ElementHasLiterals) p.networks) (map (shown_pou pous.now) drawings.now) }
    requires fits { ∥ ProjectFits (map (shown_pou pous.now) drawings.now) ∥₁ }
    ensures { IfOk result (IsProgramOf (map (shown_pou pous.now) drawings.now)) }
{
    let owns = owns(alloc, pous, drawings)?;
    let list = tables(alloc, &owns)?;
    let tables = Tables::of(&list)?;
    let all = bodies_of(alloc, &tables, drawings)?;
    let bodies = with_frames(alloc, all.items)?;
    Ok(Program {
        bodies,
        bindings: all.shared.bindings,
        arguments: all.shared.arguments,
    })
}

//! The two sides of a program, each with initial values.
ghost use Rattle.std.specs.Prelude.{◌≡◌, Some, IfOk};
ghost use Rattle.plcx_meaning.specs.Diagram as diagram;
ghost use Rattle.plcx_meaning.specs.Diagram.{Pou};
ghost use Rattle.plcx_meaning.specs.Execute as text;
ghost use Rattle.plcx_meaning.specs.Tree.{PouText};
ghost use Rattle.plcx_st.specs.Meant.{meant};
ghost use Rattle.plcx_text_layout.specs.Opening.{IsLaidAs};
ghost use Rattle.plcx_simulate.specs.Programs.{diagrams_in};
ghost use Rattle.plcx_bench.specs.Sides.{IsDrawn, IsWritten};

use plcx_check::Checked;
use plcx_eval::DiagramSide;
use plcx_run::{TextSide, text_layout};
use plcx_scan::OpenError;
use plcx_simulate::layout_of;
use plcx_state::{Layout, initial};
use plcx_types::{Ident, NoMemory};
use plcx_unit::Ready;
use std::alloc::Global;

/// The side of a program of the diagrams.
pub(crate) fn diagram_side<'a>(
    alloc: Global,
    checked: &'a Checked,
    program: &Ident,
) -> Result<DiagramSide<'a>, NoMemory>
    requires { (p : Pou) × (diagram.program_named program.now (diagrams_in checked.now) ≡ Some p) }
    ensures { IfOk result (IsDrawn (diagrams_in checked.entry.now) program.now) }
{
    let layout = layout_of(alloc, checked, program)?;
    let kept = initial(alloc, &layout)?;
    match DiagramSide::open(alloc, checked, program, &kept) {
        Ok(side) => Ok(side),
        Err(OpenError::NoProgram) => unreachable!(),
        Err(OpenError::NoMemory) => Err(NoMemory),
    }
}

/// The layout of a program of a text.
fn text_layout_of(alloc: Global, ready: &Ready, program: &Ident) -> Result<Layout, NoMemory>
    requires { (p : PouText) × (text.program_named program.now (meant ready.now) ≡ Some p) }
    ensures { IfOk result (λ l. IsLaidAs (meant ready.now) program.now l) }
{
    match text_layout(alloc, ready, program) {
        Ok(layout) => Ok(layout),
        Err(OpenError::NoProgram) => unreachable!(),
        Err(OpenError::NoMemory) => Err(NoMemory),
    }
}

/// The side of a program of a text.
pub(crate) fn text_side<'a>(
    alloc: Global,
    ready: &'a Ready,
    program: &Ident,
) -> Result<TextSide<'a>, NoMemory>
    requires { (p : PouText) × (text.program_named program.now (meant ready.now) ≡ Some p) }
    ensures { IfOk result (IsWritten (meant ready.entry.now) program.now) }
{
    let layout = text_layout_of(alloc, ready, program)?;
    let kept = initial(alloc, &layout)?;
    match TextSide::open(alloc, ready, program, &kept) {
        Ok(side) => Ok(side),
        Err(OpenError::NoProgram) => unreachable!(),
        Err(OpenError::NoMemory) => Err(NoMemory),
    }
}

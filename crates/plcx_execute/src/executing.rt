//! The trace of a program of a unit.
ghost use Rattle.std.specs.Prelude.{◌≡◌, ◌≤◌, ℕ, List, Some, IfOk, IfErr};
ghost use Rattle.plcx_io.specs.Counts.{Rose};
ghost use Rattle.plcx_meaning.specs.Execute.{program_named};
ghost use Rattle.plcx_meaning.specs.Tree.{PouText as Meant};
ghost use Rattle.plcx_st.specs.Meant.{meant};
ghost use Rattle.plcx_state.specs.Layouts.{IsLaid};
ghost use Rattle.plcx_words.specs.Says.{said_by_run};
ghost use Rattle.plcx_text_layout.specs.Opening.{IsLaidAs, IsKeptFor};
ghost use Rattle.plcx_run.specs.Sides.{IsOpened};
ghost use Rattle.plcx_traced.specs.Runs.{IsTraced, WhyNot};
ghost use Rattle.plcx_execute.specs.Choosing.{NamesProgram};
ghost use Rattle.plcx_execute.specs.Programs.{programs_of};

use crate::choosing::{chosen, count};
use plcx_io::Desk;
use plcx_run::{TextSide, text_layout};
use plcx_scan::OpenError;
use plcx_state::{Layout, Retained};
use plcx_traced::{RunError, begun, traced};
use plcx_types::{Ident, NoMemory};
use plcx_unit::Ready;
use plcx_words::Run;
use std::alloc::Global;

/// The layout of a program that there is.
fn layout_of(alloc: Global, ready: &Ready, program: &Ident) -> Result<Layout, NoMemory>
    requires { (p : Meant) × (program_named program.now (meant ready.now) ≡ Some p) }
    ensures laid { IfOk result (λ l. IsLaidAs (meant ready.now) program.now l) }
    ensures numbered { IfOk result IsLaid }
{
    match text_layout(alloc, ready, program) {
        Ok(layout) => {
            let _ = layout.leaves();
            Ok(layout)
        }
        Err(OpenError::NoProgram) => unreachable!(),
        Err(OpenError::NoMemory) => Err(NoMemory),
    }
}

/// The side of a program that there is, with a retained state of it.
fn opened<'a>(
    alloc: Global,
    ready: &'a Ready,
    program: &Ident,
    kept: &Retained,
) -> Result<TextSide<'a>, NoMemory>
    requires there { (p : Meant) × (program_named program.now (meant ready.now) ≡ Some p) }
    requires kept { (p : Meant) → program_named program.now (meant ready.now) ≡ Some p → IsKeptFor (meant ready.now) p kept.now }
    ensures { IfOk result (IsOpened (meant ready.entry.now) program.now kept.now) }
{
    match TextSide::open(alloc, ready, program, kept) {
        Ok(side) => Ok(side),
        Err(OpenError::NoProgram) => unreachable!(),
        Err(OpenError::NoMemory) => Err(NoMemory),
    }
}

/// The trace of a program that there is.
fn executed<D: Desk>(
    alloc: Global,
    ready: &Ready,
    program: &Ident,
    run: &Run<'_>,
    desk: &mut D,
) -> Result<Vec<u8>, RunError>
    requires { NamesProgram (meant ready.now) (said_by_run run.now).program program.now }
    ensures ok { IfOk result (λ text. IsTraced (D.file desk.old) (programs_of (meant ready.now)) (said_by_run run.now) text.items) }
    ensures err { IfErr result (WhyNot (D.file desk.old) (λ name. Rose (D.faults desk.old name) (D.faults desk.new name))
        (programs_of (meant ready.now)) (said_by_run run.now)) }
    ensures files { (other : List ℕ) → D.file desk.new other ≡ D.file desk.old other }
    ensures later { (other : List ℕ) → D.faults desk.old other ≤ D.faults desk.new other }
{
    let layout = layout_of(alloc, ready, program)?;
    let kept = begun(alloc, desk, &layout, run.retain)?;
    let mut side = opened(alloc, ready, program, &kept)?;
    traced(alloc, desk, &mut side, run.events, run.turns)
}

/// The trace of the program that a run is of, over the files of the run.
pub fn execute<D: Desk>(
    alloc: Global,
    ready: &Ready,
    run: &Run<'_>,
    desk: &mut D,
) -> Result<Vec<u8>, RunError>
    ensures ok { IfOk result (λ text. IsTraced (D.file desk.old) (programs_of (meant ready.now)) (said_by_run run.now) text.items) }
    ensures err { IfErr result (WhyNot (D.file desk.old) (λ name. Rose (D.faults desk.old name) (D.faults desk.new name))
        (programs_of (meant ready.now)) (said_by_run run.now)) }
    ensures files { (other : List ℕ) → D.file desk.new other ≡ D.file desk.old other }
    ensures later { (other : List ℕ) → D.faults desk.old other ≤ D.faults desk.new other }
{
    let pous = ready.unit().pous.as_slice();
    let Some(pou) = chosen(pous, run.program) else {
        return Err(RunError::NoProgram {
            programs: count(pous) as u64,
        });
    };
    executed(alloc, ready, &pou.name.name, run, desk)
}

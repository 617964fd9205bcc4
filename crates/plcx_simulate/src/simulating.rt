//! The trace of a program of a checked project.
ghost use Rattle.std.specs.Prelude.{◌≡◌, ◌≤◌, ℕ, List, Some, Ok, Err, IfOk, IfErr, OnOk, MatchResult};
ghost use Rattle.std.specs.List.{fold};
ghost use Rattle.plcx_io.specs.Counts.{Rose};
ghost use Rattle.plcx_types.specs.Lists.{Each};
ghost use Rattle.plcx_meaning.specs.Diagram.{program_named};
ghost use Rattle.plcx_meaning.specs.Diagram.{Pou as Meant};
ghost use Rattle.plcx_state.specs.Layouts.{IsLaid};
ghost use Rattle.plcx_state.specs.Tables.{HasPlainNames};
ghost use Rattle.plcx_words.specs.Says.{said_by_run};
ghost use Rattle.plcx_opening.specs.Opening.{IsLaidAs, IsKeptFor};
ghost use Rattle.plcx_meaning.specs.Evaluate.{DiagramState};
ghost use Rattle.plcx_meaning.specs.Run.{Side as MeantSide};
ghost use Rattle.plcx_eval.specs.Sides.{IsOpened, StandsFor, last_of, laid_of, machine_of};
ghost use Rattle.plcx_traced.specs.Files.{WhyNotFollowed};
ghost use Rattle.plcx_traced.specs.Runs.{IsTraced, WhyNot};
ghost use Rattle.plcx_simulate.specs.Watching.{Watches};
ghost use Rattle.plcx_simulate.specs.Listening.{IsWatchedTrace, StopsWatched};
ghost use Rattle.plcx_simulate.specs.Programs.{NamesProgram, programs_of, diagrams_in};

use crate::choosing::program_of;
use plcx_check::Checked;
use plcx_eval::{DiagramSide, Watched, diagram_layout, heard_in_order, watch_is_told};
use plcx_io::Desk;
use plcx_scan::OpenError;
use plcx_state::{Layout, Retained};
use plcx_steps::Watch;
use plcx_traced::{RunError, begun, traced};
use plcx_types::{Ident, NoMemory};
use plcx_words::Run;
use std::alloc::Global;

/// The layout of a program that there is.
pub fn layout_of(alloc: Global, checked: &Checked, program: &Ident) -> Result<Layout, NoMemory>
    requires { (p : Meant) × (program_named program.now (diagrams_in checked.now) ≡ Some p) }
    ensures laid { IfOk result (λ l. IsLaidAs (diagrams_in checked.now) program.now l) }
    ensures numbered { IfOk result IsLaid }
{
    match diagram_layout(alloc, checked, program) {
        Ok(layout) => {
            let _ = layout.leaves();
            Ok(layout)
        }
        Err(OpenError::NoProgram) => unreachable!(),
        Err(OpenError::NoMemory) => Err(NoMemory),
    }
}

/// The side of a program that there is, with a retained state of it.
fn opened<'a>(
    alloc: Global,
    checked: &'a Checked,
    program: &Ident,
    kept: &Retained,
) -> Result<DiagramSide<'a>, NoMemory>
    requires there { (p : Meant) × (program_named program.now (diagrams_in checked.now) ≡ Some p) }
    requires kept { (p : Meant) → program_named program.now (diagrams_in checked.now) ≡ Some p → IsKeptFor (diagrams_in checked.now) p kept.now }
    ensures { IfOk result (IsOpened (diagrams_in checked.entry.now) program.now kept.now) }
{
    match DiagramSide::open(alloc, checked, program, kept) {
        Ok(side) => Ok(side),
        Err(OpenError::NoProgram) => unreachable!(),
        Err(OpenError::NoMemory) => Err(NoMemory),
    }
}

/// The trace of a side over the events of a file, to whose scans someone listens.
fn listened<D: Desk, W: Watch>(
    alloc: Global,
    desk: &mut D,
    side: &mut Watched<'_, '_, W>,
    run: &Run<'_>,
) -> Result<Vec<u8>, RunError>
    requires time { last_of side.old.side.now ≡ 0 }
    requires stands { (g : MeantSide DiagramState) × StandsFor side.old.side.now g }
    ensures same_watch { side.new.watch.ghost_name ≡ side.old.watch.ghost_name }
    ensures ok { IfOk result (λ text. IsWatchedTrace (D.file desk.old run.now.events.now) run.now.turns side.old.side.now
        (λ heard. side.new.watch.now ≡ fold W.told side.old.watch.now heard) text.items) }
    ensures plain { OnOk result (Each HasPlainNames (laid_of side.old.side.now).leaves) }
    ensures err { IfErr result (WhyNotFollowed (D.file desk.old run.now.events.now)
        (Rose (D.faults desk.old run.now.events.now) (D.faults desk.new run.now.events.now)) (machine_of side.old.side.now).layout) }
    ensures stops { IfErr result (StopsWatched (D.file desk.old run.now.events.now) run.now.turns side.old.side.now
        (λ heard. side.new.watch.now ≡ fold W.told side.old.watch.now heard)) }
    ensures files { (other : List ℕ) → D.file desk.new other ≡ D.file desk.old other }
    ensures later { (other : List ℕ) → D.faults desk.old other ≤ D.faults desk.new other }
{
    heard_in_order();
    watch_is_told::<W>();
    traced(alloc, desk, side, run.events, run.turns)
}

/// The trace of a side over the events of a file. The watch is told what is heard of its scans.
fn watched<D: Desk, W: Watch>(
    alloc: Global,
    desk: &mut D,
    side: &mut DiagramSide<'_>,
    run: &Run<'_>,
    watch: &mut W,
) -> Result<Vec<u8>, RunError>
    requires time { last_of side.old ≡ 0 }
    requires stands { (g : MeantSide DiagramState) × StandsFor side.old g }
    ensures ok { IfOk result (λ text. IsWatchedTrace (D.file desk.old run.now.events.now) run.now.turns side.old
        (λ heard. watch.new ≡ fold W.told watch.old heard) text.items) }
    ensures plain { OnOk result (Each HasPlainNames (laid_of side.old).leaves) }
    ensures err { IfErr result (WhyNotFollowed (D.file desk.old run.now.events.now)
        (Rose (D.faults desk.old run.now.events.now) (D.faults desk.new run.now.events.now)) (machine_of side.old).layout) }
    ensures stops { IfErr result (StopsWatched (D.file desk.old run.now.events.now) run.now.turns side.old
        (λ heard. watch.new ≡ fold W.told watch.old heard)) }
    ensures files { (other : List ℕ) → D.file desk.new other ≡ D.file desk.old other }
    ensures later { (other : List ℕ) → D.faults desk.old other ≤ D.faults desk.new other }
{
    let mut watched = Watched::new(side, watch);
    listened(alloc, desk, &mut watched, run)
}

/// The trace of a program that there is.
fn simulated<D: Desk, W: Watch>(
    alloc: Global,
    checked: &Checked,
    program: &Ident,
    run: &Run<'_>,
    desk: &mut D,
    watch: &mut W,
) -> Result<Vec<u8>, RunError>
    requires { NamesProgram (diagrams_in checked.now) (said_by_run run.now).program program.now }
    ensures ok { IfOk result (λ text. IsTraced (D.file desk.old) (programs_of (diagrams_in checked.now)) (said_by_run run.now) text.items) }
    ensures err { IfErr result (WhyNot (D.file desk.old) (λ name. Rose (D.faults desk.old name) (D.faults desk.new name))
        (programs_of (diagrams_in checked.now)) (said_by_run run.now)) }
    ensures heard { MatchResult result
        (λ text. Watches (D.file desk.old) (diagrams_in checked.now) (said_by_run run.now) (λ heard. watch.new ≡ fold W.told watch.old heard) (Ok text.items))
        (λ e. Watches (D.file desk.old) (diagrams_in checked.now) (said_by_run run.now) (λ heard. watch.new ≡ fold W.told watch.old heard) (Err e)) }
    ensures files { (other : List ℕ) → D.file desk.new other ≡ D.file desk.old other }
    ensures later { (other : List ℕ) → D.faults desk.old other ≤ D.faults desk.new other }
{
    let layout = layout_of(alloc, checked, program)?;
    let kept = begun(alloc, desk, &layout, run.retain)?;
    let mut side = opened(alloc, checked, program, &kept)?;
    watched(alloc, desk, &mut side, run, watch)
}

/// The trace of the program that a run is of, over the files of the run. The watch is told what is heard of its scans.
pub fn simulate<D: Desk, W: Watch>(
    alloc: Global,
    checked: &Checked,
    run: &Run<'_>,
    desk: &mut D,
    watch: &mut W,
) -> Result<Vec<u8>, RunError>
    ensures ok { IfOk result (λ text. IsTraced (D.file desk.old) (programs_of (diagrams_in checked.now)) (said_by_run run.now) text.items) }
    ensures err { IfErr result (WhyNot (D.file desk.old) (λ name. Rose (D.faults desk.old name) (D.faults desk.new name))
        (programs_of (diagrams_in checked.now)) (said_by_run run.now)) }
    ensures heard { MatchResult result
        (λ text. Watches (D.file desk.old) (diagrams_in checked.now) (said_by_run run.now) (λ heard. watch.new ≡ fold W.told watch.old heard) (Ok text.items))
        (λ e. Watches (D.file desk.old) (diagrams_in checked.now) (said_by_run run.now) (λ heard. watch.new ≡ fold W.told watch.old heard) (Err e)) }
    ensures files { (other : List ℕ) → D.file desk.new other ≡ D.file desk.old other }
    ensures later { (other : List ℕ) → D.faults desk.old other ≤ D.faults desk.new other }
{
    match program_of(checked, run.program) {
        Ok(program) => simulated(alloc, checked, program, run, desk, watch),
        Err(programs) => Err(RunError::NoProgram { programs }),
    }
}

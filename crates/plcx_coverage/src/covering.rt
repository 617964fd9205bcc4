//! The counts of a simulation, as a text.
ghost use Rattle.std.specs.Prelude.{◌≡◌, ◌≤◌, ℕ, List, IfOk, IfErr};
ghost use Rattle.plcx_io.specs.Counts.{Rose};
ghost use Rattle.plcx_words.specs.Says.{said_by_run};
ghost use Rattle.plcx_traced.specs.Runs.{WhyNot};
ghost use Rattle.plcx_simulate.specs.Programs.{programs_of, diagrams_in};
ghost use Rattle.plcx_coverage.specs.Coverage.{IsCovered};

use plcx_check::Checked;
use plcx_cover::{Cover, counts_grow, cover_text};
use plcx_io::Desk;
use plcx_simulate::simulate;
use plcx_traced::RunError;
use plcx_words::Run;
use std::alloc::Global;

/// The counts of all wires of a project, as a text, over a run of one of its programs and the files of the run.
pub fn cover<D: Desk>(
    alloc: Global,
    checked: &Checked,
    run: &Run<'_>,
    desk: &mut D,
) -> Result<Vec<u8>, RunError>
    ensures ok { IfOk result (λ text. IsCovered (D.file desk.old) (diagrams_in checked.now) (said_by_run run.now) text.items) }
    ensures err { IfErr result (WhyNot (D.file desk.old) (λ name. Rose (D.faults desk.old name) (D.faults desk.new name))
        (programs_of (diagrams_in checked.now)) (said_by_run run.now)) }
    ensures files { (other : List ℕ) → D.file desk.new other ≡ D.file desk.old other }
    ensures later { (other : List ℕ) → D.faults desk.old other ≤ D.faults desk.new other }
{
    counts_grow();
    let mut cover = Cover::open(alloc, checked)?;
    simulate(alloc, checked, run, desk, &mut cover)?;
    Ok(cover_text(alloc, checked, &cover)?)
}

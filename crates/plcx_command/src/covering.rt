//! What a run of a program covers.
ghost use Rattle.std.specs.Prelude.{IfOk};
ghost use Rattle.plcx_io.specs.Counts.{Rose};
ghost use Rattle.plcx_words.specs.Command.{cover};
ghost use Rattle.plcx_words.specs.Says.{said_by_run};
ghost use Rattle.plcx_command.specs.ReplyOf.{answer_of};
ghost use Rattle.plcx_command.specs.Says.{SaysTo};
ghost use Rattle.plcx_command.specs.Simulated.{AnswersRun, Coverage};
ghost use Rattle.plcx_command.specs.Taken.{IsAccepted};

use crate::line::ProjectFile;
use crate::replies::no_trace;
use crate::reply::Reply;
use crate::taking::{Taken, take_file};
use plcx_check::Checked;
use plcx_coverage::cover;
use plcx_io::Desk;
use plcx_types::NoMemory;
use plcx_words::Run;
use std::alloc::Global;

/// What a run of a checked project answers whose wires are counted.
fn covered<D: Desk>(
    alloc: Global,
    desk: &mut D,
    checked: &Checked,
    run: &Run<'_>,
) -> Result<Reply, NoMemory>
    ensures { IfOk result (λ reply. (file : IsAccepted (D.file desk.old run.now.file.now) checked.now)
        → AnswersRun (D.file desk.old) (λ other. Rose (D.faults desk.old other) (D.faults desk.new other)) Coverage (said_by_run run.now) file.bytes (answer_of reply)) }
{
    match cover(alloc, checked, run, desk) {
        Ok(text) => Ok(Reply::Output(text)),
        Err(error) => no_trace(alloc, run, error),
    }
}

/// Reads a file, and counts how often a run of a program of it evaluates each wire.
pub fn cover_file<D: Desk>(alloc: Global, desk: &mut D, run: &Run<'_>) -> Result<Reply, NoMemory>
    ensures { IfOk result (λ reply. SaysTo (D.file desk.old)
        (λ other. Rose (D.faults desk.old other) (D.faults desk.new other)) (cover (said_by_run run.now)) (answer_of reply)) }
{
    match take_file(alloc, desk, ProjectFile::First, run.file)? {
        Taken::Accepted(checked) => covered(alloc, desk, &checked, run),
        Taken::Refused(reply) => Ok(reply),
    }
}

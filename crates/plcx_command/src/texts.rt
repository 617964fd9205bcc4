//! What a run of a text answers.
ghost use Rattle.std.specs.Prelude.{IfOk};
ghost use Rattle.plcx_io.specs.Counts.{Rose};
ghost use Rattle.plcx_words.specs.Says.{said_by_run};
ghost use Rattle.plcx_command.specs.ReplyOf.{answer_of};
ghost use Rattle.plcx_command.specs.TextRun.{AnswersText};

use crate::replies::no_text_trace;
use crate::reply::Reply;
use plcx_io::Desk;
use plcx_text_run::text_run;
use plcx_types::NoMemory;
use plcx_words::Run;
use std::alloc::Global;

/// Reads a text, and runs a program of it.
pub fn run_text<D: Desk>(alloc: Global, desk: &mut D, run: &Run<'_>) -> Result<Reply, NoMemory>
    ensures { IfOk result (λ reply. AnswersText (D.file desk.old)
        (λ other. Rose (D.faults desk.old other) (D.faults desk.new other)) (said_by_run run.now) (answer_of reply)) }
{
    match text_run(alloc, desk, run) {
        Ok(text) => Ok(Reply::Output(text)),
        Err(error) => no_text_trace(alloc, run, error),
    }
}

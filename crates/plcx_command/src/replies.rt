//! Replies: an output, or a refusal with its line.
ghost use Rattle.std.specs.Prelude.{◌≡◌, ◌≢◌, IfOk, OnOk};
ghost use Rattle.std.specs.Option.{option_map};
ghost use Rattle.plcx_words.specs.Says.{said_by_run, said_by_task_run};
ghost use Rattle.plcx_traced.specs.declared.error.RunError.TheVariants as run_error;
ghost use Rattle.plcx_command.specs.Answer.{refusal, ok_answer, usage_answer, read_answer, broken_answer, program_answer};
ghost use Rattle.plcx_text_run.specs.declared.running.TextRunError.TheVariants as text_error;
ghost use Rattle.plcx_command.specs.Answer.{retained_line, row_line, tasks_line, text_line};
ghost use Rattle.plcx_cycle.specs.declared.error.CycleError.TheVariants as cycle_error;
ghost use Rattle.plcx_command.specs.Cycled.{cycle_refused, cycle_line};
ghost use Rattle.plcx_command.specs.Simulated.{refused_as, error_line};
ghost use Rattle.plcx_command.specs.TextRun.{text_refused, text_error_line};
ghost use Rattle.plcx_command.specs.declared.status.Refused.TheVariants as why;
ghost use Rattle.plcx_command.specs.ReplyOf.{answer_of};

use crate::line::{
    ProjectFile, broken_line, program_line, retained_line, row_line, tasks_line, text_line,
};
use crate::reply::Reply;
use crate::status::Refused;
use plcx_cycle::CycleError;
use plcx_model::Broken;
use plcx_text_file::BrokenText;
use plcx_text_run::TextRunError;
use plcx_traced::RunError;
use plcx_types::NoMemory;
use plcx_words::{Run, TaskRun};
use std::alloc::Global;

/// What words answer that ask for nothing.
pub fn usage(alloc: Global) -> Result<Reply, NoMemory>
    ensures { IfOk result (λ reply. answer_of reply ≡ usage_answer) }
{
    let line =
        b"plcx: usage: plcx ACTION FILE [EVENTS] [--program NAME] [--turns N] [--retain FILE]\n";
    Ok(Reply::Refusal(Refused::Usage, line.to_vec(alloc)?))
}

/// What a file answers that is accepted, and only judged.
pub fn accepted(alloc: Global) -> Result<Reply, NoMemory>
    ensures { IfOk result (λ reply. answer_of reply ≡ ok_answer) }
{
    Ok(Reply::Output(b"ok\n".to_vec(alloc)?))
}

/// What a file answers that can't be read.
pub fn read_fault(alloc: Global, name: &str) -> Result<Reply, NoMemory>
    ensures { IfOk result (λ reply. answer_of reply ≡ read_answer name.now) }
{
    let mut line = b"plcx: cannot read ".to_vec(alloc)?;
    line.extend_from_slice(name.as_bytes())?;
    line.push(b'\n')?;
    Ok(Reply::Refusal(Refused::ReadFault, line))
}

/// What a project file answers that breaks a rule.
pub fn broken(alloc: Global, file: ProjectFile, broken: &Broken) -> Result<Reply, NoMemory>
    ensures { IfOk result (λ reply. answer_of reply ≡ broken_answer file broken.now) }
{
    let line = broken_line(alloc, file, broken)?;
    Ok(Reply::Refusal(Refused::Broken, line))
}

/// What a project file answers that has not the program.
pub fn no_program(
    alloc: Global,
    file: ProjectFile,
    program: Option<&str>,
    programs: u64,
) -> Result<Reply, NoMemory>
    ensures { IfOk result (λ reply. answer_of reply ≡ program_answer file (option_map (λ s. s.now) program.entry) programs) }
{
    let line = program_line(alloc, file, program, programs)?;
    Ok(Reply::Refusal(Refused::NoProgram, line))
}

/// What a retained file answers that is wrong at a line.
pub fn wrong_line(alloc: Global, line: u64) -> Result<Reply, NoMemory>
    ensures { IfOk result (λ reply. answer_of reply ≡ refusal why.EventsBroken (retained_line line)) }
{
    let line = retained_line(alloc, line)?;
    Ok(Reply::Refusal(Refused::EventsBroken, line))
}

/// What a file of events answers that is wrong at a row.
fn wrong_row(alloc: Global, row: u64) -> Result<Reply, NoMemory>
    ensures { IfOk result (λ reply. answer_of reply ≡ refusal why.EventsBroken (row_line row)) }
{
    let line = row_line(alloc, row)?;
    Ok(Reply::Refusal(Refused::EventsBroken, line))
}

/// What a run answers that leaves no trace, unless memory is wanted.
pub fn no_trace(alloc: Global, run: &Run<'_>, error: RunError) -> Result<Reply, NoMemory>
    ensures answer { IfOk result (λ reply. answer_of reply ≡ refusal (refused_as error) (error_line (said_by_run run.now) error)) }
    ensures there { OnOk result (error ≢ run_error.NoMemory) }
{
    match error {
        RunError::NoProgram { programs } => {
            no_program(alloc, ProjectFile::First, run.program, programs)
        }
        RunError::RetainedRead => read_fault(alloc, run.retain.unwrap_or("")),
        RunError::Line { line } => wrong_line(alloc, line),
        RunError::EventsRead => read_fault(alloc, run.events),
        RunError::Row { row } => wrong_row(alloc, row),
        RunError::NoMemory => Err(NoMemory),
    }
}

/// What a text answers that breaks something.
fn broken_text(alloc: Global, broken: &BrokenText) -> Result<Reply, NoMemory>
    ensures { IfOk result (λ reply. answer_of reply ≡ refusal why.TextBroken (text_line broken.now)) }
{
    let line = text_line(alloc, broken)?;
    Ok(Reply::Refusal(Refused::TextBroken, line))
}

/// What a run of a text answers that leaves no trace, unless memory is wanted.
pub fn no_text_trace(alloc: Global, run: &Run<'_>, error: TextRunError) -> Result<Reply, NoMemory>
    ensures answer { IfOk result (λ reply. answer_of reply ≡ refusal (text_refused error) (text_error_line (said_by_run run.now) error)) }
    ensures there { OnOk result (error ≢ text_error.NoMemory) }
{
    match error {
        TextRunError::TextRead => read_fault(alloc, run.file),
        TextRunError::TextBroken(broken) => broken_text(alloc, &broken),
        TextRunError::NotRun(error) => no_trace(alloc, run, error),
        TextRunError::NoMemory => Err(NoMemory),
    }
}

/// What a run of tasks answers that leaves no text, unless memory is wanted.
pub fn no_cycle(alloc: Global, run: &TaskRun<'_>, error: CycleError) -> Result<Reply, NoMemory>
    ensures answer { IfOk result (λ reply. answer_of reply ≡ refusal (cycle_refused error) (cycle_line (said_by_task_run run.now) error)) }
    ensures there { OnOk result (error ≢ cycle_error.NoMemory) }
{
    match error {
        CycleError::Tasks { kind, at } => {
            let line = tasks_line(alloc, kind, at)?;
            Ok(Reply::Refusal(Refused::TasksBroken, line))
        }
        CycleError::TicksRead => read_fault(alloc, run.ticks),
        CycleError::Row { row } => wrong_row(alloc, row),
        CycleError::NoMemory => Err(NoMemory),
    }
}

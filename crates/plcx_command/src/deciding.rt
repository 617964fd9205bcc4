//! What is to be written, before anything is.
ghost use Rattle.std.specs.Prelude.{◌≡◌, ℕ, Some, None, IfOk, MatchResult};
ghost use Rattle.std.specs.List.{fold};
ghost use Rattle.plcx_io.specs.Counts.{Rose};
ghost use Rattle.plcx_words.specs.Command.{command_of, bench, check, compile, simulate};
ghost use Rattle.plcx_words.specs.Says.{said_by, said_by_run};
ghost use Rattle.plcx_bench_project.specs.Bench.{IsMeasured};
ghost use Rattle.plcx_command.specs.Answer.{memory_answer};
ghost use Rattle.plcx_command.specs.Hears.{Hears, HearsRun};
ghost use Rattle.plcx_command.specs.Says.{Says, SaysTo};
ghost use Rattle.plcx_command.specs.Simulated.{AnswersRun, Trace};
ghost use Rattle.plcx_command.specs.ReplyOf.{answer_of};
ghost use Rattle.plcx_command.specs.Taken.{IsAccepted};

use crate::benching::bench_reply;
use crate::covering::cover_file;
use crate::cycling::cycle_file;
use crate::judging::text_of;
use crate::line::ProjectFile;
use crate::migrating::migrate_file;
use crate::replies::{accepted, no_trace, usage};
use crate::reply::Reply;
use crate::taking::{Taken, take_file};
use crate::texts::run_text;
use plcx_check::Checked;
use plcx_io::Desk;
use plcx_migrate::Form;
use plcx_simulate::simulate;
use plcx_steps::Watch;
use plcx_types::NoMemory;
use plcx_words::{Command, Run, Words, WordsError, command_of};
use std::alloc::Global;

/// Reads a file, and judges it alone.
fn check_file<D: Desk>(alloc: Global, desk: &mut D, name: &str) -> Result<Reply, NoMemory>
    ensures { IfOk result (λ reply. SaysTo (D.file desk.old)
        (λ other. Rose (D.faults desk.old other) (D.faults desk.new other)) (check name.now) (answer_of reply)) }
{
    match take_file(alloc, desk, ProjectFile::First, name)? {
        Taken::Accepted(_) => accepted(alloc),
        Taken::Refused(reply) => Ok(reply),
    }
}

/// Reads a file and compiles it.
fn compile_file<D: Desk>(alloc: Global, desk: &mut D, name: &str) -> Result<Reply, NoMemory>
    ensures { IfOk result (λ reply. SaysTo (D.file desk.old)
        (λ other. Rose (D.faults desk.old other) (D.faults desk.new other)) (compile name.now) (answer_of reply)) }
{
    match take_file(alloc, desk, ProjectFile::First, name)? {
        Taken::Accepted(checked) => Ok(Reply::Output(text_of(alloc, &checked)?)),
        Taken::Refused(reply) => Ok(reply),
    }
}

/// What a run of a checked project answers.
fn simulated<D: Desk, W: Watch>(
    alloc: Global,
    desk: &mut D,
    checked: &Checked,
    run: &Run<'_>,
    watch: &mut W,
) -> Result<Reply, NoMemory>
    ensures says { IfOk result (λ reply. (file : IsAccepted (D.file desk.old run.now.file.now) checked.now)
        → AnswersRun (D.file desk.old) (λ other. Rose (D.faults desk.old other) (D.faults desk.new other)) Trace (said_by_run run.now) file.bytes (answer_of reply)) }
    ensures heard { IsAccepted (D.file desk.old run.now.file.now) checked.now → MatchResult result
        (λ reply. HearsRun (D.file desk.old) (λ heard. watch.new ≡ fold W.told watch.old heard) (said_by_run run.now) (answer_of reply))
        (λ _. HearsRun (D.file desk.old) (λ heard. watch.new ≡ fold W.told watch.old heard) (said_by_run run.now) memory_answer) }
{
    match simulate(alloc, checked, run, desk, watch) {
        Ok(text) => Ok(Reply::Output(text)),
        Err(error) => no_trace(alloc, run, error),
    }
}

/// Reads a file, and simulates a program of it.
fn simulate_file<D: Desk, W: Watch>(
    alloc: Global,
    desk: &mut D,
    run: &Run<'_>,
    watch: &mut W,
) -> Result<Reply, NoMemory>
    ensures says { IfOk result (λ reply. SaysTo (D.file desk.old)
        (λ other. Rose (D.faults desk.old other) (D.faults desk.new other)) (simulate (said_by_run run.now)) (answer_of reply)) }
    ensures heard { MatchResult result
        (λ reply. HearsRun (D.file desk.old) (λ heard. watch.new ≡ fold W.told watch.old heard) (said_by_run run.now) (answer_of reply))
        (λ _. HearsRun (D.file desk.old) (λ heard. watch.new ≡ fold W.told watch.old heard) (said_by_run run.now) memory_answer) }
{
    match take_file(alloc, desk, ProjectFile::First, run.file)? {
        Taken::Accepted(checked) => simulated(alloc, desk, &checked, run, watch),
        Taken::Refused(reply) => Ok(reply),
    }
}

/// What a command answers.
fn obey<D: Desk, W: Watch>(
    alloc: Global,
    command: Command<'_>,
    desk: &mut D,
    watch: &mut W,
) -> Result<Reply, NoMemory>
    requires { (n : ℕ) → said_by command ≡ bench n → IsMeasured n }
    ensures says { IfOk result (λ reply. SaysTo (D.file desk.old)
        (λ name. Rose (D.faults desk.old name) (D.faults desk.new name)) (said_by command.entry) (answer_of reply)) }
    ensures heard { MatchResult result
        (λ reply. Hears (D.file desk.old) (λ heard. watch.new ≡ fold W.told watch.old heard) (Some (said_by command.entry)) (answer_of reply))
        (λ _. Hears (D.file desk.old) (λ heard. watch.new ≡ fold W.told watch.old heard) (Some (said_by command.entry)) memory_answer) }
{
    match command {
        Command::Check(name) => check_file(alloc, desk, name),
        Command::Compile(name) => compile_file(alloc, desk, name),
        Command::Simulate(run) => simulate_file(alloc, desk, &run, watch),
        Command::Migrate(migration) => migrate_file(alloc, desk, &migration, Form::Lines),
        Command::Report(migration) => migrate_file(alloc, desk, &migration, Form::Report),
        Command::Cover(run) => cover_file(alloc, desk, &run),
        Command::Run(run) => run_text(alloc, desk, &run),
        Command::Cycle(run) => cycle_file(alloc, desk, &run),
        Command::Bench(n) => bench_reply(alloc, n, watch),
    }
}

/// What the words answer. Where they are no command, the desk is as it was.
pub fn decide<D: Desk, W: Watch>(
    alloc: Global,
    words: &Words,
    desk: &mut D,
    watch: &mut W,
) -> Result<Reply, NoMemory>
    ensures says { IfOk result (λ reply. Says (D.file desk.old)
        (λ name. Rose (D.faults desk.old name) (D.faults desk.new name)) (command_of words.now) (answer_of reply)) }
    ensures heard { MatchResult result
        (λ reply. Hears (D.file desk.old) (λ heard. watch.new ≡ fold W.told watch.old heard) (command_of words.now) (answer_of reply))
        (λ _. Hears (D.file desk.old) (λ heard. watch.new ≡ fold W.told watch.old heard) (command_of words.now) memory_answer) }
    ensures untouched { command_of words.now ≡ None → desk.new ≡ desk.old }
{
    match command_of(alloc, words) {
        Ok(command) => obey(alloc, command, desk, watch),
        Err(WordsError::Usage) => usage(alloc),
        Err(WordsError::NoMemory) => Err(NoMemory),
    }
}

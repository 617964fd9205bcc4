//! What the words ask for: an action with its files, names and numbers.
ghost use Rattle.std.specs.Prelude.{◌≡◌, Some, None, IfOk};
ghost use Rattle.std.specs.Option.{option_map};
ghost use Rattle.plcx_words.specs.Command.{alone, asked, asked_by, bench_of, command_of, has_option, migration_of, run_of, task_run_of, turns_of};
ghost use Rattle.plcx_words.specs.Says.{Refuses, said_by, said_by_arguments, said_by_migration, said_by_run, said_by_task_run};

use crate::arguments::{Arguments, given};
use crate::error::WordsError;
use crate::number::{size, turns};
use crate::words::Words;
use std::alloc::Global;

/// The turns of a scan where none are given.
const USUAL_TURNS: u64 = 1000;

/// A run of one program over a file of events.
#[derive(Clone, Copy, Debug)]
pub struct Run<'a> {
    pub file: &'a str,
    pub events: &'a str,
    pub program: Option<&'a str>,
    /// The turns that each scan has, below 10^18.
    pub turns: u64,
    pub retain: Option<&'a str>,
}

/// A run of the tasks of a resource over a file of ticks.
#[derive(Clone, Copy, Debug)]
pub struct TaskRun<'a> {
    pub file: &'a str,
    pub ticks: &'a str,
    /// The turns that each scan has, below 10^18.
    pub turns: u64,
}

/// Retained values of an old version of a project for a new one.
#[derive(Clone, Copy, Debug)]
pub struct Migration<'a> {
    pub old: &'a str,
    pub new: &'a str,
    /// The program's name in both versions.
    pub program: Option<&'a str>,
    pub retain: &'a str,
}

/// What the words ask for.
#[derive(Clone, Copy, Debug)]
pub enum Command<'a> {
    Check(&'a str),
    Compile(&'a str),
    Simulate(Run<'a>),
    Run(Run<'a>),
    /// The number of networks, from 1 to 1000.
    Bench(u64),
    Cycle(TaskRun<'a>),
    /// The retained lines of the new version.
    Migrate(Migration<'a>),
    /// What becomes of each value.
    Report(Migration<'a>),
    /// A run of the diagrams whose evaluations are counted.
    Cover(Run<'a>),
}

fn has_option(a: &Arguments) -> bool
    ensures { result ≡ has_option (said_by_arguments a.now) }
{
    a.program.is_some() || a.turns.is_some() || a.retain.is_some()
}

fn alone<'a>(a: &Arguments<'a>) -> Option<&'a str>
    ensures { option_map (λ s. s.now) result ≡ alone (said_by_arguments a.now) }
{
    if a.events.is_some() || has_option(a) {
        None
    } else {
        a.file
    }
}

fn turns_of(text: Option<&str>) -> Option<u64>
    ensures { result ≡ turns_of (option_map (λ s. s.now) text.entry) }
{
    match text {
        None => Some(USUAL_TURNS),
        Some(text) => turns(text),
    }
}

fn run_of<'a>(a: &Arguments<'a>) -> Option<Run<'a>>
    ensures { option_map said_by_run result ≡ run_of (said_by_arguments a.now) }
{
    let file = a.file?;
    let events = a.events?;
    let turns = turns_of(a.turns)?;
    Some(Run {
        file,
        events,
        program: a.program,
        turns,
        retain: a.retain,
    })
}

fn task_run_of<'a>(a: &Arguments<'a>) -> Option<TaskRun<'a>>
    ensures { option_map said_by_task_run result ≡ task_run_of (said_by_arguments a.now) }
{
    if a.program.is_some() || a.retain.is_some() {
        return None;
    }
    let file = a.file?;
    let ticks = a.events?;
    let turns = turns_of(a.turns)?;
    Some(TaskRun { file, ticks, turns })
}

fn migration_of<'a>(a: &Arguments<'a>) -> Option<Migration<'a>>
    ensures { option_map said_by_migration result ≡ migration_of (said_by_arguments a.now) }
{
    if a.turns.is_some() {
        return None;
    }
    let old = a.file?;
    let new = a.events?;
    let retain = a.retain?;
    Some(Migration {
        old,
        new,
        program: a.program,
        retain,
    })
}

fn bench_of<'a>(text: &str) -> Option<Command<'a>>
    ensures { option_map said_by result ≡ bench_of text.now }
{
    let networks = size(text)?;
    Some(Command::Bench(networks))
}

fn asked<'a>(action: &str, a: &Arguments<'a>) -> Option<Command<'a>>
    ensures { option_map said_by result ≡ asked action.now (said_by_arguments a.now) }
{
    match action {
        "check" => Some(Command::Check(alone(a)?)),
        "compile" => Some(Command::Compile(alone(a)?)),
        "simulate" => Some(Command::Simulate(run_of(a)?)),
        "run" => Some(Command::Run(run_of(a)?)),
        "bench" => bench_of(alone(a)?),
        "cycle" => Some(Command::Cycle(task_run_of(a)?)),
        "migrate" => Some(Command::Migrate(migration_of(a)?)),
        "report" => Some(Command::Report(migration_of(a)?)),
        "cover" => Some(Command::Cover(run_of(a)?)),
        _ => None,
    }
}

fn asked_by<'a>(a: &Arguments<'a>) -> Option<Command<'a>>
    ensures { option_map said_by result ≡ asked_by (said_by_arguments a.now) }
{
    let action = a.action?;
    asked(action, a)
}

/// What the words ask for. All faults of the words are `Usage`, and come before anything is read.
pub fn command_of<'a>(alloc: Global, words: &'a Words) -> Result<Command<'a>, WordsError>
    ensures ok { IfOk result (λ command. Some (said_by command) ≡ command_of words.entry.now) }
    ensures usage { Refuses result (command_of words.entry.now ≡ None) }
{
    let given = given(alloc, words.as_slice())?;
    asked_by(&given).ok_or(WordsError::Usage)
}

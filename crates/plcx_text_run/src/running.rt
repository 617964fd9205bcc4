//! The trace of a text, over the files of a run.
ghost use Rattle.std.specs.Prelude.{◌≡◌, ◌≤◌, ℕ, List, IfOk, IfErr};
ghost use Rattle.plcx_io.specs.Counts.{Rose};
ghost use Rattle.plcx_st.specs.Meant.{meant};
ghost use Rattle.plcx_words.specs.Says.{said_by_run};
ghost use Rattle.plcx_traced.specs.Runs as runs;
ghost use Rattle.plcx_execute.specs.Programs.{programs_of};

use plcx_execute::execute;
use plcx_io::Desk;
use plcx_text_file::{BrokenText, TextReadError, load_text};
use plcx_traced::RunError;
use plcx_unit::Ready;
use plcx_words::Run;
use std::alloc::Global;

/// Why a run of a text leaves no trace.
#[derive(Clone, Copy, Debug, PartialEq, Eq)]
pub enum TextRunError {
    /// The file of the text can't be read.
    TextRead,
    TextBroken(BrokenText),
    /// The text is ready, and a run of it is refused for another cause than memory.
    NotRun(RunError),
    NoMemory,
}

ghost use Rattle.plcx_text_run.specs.TextRuns.{IsTraced, WhyNot, WhyNotRun};

/// The trace of a unit that is ready.
fn executed<D: Desk>(
    alloc: Global,
    desk: &mut D,
    ready: &Ready,
    run: &Run<'_>,
) -> Result<Vec<u8>, TextRunError>
    ensures ok { IfOk result (λ text. runs.IsTraced (D.file desk.old) (programs_of (meant ready.now)) (said_by_run run.now) text.items) }
    ensures err { IfErr result (WhyNotRun (D.file desk.old) (λ name. Rose (D.faults desk.old name) (D.faults desk.new name))
        (meant ready.now) (said_by_run run.now)) }
    ensures files { (other : List ℕ) → D.file desk.new other ≡ D.file desk.old other }
    ensures later { (other : List ℕ) → D.faults desk.old other ≤ D.faults desk.new other }
{
    match execute(alloc, ready, run, desk) {
        Ok(text) => Ok(text),
        Err(RunError::NoMemory) => Err(TextRunError::NoMemory),
        Err(error) => Err(TextRunError::NotRun(error)),
    }
}

/// The trace of the program of a text that a run is of, over the files of the run.
pub fn text_run<D: Desk>(
    alloc: Global,
    desk: &mut D,
    run: &Run<'_>,
) -> Result<Vec<u8>, TextRunError>
    ensures ok { IfOk result (λ text. IsTraced (D.file desk.old) (said_by_run run.now) text.items) }
    ensures err { IfErr result (WhyNot (D.file desk.old) (λ name. Rose (D.faults desk.old name) (D.faults desk.new name)) (said_by_run run.now)) }
    ensures files { (other : List ℕ) → D.file desk.new other ≡ D.file desk.old other }
    ensures later { (other : List ℕ) → D.faults desk.old other ≤ D.faults desk.new other }
{
    match load_text(alloc, desk, run.file) {
        Ok(ready) => executed(alloc, desk, &ready, run),
        Err(TextReadError::Read) => Err(TextRunError::TextRead),
        Err(TextReadError::Broken(found)) => Err(TextRunError::TextBroken(found)),
        Err(TextReadError::NoMemory) => Err(TextRunError::NoMemory),
    }
}

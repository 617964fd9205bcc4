//! What a run of the tasks of a file's resource answers.
ghost use Rattle.std.specs.Prelude.{◌≡◌, ℕ, List, Some, IfOk};
ghost use Rattle.plcx_io.specs.Counts.{Rose};
ghost use Rattle.plcx_xml.specs.declared.tree.Node.{out-Node};
ghost use Rattle.plcx_model.specs.declared.broken.Broken as model;
ghost use Rattle.plcx_words.specs.Command.{cycle};
ghost use Rattle.plcx_words.specs.Says.{said_by_task_run};
ghost use Rattle.plcx_command.specs.Answer.{broken_answer};
ghost use Rattle.plcx_command.specs.Cycled.{AnswersCycle};
ghost use Rattle.plcx_command.specs.JudgementOf.{HasTree};
ghost use Rattle.plcx_command.specs.ReplyOf.{answer_of};
ghost use Rattle.plcx_command.specs.Says.{Judged, SaysTo};
ghost use Rattle.plcx_command.specs.Verdict.{tree_rule};
ghost use Rattle.plcx_command.specs.declared.line.ProjectFile.TheVariants.{First};

use crate::judging::{Judgement, at_byte, of_root, of_tree};
use crate::line::ProjectFile;
use crate::replies::{broken, no_cycle, read_fault};
use crate::reply::Reply;
use plcx_check::Checked;
use plcx_cycle::cycle;
use plcx_io::{Desk, LoadError, load};
use plcx_types::NoMemory;
use plcx_types::limits::MAX_FILE_BYTES;
use plcx_words::TaskRun;
use plcx_xml::{Node, XmlError, read_tree};
use std::alloc::Global;

/// What a run of the tasks of a checked project answers; the root is that of its tree.
fn cycled<D: Desk>(
    alloc: Global,
    desk: &mut D,
    root: &Node<'_>,
    checked: &Checked,
    run: &TaskRun<'_>,
) -> Result<Reply, NoMemory>
    ensures { IfOk result (λ reply. (bytes : List ℕ) → HasTree bytes (out-Node root.now) checked.now
        → AnswersCycle (D.file desk.old) (λ other. Rose (D.faults desk.old other) (D.faults desk.new other)) (said_by_task_run run.now) bytes (answer_of reply)) }
{
    match cycle(alloc, root, checked, run, desk) {
        Ok(text) => Ok(Reply::Output(text)),
        Err(error) => no_cycle(alloc, run, error),
    }
}

/// What bytes answer that stand for no tree.
fn broken_tree(alloc: Global, fault: XmlError) -> Result<Reply, NoMemory>
    ensures { IfOk result (λ reply. (b : model.Broken) × (tree_rule fault ≡ Some b) × (answer_of reply ≡ broken_answer First b)) }
{
    match of_tree(fault)? {
        Judgement::Broken(found) => broken(alloc, ProjectFile::First, &found),
        Judgement::Accepted(_) => unreachable!(),
    }
}

/// What the bytes of a project file answer.
fn cycle_bytes<D: Desk>(
    alloc: Global,
    desk: &mut D,
    bytes: &[u8],
    run: &TaskRun<'_>,
) -> Result<Reply, NoMemory>
    ensures { IfOk result (λ reply. Judged First bytes.now
        (AnswersCycle (D.file desk.old) (λ other. Rose (D.faults desk.old other) (D.faults desk.new other)) (said_by_task_run run.now) bytes.now) (answer_of reply)) }
{
    let root = match read_tree(alloc, bytes) {
        Ok(root) => root,
        Err(fault) => return broken_tree(alloc, fault),
    };
    match of_root(alloc, &root)? {
        Judgement::Accepted(checked) => cycled(alloc, desk, &root, &checked, run),
        Judgement::Broken(found) => broken(alloc, ProjectFile::First, &found),
    }
}

/// Reads a file, and runs the tasks of its resource.
pub fn cycle_file<D: Desk>(
    alloc: Global,
    desk: &mut D,
    run: &TaskRun<'_>,
) -> Result<Reply, NoMemory>
    ensures { IfOk result (λ reply. SaysTo (D.file desk.old)
        (λ other. Rose (D.faults desk.old other) (D.faults desk.new other)) (cycle (said_by_task_run run.now)) (answer_of reply)) }
{
    match load(alloc, desk, run.file, MAX_FILE_BYTES) {
        Ok(bytes) => cycle_bytes(alloc, desk, &bytes, run),
        Err(LoadError::Read) => read_fault(alloc, run.file),
        Err(LoadError::TooLong { limit: _ }) => {
            let long = at_byte(7, MAX_FILE_BYTES);
            broken(alloc, ProjectFile::First, &long)
        }
        Err(LoadError::NoMemory) => Err(NoMemory),
    }
}

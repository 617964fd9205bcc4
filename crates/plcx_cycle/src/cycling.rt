//! The run of the tasks of a file's resource.
ghost use Rattle.std.specs.Prelude.{◌≡◌, ◌≤◌, ℕ, List, IfOk, IfErr};
ghost use Rattle.plcx_io.specs.Counts.{Rose};
ghost use Rattle.plcx_types.specs.Lists.{Each};
ghost use Rattle.plcx_xml.specs.declared.tree.Node.{out-Node};
ghost use Rattle.plcx_words.specs.Says.{said_by_task_run};
ghost use Rattle.plcx_simulate.specs.Programs.{programs_of, diagrams_in};
ghost use Rattle.plcx_tasks.specs.Orders.{IsPlan};
ghost use Rattle.plcx_ticks.specs.Ticks.{AreNamedApart};
ghost use Rattle.plcx_ticked.specs.Cycles.{Cycles};
ghost use Rattle.plcx_cycle.specs.Cycles.{IsCycled, WhyNotCycled};
ghost use Rattle.plcx_cycle.specs.Sides.{HasDiagram, WhyNotRun};

use crate::error::CycleError;
use crate::sides::{layouts_of, sides_of};
use plcx_check::Checked;
use plcx_io::Desk;
use plcx_plan::{TaskError, read_tasks};
use plcx_tasks::TaskPlan;
use plcx_ticked::{TicksError, ticked};
use plcx_words::TaskRun;
use plcx_xml::Node;
use std::alloc::Global;

/// The text of a plan's run over the file of ticks.
fn cycled<D: Desk>(
    alloc: Global,
    checked: &Checked,
    plan: &TaskPlan,
    run: &TaskRun<'_>,
    desk: &mut D,
) -> Result<Vec<u8>, CycleError>
    requires plan { IsPlan plan.now }
    requires names { AreNamedApart plan.now.instances }
    requires programs { Each (HasDiagram (diagrams_in checked.now)) plan.now.instances }
    ensures ok { IfOk result (λ text. Cycles (D.file desk.old run.now.ticks.now) (programs_of (diagrams_in checked.now)) run.now.turns plan.now text.items) }
    ensures err { IfErr result (WhyNotRun (D.file desk.old run.now.ticks.now)
        (Rose (D.faults desk.old run.now.ticks.now) (D.faults desk.new run.now.ticks.now)) (diagrams_in checked.now) plan.now) }
    ensures files { (other : List ℕ) → D.file desk.new other ≡ D.file desk.old other }
    ensures later { (other : List ℕ) → D.faults desk.old other ≤ D.faults desk.new other }
{
    let instances = plan.instances.as_slice();
    let layouts = layouts_of(alloc, checked, instances)?;
    let mut sides = sides_of(alloc, checked, instances, &layouts)?;
    match ticked(
        alloc, desk, plan, &layouts, &mut sides, run.ticks, run.turns,
    ) {
        Ok(text) => Ok(text),
        Err(TicksError::Read) => Err(CycleError::TicksRead),
        Err(TicksError::Row { row }) => Err(CycleError::Row { row }),
        Err(TicksError::NoMemory) => Err(CycleError::NoMemory),
    }
}

/// The text of what each instance of the resource of a file does, over the file of ticks; the root is that of the
/// checked project's tree.
pub fn cycle<D: Desk>(
    alloc: Global,
    root: &Node<'_>,
    checked: &Checked,
    run: &TaskRun<'_>,
    desk: &mut D,
) -> Result<Vec<u8>, CycleError>
    ensures ok { IfOk result (λ text. IsCycled (D.file desk.old) (out-Node root.now) checked.now.project (diagrams_in checked.now) (said_by_task_run run.now) text.items) }
    ensures err { IfErr result (WhyNotCycled (D.file desk.old) (Rose (D.faults desk.old run.now.ticks.now) (D.faults desk.new run.now.ticks.now))
        (out-Node root.now) checked.now.project (diagrams_in checked.now) (said_by_task_run run.now)) }
    ensures files { (other : List ℕ) → D.file desk.new other ≡ D.file desk.old other }
    ensures later { (other : List ℕ) → D.faults desk.old other ≤ D.faults desk.new other }
{
    match read_tasks(alloc, root, checked.project()) {
        Ok(plan) => cycled(alloc, checked, &plan, run, desk),
        Err(TaskError::Broken { kind, at }) => Err(CycleError::Tasks { kind, at }),
        Err(TaskError::NoMemory) => Err(CycleError::NoMemory),
    }
}

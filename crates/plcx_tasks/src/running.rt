//! Runs: the sides of the instances over the events of their resource.
ghost use Rattle.std.specs.Prelude.{◌≡◌, IfOk, OnOk, OnErr, Some, length, map, slice_get};
ghost use Rattle.plcx_types.specs.Lists.{Each};
ghost use Rattle.plcx_state.specs.Layouts.{all_meant};
ghost use Rattle.plcx_scan.specs.Events.{meant_event, CanBeNext, last_after};
ghost use Rattle.plcx_scan.specs.Sides.{Tells, Brings, HasLine};
ghost use Rattle.plcx_scan.specs.Rows.{shown_numbers};
ghost use Rattle.plcx_tasks.specs.Tasks.{own_events};
ghost use Rattle.plcx_tasks.specs.Orders.{IsPlan, AreRowPlaces};
ghost use Rattle.plcx_tasks.specs.Runs.{place_of, task_line, HasShown, IsTaskRow, HaveLines, AreBrought, AreBroughtSome, AreLast, CanRun};
ghost use Rattle.plcx_tasks.specs.Steps.{event_of, own_in, step_place, AreStepsWithin, CanStep};

use crate::planning::TaskPlan;
use crate::rows::{TaskRow, TaskTrace};
use crate::scheduling::{OwnEvent, Restart, Step, schedule};
use crate::ticking::TaskEvent;
use plcx_scan::{Outcome, Shown, Side};
use plcx_types::NoMemory;
use sqlite_items::Items;
use std::alloc::Global;

/// What an event is to a side; a scan has the whole budget of turns.
fn perform<S: Side>(side: &mut S, what: &OwnEvent, turns: u64) -> Outcome
    requires { CanBeNext (S.laid side.old).leaves (S.last side.old) (event_of what.now) }
    ensures outcome { Tells (S.machine side.old) turns (meant_event (S.laid side.old).leaves (event_of what.now)) (S.stands_for side.old) result }
    ensures meaning { Brings (S.machine side.old) turns (meant_event (S.laid side.old).leaves (event_of what.now)) (S.stands_for side.old) (S.stands_for side.new) }
    ensures machine { S.machine side.new ≡ S.machine side.old }
    ensures laid { S.laid side.new ≡ S.laid side.old }
    ensures time { S.last side.new ≡ last_after (S.last side.old) (event_of what.now) }
{
    match what {
        OwnEvent::Scan { time, inputs } => side.scan(*time, inputs.as_slice(), turns),
        OwnEvent::Again(Restart::Warm) => {
            side.warm();
            Outcome::Restarted
        }
        OwnEvent::Again(Restart::Cold) => {
            side.cold();
            Outcome::Restarted
        }
    }
}

/// A step, and the row of what it tells. Where memory is wanted for the row, the step is over all the same.
fn row_after<S: Side>(
    alloc: Global,
    side: &mut S,
    shown: &Shown,
    step: &Step,
    turns: u64,
) -> Result<TaskRow, NoMemory>
    requires event { CanBeNext (S.laid side.old).leaves (S.last side.old) (event_of step.now.what) }
    requires shown { shown.now ≡ shown_numbers (S.laid side.old).leaves }
    requires layout { all_meant (S.laid side.old).leaves ≡ (S.machine side.old).layout }
    ensures place { IfOk result (λ row. place_of row ≡ step_place step.now) }
    ensures line { IfOk result (λ row. HasLine (S.machine side.old) turns (meant_event (S.laid side.old).leaves (event_of step.now.what)) (S.stands_for side.old) (task_line row)) }
    ensures values { IfOk result (λ row. HasShown (S.laid side.old).leaves row) }
    ensures meaning { Brings (S.machine side.old) turns (meant_event (S.laid side.old).leaves (event_of step.now.what)) (S.stands_for side.old) (S.stands_for side.new) }
    ensures machine { S.machine side.new ≡ S.machine side.old }
    ensures laid { S.laid side.new ≡ S.laid side.old }
    ensures time { S.last side.new ≡ last_after (S.last side.old) (event_of step.now.what) }
{
    let outcome = perform(side, &step.what, turns);
    let row = shown.row(alloc, outcome, side.values())?;
    Ok(TaskRow {
        event: step.event,
        instance: step.instance,
        outcome: row.outcome,
        values: row.values,
    })
}

/// The shown leaves of the sides.
fn shown_of<S: Side>(alloc: Global, sides: &[S]) -> Result<Vec<Shown>, NoMemory>
    ensures shown { IfOk result (λ all. all.items ≡ map (λ (s : S). shown_numbers (S.laid s).leaves) sides.now) }
    ensures layout { OnOk result (Each (λ (s : S). all_meant (S.laid s).leaves ≡ (S.machine s).layout) sides.now) }
{
    let mut all = Vec::new(alloc);
    for side in sides {
        all.push(Shown::of(alloc, side.layout())?)?;
    }
    Ok(all)
}

/// Each step in turn, and a row for each.
fn run_steps<S: Side>(
    alloc: Global,
    sides: &mut [S],
    shown: &[Shown],
    steps: &[Step],
    turns: u64,
) -> Result<Vec<TaskRow>, NoMemory>
    requires within { Each (AreStepsWithin (length sides.old)) steps.now }
    requires shown { shown.now ≡ map (λ (s : S). shown_numbers (S.laid s).leaves) sides.old }
    requires layout { Each (λ (s : S). all_meant (S.laid s).leaves ≡ (S.machine s).layout) sides.old }
    requires follow { CanStep S.laid S.last sides.old steps.now }
    ensures places { IfOk result (λ rows. map place_of rows.items ≡ map step_place steps.now) }
    ensures lines { IfOk result (λ rows. HaveLines S.machine S.laid S.stands_for turns sides.old (own_in steps.now) rows.items) }
    ensures rows { IfOk result (λ rows. Each (IsTaskRow (map S.laid sides.old)) rows.items) }
    ensures meaning { OnOk result (AreBrought S.machine S.laid S.stands_for turns sides.old sides.new (own_in steps.now)) }
    ensures stopped { OnErr result (AreBroughtSome S.machine S.laid S.stands_for turns sides.old sides.new (own_in steps.now)) }
    ensures machines { map S.machine sides.new ≡ map S.machine sides.old }
    ensures laid { map S.laid sides.new ≡ map S.laid sides.old }
    ensures time { OnOk result (AreLast S.laid S.last sides.old sides.new (own_in steps.now)) }
{
    let mut rows = Vec::new(alloc);
    for step in steps {
        let i = step.instance as usize;
        let row = row_after(alloc, &mut sides[i], &shown[i], step, turns)?;
        rows.push(row)?;
    }
    Ok(rows)
}

/// Each event in turn, for the sides of a plan's instances, and the rows of each. A tick runs the instances of the due
/// tasks, halted ones included; each scan has the whole budget of turns.
pub fn run_tasks<S: Side>(
    alloc: Global,
    plan: &TaskPlan,
    sides: &mut [S],
    events: &[TaskEvent],
    turns: u64,
) -> Result<TaskTrace, NoMemory>
    requires plan { IsPlan plan.now }
    requires sides { length sides.old ≡ length plan.now.instances }
    requires events { CanRun S.laid S.last sides.old events.now }
    ensures places { IfOk result (λ trace. AreRowPlaces plan.now events.now (map place_of trace.rows)) }
    ensures lines { IfOk result (λ trace. HaveLines S.machine S.laid S.stands_for turns sides.old (own_events plan.now events.now) trace.rows) }
    ensures rows { IfOk result (λ trace. Each (IsTaskRow (map S.laid sides.old)) trace.rows) }
    ensures meaning { OnOk result (AreBrought S.machine S.laid S.stands_for turns sides.old sides.new (own_events plan.now events.now)) }
    ensures stopped { OnErr result (AreBroughtSome S.machine S.laid S.stands_for turns sides.old sides.new (own_events plan.now events.now)) }
    ensures machines { map S.machine sides.new ≡ map S.machine sides.old }
    ensures laid { map S.laid sides.new ≡ map S.laid sides.old }
    ensures time { OnOk result (AreLast S.laid S.last sides.old sides.new (own_events plan.now events.now)) }
{
    let steps = schedule(alloc, plan, events)?;
    let shown = shown_of(alloc, sides)?;
    let rows = run_steps(alloc, sides, &shown, &steps, turns)?;
    Ok(TaskTrace {
        rows: Items::from_vec(rows),
    })
}

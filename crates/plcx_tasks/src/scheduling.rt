//! What the events of a resource are to its instances, as one list of steps.
ghost use Rattle.std.specs.Prelude.{◌≡◌, ◌<◌, ◌++◌, ◌^◌, List, [], IfOk, OnOk, length, map};
ghost use Rattle.std.specs.List.{flat_map};
ghost use Rattle.plcx_types.specs.Lists.{Each};
ghost use Rattle.plcx_tasks.specs.declared.ticking.TaskEvent.{TaskEvent};
ghost use Rattle.plcx_tasks.specs.declared.ticking.TaskEvent.TheVariants.{Tick};
ghost use Rattle.plcx_tasks.specs.Orders.{ranks_of, IsInOrder};
ghost use Rattle.plcx_tasks.specs.Steps.{restart_at, restart_event, scan_of, Keeps, Leads, LeadsIn, IsLed, AreWithin, IsGivenWithin, IsEventWithin, AreSteps};

use crate::clocking::{Clock, clocks_after, due_at, stopped_clocks};
use crate::giving::{Pending, clear_due, none_pending, take_inputs};
use crate::planning::TaskPlan;
use crate::ranking::{Rank, in_order, is_set, ranks_of};
use crate::ticking::{TaskEvent, TaskInput};
use plcx_scan::Input;
use plcx_types::NoMemory;
use sqlite_items::Items;
use std::alloc::Global;

/// A restart: what isn't retained begins again, or all does.
#[derive(Clone, Copy, Debug, PartialEq, Eq)]
pub(crate) enum Restart {
    Warm,
    Cold,
}

/// What an event is to an instance.
#[derive(Debug, Drop)]
pub(crate) enum OwnEvent {
    Scan { time: i64, inputs: Items<Input> },
    Again(Restart),
}

/// What an event is to the instance at a place. Events are numbered from 1.
#[derive(Debug, Drop)]
pub(crate) struct Step {
    pub event: u64,
    pub instance: u32,
    pub what: OwnEvent,
}

/// What is kept from one event to the next: when tasks ran last, and what is given to instances.
#[derive(Drop)]
pub(crate) struct Standing {
    pub clocks: Vec<Clock>,
    pub pending: Vec<Pending>,
}

/// The ranks of all instances, by their places and in order.
#[derive(Drop)]
pub(crate) struct Ranks {
    pub all: Vec<Rank>,
    pub order: Vec<Rank>,
}

/// A tick: its number among the events, and its time in milliseconds.
#[derive(Clone, Copy, Debug)]
struct Moment {
    event: u64,
    time: i64,
}

/// The scan of an instance at a tick, if its task is due.
fn push_scan(
    alloc: Global,
    steps: &mut Vec<Step>,
    pending: &[Pending],
    due: &[bool],
    moment: Moment,
    rank: Rank,
) -> Result<(), NoMemory>
    requires { rank.instance < length pending.now }
    ensures { OnOk result (steps.new.items ≡ steps.old.items ++ scan_of due.now pending.now moment.event moment.time rank) }
{
    if is_set(due, rank.task) {
        let inputs = pending[rank.instance as usize].inputs(alloc)?;
        steps.push(Step {
            event: moment.event,
            instance: rank.instance,
            what: OwnEvent::Scan {
                time: moment.time,
                inputs,
            },
        })?;
    }
    Ok(())
}

/// The scans of a tick, in order.
fn push_scans(
    alloc: Global,
    steps: &mut Vec<Step>,
    pending: &[Pending],
    due: &[bool],
    moment: Moment,
    order: &[Rank],
) -> Result<(), NoMemory>
    requires { Each (AreWithin (length pending.now)) order.now }
    ensures { OnOk result (steps.new.items ≡ steps.old.items ++ flat_map (scan_of due.now pending.now moment.event moment.time) order.now) }
{
    for rank in order {
        push_scan(alloc, steps, pending, due, moment, *rank)?;
    }
    Ok(())
}

/// The restarts of all instances.
fn push_restarts(
    steps: &mut Vec<Step>,
    event: u64,
    restart: Restart,
    ranks: &[Rank],
) -> Result<(), NoMemory>
    ensures { OnOk result (steps.new.items ≡ steps.old.items ++ map (restart_at event restart) ranks.now) }
{
    for rank in ranks {
        steps.push(Step {
            event,
            instance: rank.instance,
            what: OwnEvent::Again(restart),
        })?;
    }
    Ok(())
}

/// What is kept before the first event, and after a restart.
fn begun(alloc: Global, plan: &TaskPlan) -> Result<Standing, NoMemory>
    ensures { IfOk result (λ s. Keeps plan.now [] s.clocks.items s.pending.items) }
{
    Ok(Standing {
        clocks: stopped_clocks(alloc, plan.tasks.as_slice())?,
        pending: none_pending(alloc, plan.instances.len())?,
    })
}

/// The steps of a tick.
fn tick(
    alloc: Global,
    steps: &mut Vec<Step>,
    standing: &mut Standing,
    ranks: &Ranks,
    moment: Moment,
    inputs: &[TaskInput],
) -> Result<(), NoMemory>
    requires order { Each (AreWithin (length standing.old.pending.items)) ranks.now.order.items }
    requires all { Each (AreWithin (length standing.old.pending.items)) ranks.now.all.items }
    requires inputs { Each (IsGivenWithin (length standing.old.pending.items)) inputs.now }
    ensures { OnOk result (Leads ranks.now.all.items ranks.now.order.items moment.event (Tick moment.time inputs.now)
        standing.old.clocks.items standing.old.pending.items standing.new.clocks.items standing.new.pending.items steps.old.items steps.new.items) }
{
    take_inputs(&mut standing.pending, inputs)?;
    let due = due_at(alloc, &standing.clocks, moment.time)?;
    push_scans(alloc, steps, &standing.pending, &due, moment, &ranks.order)?;
    clear_due(&mut standing.pending, &due, &ranks.all);
    let clocks = clocks_after(alloc, &standing.clocks, moment.time)?;
    standing.clocks = clocks;
    Ok(())
}

/// The steps of a restart.
fn again(
    alloc: Global,
    plan: &TaskPlan,
    steps: &mut Vec<Step>,
    standing: &mut Standing,
    ranks: &Ranks,
    event: u64,
    restart: Restart,
) -> Result<(), NoMemory>
    ensures { OnOk result (LeadsIn plan.now ranks.now.all.items ranks.now.order.items event (restart_event restart)
        standing.old.clocks.items standing.old.pending.items standing.new.clocks.items standing.new.pending.items steps.old.items steps.new.items) }
{
    push_restarts(steps, event, restart, &ranks.all)?;
    let fresh = begun(alloc, plan)?;
    *standing = fresh;
    Ok(())
}

/// The steps of an event.
fn push_event(
    alloc: Global,
    plan: &TaskPlan,
    steps: &mut Vec<Step>,
    standing: &mut Standing,
    ranks: &Ranks,
    number: u64,
    event: &TaskEvent,
) -> Result<(), NoMemory>
    requires order { Each (AreWithin (length standing.old.pending.items)) ranks.now.order.items }
    requires all { Each (AreWithin (length standing.old.pending.items)) ranks.now.all.items }
    requires inputs { IsEventWithin (length standing.old.pending.items) event.now }
    requires plan { ranks.now.all.items ≡ ranks_of plan.now }
    ensures { OnOk result ((before : List TaskEvent) → IsInOrder plan.now ranks.now.order.items → Keeps plan.now before standing.old.clocks.items standing.old.pending.items
        → IsLed plan.now ranks.now.order.items number before event.now standing.new.clocks.items standing.new.pending.items steps.old.items steps.new.items) }
{
    match event {
        TaskEvent::Tick { time, inputs } => {
            let moment = Moment {
                event: number,
                time: *time,
            };
            tick(alloc, steps, standing, ranks, moment, inputs.as_slice())
        }
        TaskEvent::Warm => again(alloc, plan, steps, standing, ranks, number, Restart::Warm),
        TaskEvent::Cold => again(alloc, plan, steps, standing, ranks, number, Restart::Cold),
    }
}

fn ranked(alloc: Global, plan: &TaskPlan) -> Result<Ranks, NoMemory>
    requires { length plan.now.instances < 2 ^ 32 }
    ensures all { IfOk result (λ ranks. ranks.all.items ≡ ranks_of plan.now) }
    ensures order { IfOk result (λ ranks. IsInOrder plan.now ranks.order.items) }
{
    Ok(Ranks {
        all: ranks_of(alloc, plan)?,
        order: in_order(alloc, plan)?,
    })
}

/// What events are to the instances of a plan, in order.
pub(crate) fn schedule(
    alloc: Global,
    plan: &TaskPlan,
    events: &[TaskEvent],
) -> Result<Vec<Step>, NoMemory>
    requires few { length plan.now.instances < 2 ^ 32 }
    requires inputs { Each (IsEventWithin (length plan.now.instances)) events.now }
    ensures { IfOk result (λ steps. AreSteps plan.now events.now steps.items) }
{
    let ranks = ranked(alloc, plan)?;
    let mut standing = begun(alloc, plan)?;
    let mut steps = Vec::new(alloc);
    for (place, event) in events.iter().enumerate() {
        let number = place as u64 + 1;
        push_event(
            alloc,
            plan,
            &mut steps,
            &mut standing,
            &ranks,
            number,
            event,
        )?;
    }
    Ok(steps)
}

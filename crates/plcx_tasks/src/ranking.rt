//! The order in which a tick runs instances.
ghost use Rattle.std.specs.Prelude.{◌≡◌, ◌<◌, ◌^◌, IfOk, length, slice_get, IsPermutation, IsSorted};
ghost use Rattle.plcx_tasks.specs.Orders.{priority_in, rank_of, ranks_of, rank_cmp, IsInOrder};
ghost use Rattle.plcx_tasks.specs.Steps.{is_set};

use crate::planning::{Instance, Task, TaskPlan};
use plcx_types::NoMemory;
use std::alloc::Global;

/// What an instance is ranked by: the priority of its task, the place of that task, and its own place.
#[derive(Clone, Copy, Debug, PartialEq, Eq, PartialOrd, Ord)]
pub(crate) struct Rank {
    pub priority: u32,
    pub task: u32,
    pub instance: u32,
}

/// Whether the flag at a place is set.
pub(crate) fn is_set(flags: &[bool], place: u32) -> bool
    ensures { result ≡ is_set (slice_get flags.now place) }
{
    match flags.get(place as usize) {
        None => false,
        Some(flag) => *flag,
    }
}

fn priority_at(tasks: &[Task], place: u32) -> u32
    ensures { result ≡ priority_in (slice_get tasks.now place) }
{
    match tasks.get(place as usize) {
        None => 0,
        Some(task) => task.priority,
    }
}

fn rank_of(tasks: &[Task], number: u32, instance: &Instance) -> Rank
    ensures { result ≡ rank_of tasks.now number instance.now }
{
    Rank {
        priority: priority_at(tasks, instance.task),
        task: instance.task,
        instance: number,
    }
}

/// The ranks of all instances of a plan, by their places.
pub(crate) fn ranks_of(alloc: Global, plan: &TaskPlan) -> Result<Vec<Rank>, NoMemory>
    requires { length plan.now.instances < 2 ^ 32 }
    ensures { IfOk result (λ ranks. ranks.items ≡ ranks_of plan.now) }
{
    let mut ranks = Vec::new(alloc);
    for (number, instance) in plan.instances.as_slice().iter().enumerate() {
        ranks.push(rank_of(plan.tasks.as_slice(), number as u32, instance))?;
    }
    Ok(ranks)
}

fn sorted(ranks: Vec<Rank>) -> Vec<Rank>
    ensures same { IsPermutation ranks.items result.items }
    ensures sorted { IsSorted rank_cmp result.items }
{
    let mut ranks = ranks;
    ranks.sort_unstable();
    ranks
}

/// The instances of a plan in the order of their ranks.
pub(crate) fn in_order(alloc: Global, plan: &TaskPlan) -> Result<Vec<Rank>, NoMemory>
    requires { length plan.now.instances < 2 ^ 32 }
    ensures { IfOk result (λ order. IsInOrder plan.now order.items) }
{
    Ok(sorted(ranks_of(alloc, plan)?))
}

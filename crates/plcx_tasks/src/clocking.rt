//! When tasks ran last.
ghost use Rattle.std.specs.Prelude.{◌≡◌, ◌-ℤ◌, int_le, [], map, IfOk};
ghost use Rattle.plcx_tasks.specs.Steps.{clock_at, is_clock_due, clock_after};

use crate::planning::Task;
use std::alloc::{AllocError, Global};

/// The interval of a task, and the time of its last run since the start or the last restart.
#[derive(Clone, Copy, Debug)]
pub(crate) struct Clock {
    interval: i64,
    last: Option<i64>,
}

/// How long one time is behind another.
fn span(last: i64, time: i64) -> i128
    ensures { result ≡ time -ℤ last }
{
    i128::from(time) - i128::from(last)
}

fn is_within(interval: i64, span: i128) -> bool
    ensures { result ≡ int_le interval span }
{
    i128::from(interval) <= span
}

impl Clock {
    fn is_due(self, time: i64) -> bool
        ensures { result ≡ is_clock_due time self }
    {
        match self.last {
            None => true,
            Some(last) => is_within(self.interval, span(last, time)),
        }
    }

    fn after(self, time: i64) -> Clock
        ensures { result ≡ clock_after time self }
    {
        if self.is_due(time) {
            Clock {
                last: Some(time),
                ..self
            }
        } else {
            self
        }
    }
}

fn stopped(task: &Task) -> Clock
    ensures { result ≡ clock_at [] task.now }
{
    Clock {
        interval: task.interval,
        last: None,
    }
}

/// The clocks of tasks that haven't run.
pub(crate) fn stopped_clocks(alloc: Global, tasks: &[Task]) -> Result<Vec<Clock>, AllocError>
    ensures { IfOk result (λ clocks. clocks.items ≡ map (clock_at []) tasks.now) }
{
    tasks.iter().map(|task| stopped(task)).collect(alloc)
}

/// Which of the tasks are due at a tick.
pub(crate) fn due_at(alloc: Global, clocks: &[Clock], time: i64) -> Result<Vec<bool>, AllocError>
    ensures { IfOk result (λ due. due.items ≡ map (is_clock_due time) clocks.now) }
{
    clocks.iter().map(|clock| clock.is_due(time)).collect(alloc)
}

/// The clocks after a tick.
pub(crate) fn clocks_after(
    alloc: Global,
    clocks: &[Clock],
    time: i64,
) -> Result<Vec<Clock>, AllocError>
    ensures { IfOk result (λ after. after.items ≡ map (clock_after time) clocks.now) }
{
    clocks.iter().map(|clock| clock.after(time)).collect(alloc)
}

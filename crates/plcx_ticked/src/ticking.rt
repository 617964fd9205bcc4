//! The text of a plan's run over the events of a file.
ghost use Rattle.std.specs.Prelude.{◌≡◌, ◌≤◌, ℕ, List, Option, IfOk, IfErr, OnOk, length, map};
ghost use Rattle.plcx_io.specs.Counts.{Rose};
ghost use Rattle.plcx_types.specs.Lists.{Each};
ghost use Rattle.plcx_tasks.specs.Orders.{IsPlan};
ghost use Rattle.plcx_tasks.specs.Tasks.{AreTicks};
ghost use Rattle.plcx_ticks.specs.Ticks.{AreNamedApart, HasPlainLeaves, meant_lays};
ghost use Rattle.plcx_traced.specs.Files.{IsLoaded};
ghost use Rattle.plcx_ticked.specs.Files.{AreRows, HasRowsIn, IsTicked, WhyNotTicked};

use crate::error::TicksError;
use plcx_io::{Desk, LoadError, load};
use plcx_scan::{EventError, Side};
use plcx_state::Layout;
use plcx_tasks::{TaskEvent, TaskPlan, TaskTrace, run_tasks};
use plcx_ticks::{read_ticks, task_text};
use plcx_types::NoMemory;
use plcx_types::limits::MAX_FILE_BYTES;
use std::alloc::Global;

/// The rows of events.
fn rows_of<S: Side>(
    alloc: Global,
    plan: &TaskPlan,
    sides: &mut [S],
    events: &[TaskEvent],
    turns: u64,
) -> Result<TaskTrace, NoMemory>
    requires plan { IsPlan plan.now }
    requires sides { length sides.old ≡ length plan.now.instances }
    requires time { Each (λ (s : S). S.last s ≡ 0) sides.old }
    requires events { AreTicks (map S.laid sides.old) 0 events.now }
    ensures { IfOk result (λ trace. AreRows S.machine S.laid S.stands_for turns plan.now sides.old events.now trace.rows) }
{
    run_tasks(alloc, plan, sides, events, turns)
}

/// The text of the rows of events.
fn text_of<S: Side>(
    alloc: Global,
    plan: &TaskPlan,
    layouts: &[Layout],
    sides: &mut [S],
    events: &[TaskEvent],
    turns: u64,
) -> Result<Vec<u8>, NoMemory>
    requires plan { IsPlan plan.now }
    requires sides { length sides.old ≡ length plan.now.instances }
    requires leaves { meant_lays (map S.laid sides.old) ≡ meant_lays layouts.now }
    requires time { Each (λ (s : S). S.last s ≡ 0) sides.old }
    requires events { AreTicks layouts.now 0 events.now }
    ensures { IfOk result (λ text. HasRowsIn S.machine S.laid S.stands_for turns plan.now layouts.now sides.old events.now text.items) }
{
    let trace = rows_of(alloc, plan, sides, events, turns)?;
    task_text(alloc, plan, layouts, &trace)
}

/// The text of a run over the events of a file with these bytes.
fn ticked_in<S: Side>(
    alloc: Global,
    plan: &TaskPlan,
    layouts: &[Layout],
    sides: &mut [S],
    bytes: &[u8],
    turns: u64,
) -> Result<Vec<u8>, TicksError>
    requires plan { IsPlan plan.now }
    requires names { AreNamedApart plan.now.instances }
    requires sides { length sides.old ≡ length plan.now.instances }
    requires leaves { meant_lays (map S.laid sides.old) ≡ meant_lays layouts.now }
    requires time { Each (λ (s : S). S.last s ≡ 0) sides.old }
    ensures ok { IfOk result (λ text. (told : Option (List ℕ)) → IsLoaded told bytes.now
        → IsTicked S.machine S.laid S.stands_for told turns plan.now layouts.now sides.old text.items) }
    ensures plain { OnOk result (Each HasPlainLeaves layouts.now) }
    ensures err { IfErr result (λ e. (told : Option (List ℕ)) → IsLoaded told bytes.now → WhyNotTicked told ⊥ plan.now layouts.now e) }
{
    match read_ticks(alloc, plan, layouts, bytes) {
        Ok(events) => Ok(text_of(alloc, plan, layouts, sides, &events, turns)?),
        Err(EventError::Row { row }) => Err(TicksError::Row { row }),
        Err(EventError::NoMemory) => Err(TicksError::NoMemory),
    }
}

/// The text of a run of a plan's sides, before their first event, over the events of a file.
pub fn ticked<D: Desk, S: Side>(
    alloc: Global,
    desk: &mut D,
    plan: &TaskPlan,
    layouts: &[Layout],
    sides: &mut [S],
    ticks: &str,
    turns: u64,
) -> Result<Vec<u8>, TicksError>
    requires plan { IsPlan plan.now }
    requires names { AreNamedApart plan.now.instances }
    requires sides { length sides.old ≡ length plan.now.instances }
    requires leaves { meant_lays (map S.laid sides.old) ≡ meant_lays layouts.now }
    requires time { Each (λ (s : S). S.last s ≡ 0) sides.old }
    ensures ok { IfOk result (λ text.
        IsTicked S.machine S.laid S.stands_for (D.file desk.old ticks.now) turns plan.now layouts.now sides.old text.items) }
    ensures plain { OnOk result (Each HasPlainLeaves layouts.now) }
    ensures err { IfErr result (WhyNotTicked (D.file desk.old ticks.now)
        (Rose (D.faults desk.old ticks.now) (D.faults desk.new ticks.now)) plan.now layouts.now) }
    ensures files { (other : List ℕ) → D.file desk.new other ≡ D.file desk.old other }
    ensures later { (other : List ℕ) → D.faults desk.old other ≤ D.faults desk.new other }
{
    match load(alloc, desk, ticks, MAX_FILE_BYTES) {
        Ok(bytes) => ticked_in(alloc, plan, layouts, sides, &bytes, turns),
        Err(LoadError::Read) => Err(TicksError::Read),
        Err(LoadError::TooLong { limit: _ }) => Err(TicksError::Row { row: 0 }),
        Err(LoadError::NoMemory) => Err(TicksError::NoMemory),
    }
}

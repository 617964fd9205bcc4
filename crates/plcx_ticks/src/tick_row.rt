//! The other records of a file of ticks: ticks and restarts.
ghost use Rattle.std.specs.Prelude.{◌≡◌, ◌+◌, ◌++◌, Some, None, IfOk, length, drop, option_map, if◌then◌else◌};
ghost use Rattle.plcx_tasks.specs.Tasks.{tick_after};
ghost use Rattle.plcx_ticks.specs.ReadTicks.{field_inputs, inputs_of, tick_event, restart_event, row_event};

use crate::column::TickColumn;
use plcx_scan::{Record, read_time};
use plcx_tasks::{TaskEvent, TaskInput};
use plcx_types::{NoMemory, read_value};
use sqlite_items::Items;
use std::alloc::Global;

/// Takes the input of a field, if it gives one; not where it has something that is no value of the leaf.
fn push_input(
    inputs: &mut Vec<TaskInput>,
    column: TickColumn,
    field: &[u8],
) -> Result<bool, NoMemory>
    ensures { IfOk result (λ went. option_map (λ some. inputs.old.items ++ some) (field_inputs column field.now) ≡ (if went then Some inputs.new.items else None)) }
{
    if field.is_empty() {
        return Ok(true);
    }
    let Ok(value) = read_value(column.ty, field) else {
        return Ok(false);
    };
    inputs.push(TaskInput {
        instance: column.instance,
        leaf: column.leaf,
        value,
    })?;
    Ok(true)
}

/// The inputs of the fields of a tick; none where one has something that is no value of its leaf.
fn read_inputs(
    alloc: Global,
    columns: &[TickColumn],
    row: &Record,
) -> Result<Option<Vec<TaskInput>>, NoMemory>
    requires { length row.now ≡ length columns.now + 2 }
    ensures { IfOk result (λ inputs. option_map (λ is. is.items) inputs ≡ inputs_of columns.now (drop 2 row.now)) }
{
    let mut inputs = Vec::new(alloc);
    for i in 0..columns.len() {
        let went = push_input(&mut inputs, columns[i], row.field(i + 2))?;
        if !went {
            return Ok(None);
        }
    }
    Ok(Some(inputs))
}

/// A tick, if its time is not before the last one, and each field is empty or a value.
#[tactic(auto, unfolding(crate::specs::ReadTicks::tick_event))]
fn read_tick(
    alloc: Global,
    columns: &[TickColumn],
    last: u64,
    row: &Record,
) -> Result<Option<TaskEvent>, NoMemory>
    requires { length row.now ≡ length columns.now + 2 }
    ensures { IfOk result (λ event. event ≡ tick_event columns.now last row.now) }
{
    let Some(time) = read_time(row.field(1)) else {
        return Ok(None);
    };
    if time < last {
        return Ok(None);
    }
    let Some(inputs) = read_inputs(alloc, columns, row)? else {
        return Ok(None);
    };
    Ok(Some(TaskEvent::Tick {
        time: time as i64,
        inputs: Items::from_vec(inputs),
    }))
}

/// A restart, if there is nothing behind its word.
#[tactic(auto, unfolding(crate::specs::ReadTicks::restart_event))]
fn read_restart(row: &Record) -> Option<TaskEvent>
    ensures { result ≡ restart_event row.now }
{
    if !row.is_word_alone() {
        None
    } else if row.has_word(0, b"warm") {
        Some(TaskEvent::Warm)
    } else if row.has_word(0, b"cold") {
        Some(TaskEvent::Cold)
    } else {
        None
    }
}

/// The event that a record stands for, where the last tick was at this time.
#[tactic(auto, unfolding(crate::specs::ReadTicks::row_event))]
pub(crate) fn read_row(
    alloc: Global,
    columns: &[TickColumn],
    last: u64,
    row: &Record,
) -> Result<Option<TaskEvent>, NoMemory>
    ensures { IfOk result (λ event. event ≡ row_event columns.now last row.now) }
{
    if row.len() != columns.len() + 2 {
        return Ok(None);
    }
    if row.has_word(0, b"tick") {
        return read_tick(alloc, columns, last, row);
    }
    Ok(read_restart(row))
}

/// The time of the last tick after an event.
pub(crate) fn tick_after(last: u64, event: &TaskEvent) -> u64
    ensures { result ≡ tick_after last event.now }
{
    match event {
        TaskEvent::Tick { time, inputs: _ } => time.unsigned_abs(),
        TaskEvent::Warm | TaskEvent::Cold => last,
    }
}

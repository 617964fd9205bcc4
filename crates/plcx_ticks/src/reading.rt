//! Files of ticks: a header with the names of settable leaves of instances, and a record for each event.
ghost use Rattle.std.specs.Prelude.{◌≡◌, ◌<◌, ◌≤◌, ◌^◌, Some, IfOk, IfErr, OnOk, length};
ghost use Rattle.plcx_types.specs.Lists.{Each};
ghost use Rattle.plcx_tasks.specs.Orders.{IsPlan};
ghost use Rattle.plcx_tasks.specs.Tasks.{AreTicks};
ghost use Rattle.plcx_ticks.specs.Ticks.{AreNamedApart, StandsForTicks, HasPlainLeaves, meant_lays};
ghost use Rattle.plcx_ticks.specs.ReadTicks.{tables_of, IsTable, rows_events, records_events, WhyNotRows, WhyNotRead};
ghost use Rattle.plcx_ticks.specs.Errors.{WhyNotTicks};

use crate::column::{TickColumn, columns_of};
use crate::tick_row::{read_row, tick_after};
use plcx_scan::{EventError, Record, Records};
use plcx_state::{Layout, PathTable};
use plcx_tasks::{Instance, TaskEvent, TaskPlan};
use plcx_types::NoMemory;
use std::alloc::Global;

/// The tables of the names of the instances' leaves.
fn tables_of<'a>(alloc: Global, layouts: &'a [Layout]) -> Result<Vec<PathTable<'a>>, NoMemory>
    ensures leaves { IfOk result (λ tables. tables.items ≡ tables_of layouts.entry.now) }
    ensures tables { IfOk result (λ tables. Each IsTable tables.items) }
{
    let mut tables = Vec::new(alloc);
    for layout in layouts {
        tables.push(PathTable::of(alloc, layout)?)?;
    }
    Ok(tables)
}

/// The events that the records behind a header stand for.
fn read_rows(
    alloc: Global,
    columns: &[TickColumn],
    records: &mut Records<'_>,
    row: &mut Record,
) -> Result<Vec<TaskEvent>, EventError>
    ensures ok { IfOk result (λ events. rows_events columns.now 0 records.old ≡ Some events.items) }
    ensures err { IfErr result (WhyNotRows columns.now records.old) }
{
    let mut events = Vec::new(alloc);
    let mut last = 0;
    'rows: while records.read(row)? {
        let Some(event) = read_row(alloc, columns, last, row)? else {
            return Err(EventError::Row {
                row: events.len() as u64 + 2,
            });
        };
        last = tick_after(last, &event);
        events.push(event)?;
    }
    Ok(events)
}

/// The events that records stand for, of which the first is a header.
fn read_records(
    alloc: Global,
    instances: &[Instance],
    tables: &[PathTable<'_>],
    records: &mut Records<'_>,
) -> Result<Vec<TaskEvent>, EventError>
    requires tables { Each IsTable tables.now }
    requires few { length instances.now < 2 ^ 32 }
    ensures some { OnOk result (1 ≤ length records.old) }
    ensures ok { IfOk result (λ events. records_events instances.now tables.now records.old ≡ Some events.items) }
    ensures err { IfErr result (WhyNotRead instances.now tables.now records.old) }
{
    let mut row = Record::new(alloc);
    if !records.read(&mut row)? {
        return Err(EventError::Row { row: 1 });
    }
    let Some(columns) = columns_of(alloc, instances, tables, &row)? else {
        return Err(EventError::Row { row: 1 });
    };
    Ok(read_rows(alloc, &columns, records, &mut row)?)
}

/// The events that a file stands for, for the instances of a plan with these layouts.
pub fn read_ticks(
    alloc: Global,
    plan: &TaskPlan,
    layouts: &[Layout],
    bytes: &[u8],
) -> Result<Vec<TaskEvent>, EventError>
    requires plan { IsPlan plan.now }
    requires names { AreNamedApart plan.now.instances }
    ensures ok { IfOk result (λ events. StandsForTicks plan.now (meant_lays layouts.now) bytes.now events.items) }
    ensures follow { IfOk result (λ events. AreTicks layouts.now 0 events.items) }
    ensures plain { OnOk result (Each HasPlainLeaves layouts.now) }
    ensures err { IfErr result (WhyNotTicks plan.now (meant_lays layouts.now) bytes.now) }
{
    let tables = tables_of(alloc, layouts)?;
    let mut records = Records::of(alloc, bytes);
    Ok(read_records(alloc, plan.instances.as_slice(), &tables, &mut records)?)
}

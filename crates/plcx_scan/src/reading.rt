//! Event files: a header with the names of settable leaves, and a record for each event.
ghost use Rattle.std.specs.Prelude.{◌≡◌, ◌<◌, ◌≤◌, ◌^◌, Some, None, IfOk, IfErr, OnOk, length};
ghost use Rattle.plcx_types.specs.Lists.{Each};
ghost use Rattle.plcx_state.specs.Layouts.{all_meant};
ghost use Rattle.plcx_state.specs.Tables.{HasPlainNames};
ghost use Rattle.plcx_scan.specs.Events.{meant_events, CanFollow};
ghost use Rattle.plcx_scan.specs.Files.{RecordsStandFor, StandsForEvents};
ghost use Rattle.plcx_scan.specs.ReadFiles.{rows_events, CanTell, WhyNotRows};
ghost use Rattle.plcx_scan.specs.Errors.{WhyNotRecords, WhyNotEvents};

use crate::column::{Column, columns_of};
use crate::event::Events;
use crate::event_row::read_row;
use crate::record::{Record, Records};
use plcx_state::{Layout, PathTable};
use plcx_types::NoMemory;
use std::alloc::{AllocError, AllocFailed, Global};

/// Why bytes gave no events: the number of the first record that is wrong, from 1, or want of memory.
#[derive(Clone, Copy, Debug, PartialEq, Eq)]
pub enum EventError {
    Row { row: u64 },
    NoMemory,
}

impl From<NoMemory> for EventError {
    ghost use Rattle.plcx_scan.specs.declared.reading.EventError.TheVariants.{NoMemory};

    ghost from_gives = { λ _ e. e ≡ NoMemory };

    fn from(_: NoMemory) -> EventError {
        EventError::NoMemory
    }
}

impl From<AllocError> for EventError {
    ghost use Rattle.plcx_scan.specs.declared.reading.EventError.TheVariants.{NoMemory};

    ghost from_gives = { λ _ e. e ≡ NoMemory };

    fn from(_: AllocError) -> EventError {
        EventError::NoMemory
    }
}

impl<T: Drop> From<AllocFailed<T>> for EventError {
    ghost use Rattle.plcx_scan.specs.declared.reading.EventError.TheVariants.{NoMemory};

    ghost from_gives = { λ _ e. e ≡ NoMemory };

    fn from(_: AllocFailed<T>) -> EventError {
        EventError::NoMemory
    }
}

/// The events that the records behind a header stand for.
fn read_rows(
    alloc: Global,
    columns: &[Column],
    records: &mut Records<'_>,
    row: &mut Record,
) -> Result<Events, EventError>
    ensures ok { IfOk result (λ events. rows_events columns.now 0 records.old ≡ Some events) }
    ensures err { IfErr result (WhyNotRows columns.now records.old) }
{
    let mut entries = Vec::new(alloc);
    let mut inputs = Vec::new(alloc);
    let mut last = 0;
    'rows: while records.read(row)? {
        let Some(entry) = read_row(&mut inputs, columns, last, row)? else {
            return Err(EventError::Row {
                row: entries.len() as u64 + 2,
            });
        };
        last = entry.last_after(last);
        entries.push(entry)?;
    }
    Ok(Events { entries, inputs })
}

fn read_records(
    alloc: Global,
    table: &PathTable,
    records: &mut Records<'_>,
) -> Result<Events, EventError>
    requires few { length table.now < 2 ^ 32 }
    requires tells { CanTell table.now }
    ensures some { OnOk result (1 ≤ length records.old) }
    ensures ok { IfOk result (λ events. RecordsStandFor (all_meant table.now) records.old (meant_events table.now events)) }
    ensures follow { IfOk result (λ events. CanFollow table.now 0 events) }
    ensures err { IfErr result (WhyNotRecords (all_meant table.now) records.old) }
{
    let mut row = Record::new(alloc);
    if !records.read(&mut row)? {
        return Err(EventError::Row { row: 1 });
    }
    let Some(columns) = columns_of(alloc, table, &row)? else {
        return Err(EventError::Row { row: 1 });
    };
    Ok(read_rows(alloc, &columns, records, &mut row)?)
}

/// The events that a file stands for, for a program with this layout.
pub fn read_events(alloc: Global, layout: &Layout, bytes: &[u8]) -> Result<Events, EventError>
    ensures ok { IfOk result (λ events. StandsForEvents (all_meant layout.now.leaves) bytes.now (meant_events layout.now.leaves events)) }
    ensures follow { IfOk result (λ events. CanFollow layout.now.leaves 0 events) }
    ensures plain { OnOk result (Each HasPlainNames layout.now.leaves) }
    ensures err { IfErr result (WhyNotEvents (all_meant layout.now.leaves) bytes.now) }
{
    let table = PathTable::of(alloc, layout)?;
    let mut records = Records::of(alloc, bytes);
    Ok(read_records(alloc, &table, &mut records)?)
}

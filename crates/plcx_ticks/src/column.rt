//! The first record of a file of ticks: the columns of its ticks.
ghost use Rattle.std.specs.Prelude.{◌≡◌, ◌<◌, ◌^◌, IfOk, IfSome, length, take, drop, option_map};
ghost use Rattle.plcx_types.specs.Lists.{Each};
ghost use Rattle.plcx_ticks.specs.ReadTicks.{IsTable, is_named, instance_named, point_in, tick_column, column_at, column_of, columns_from, columns_of};

use crate::once::are_once;
use plcx_scan::{Column, Record, column_named};
use plcx_state::PathTable;
use plcx_tasks::Instance;
use plcx_types::{NoMemory, Ty, same_name};
use std::alloc::Global;

/// A settable leaf of an instance, for which a tick has a field.
#[derive(Clone, Copy, Debug)]
pub(crate) struct TickColumn {
    pub instance: u32,
    pub leaf: u32,
    pub ty: Ty,
}

fn tick_column(instance: u32, column: Column) -> TickColumn
    ensures { result ≡ tick_column instance column }
{
    TickColumn {
        instance,
        leaf: column.leaf,
        ty: column.ty,
    }
}

fn is_named(instance: &Instance, name: &[u8]) -> bool
    ensures { result ≡ is_named name.now instance.now }
{
    same_name(instance.name.text(), name)
}

/// The place of the instance of a name. A plan has few instances, so they are looked at one after another.
#[tactic(auto, unfolding(crate::specs::ReadTicks::instance_named))]
fn instance_named(instances: &[Instance], name: &[u8]) -> Option<usize>
    ensures value { result ≡ instance_named name.now instances.now }
    ensures within { IfSome result (λ place. place < length instances.now) }
{
    instances
        .iter()
        .position(|instance| is_named(instance, name))
}

#[tactic(auto, unfolding(crate::specs::ReadTicks::point_in))]
fn point_in(text: &[u8]) -> Option<usize>
    ensures value { result ≡ point_in text.now }
    ensures within { IfSome result (λ place. place < length text.now) }
{
    text.iter().position(|byte| *byte == b'.')
}

/// The column of a leaf's name, for the instance at a place.
fn column_at(
    alloc: Global,
    tables: &[PathTable<'_>],
    name: &[u8],
    place: usize,
) -> Result<Option<TickColumn>, NoMemory>
    requires tables { Each IsTable tables.now }
    requires few { place < 2 ^ 32 }
    ensures { IfOk result (λ column. column ≡ column_at tables.now name.now place) }
{
    let Some(table) = tables.get(place) else {
        return Ok(None);
    };
    let Some(column) = column_named(alloc, table, name)? else {
        return Ok(None);
    };
    Ok(Some(tick_column(place as u32, column)))
}

/// The column of a text: the name of an instance, a point, and the name of a settable leaf.
#[tactic(auto, unfolding(crate::specs::ReadTicks::column_of))]
fn column_of(
    alloc: Global,
    instances: &[Instance],
    tables: &[PathTable<'_>],
    text: &[u8],
) -> Result<Option<TickColumn>, NoMemory>
    requires tables { Each IsTable tables.now }
    requires few { length instances.now < 2 ^ 32 }
    ensures { IfOk result (λ column. column ≡ column_of instances.now tables.now text.now) }
{
    let Some(point) = point_in(text) else {
        return Ok(None);
    };
    let Some(place) = instance_named(instances, &text[..point]) else {
        return Ok(None);
    };
    column_at(alloc, tables, &text[point + 1..], place)
}

/// The columns of the names in a header, if each is the name of one.
fn named_columns(
    alloc: Global,
    instances: &[Instance],
    tables: &[PathTable<'_>],
    header: &Record,
) -> Result<Option<Vec<TickColumn>>, NoMemory>
    requires tables { Each IsTable tables.now }
    requires few { length instances.now < 2 ^ 32 }
    ensures { IfOk result (λ columns. option_map (λ cs. cs.items) columns ≡ columns_from instances.now tables.now (drop 2 header.now)) }
{
    let mut columns = Vec::new(alloc);
    for i in 2..header.len() {
        let Some(column) = column_of(alloc, instances, tables, header.field(i))? else {
            return Ok(None);
        };
        columns.push(column)?;
    }
    Ok(Some(columns))
}

/// The columns of a header, if it is one.
#[tactic(auto, unfolding(crate::specs::ReadTicks::columns_of))]
pub(crate) fn columns_of(
    alloc: Global,
    instances: &[Instance],
    tables: &[PathTable<'_>],
    header: &Record,
) -> Result<Option<Vec<TickColumn>>, NoMemory>
    requires tables { Each IsTable tables.now }
    requires few { length instances.now < 2 ^ 32 }
    ensures { IfOk result (λ columns. option_map (λ cs. cs.items) columns ≡ columns_of instances.now tables.now header.now) }
{
    if !(header.has_word(0, b"event") && header.has_word(1, b"time")) {
        return Ok(None);
    }
    if !are_once(alloc, header)? {
        return Ok(None);
    }
    named_columns(alloc, instances, tables, header)
}

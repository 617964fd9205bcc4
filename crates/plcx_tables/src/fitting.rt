//! Leaves within variables, whose numbers have 32 bits.
ghost use Rattle.std.specs.Prelude.{◌≡◌, ◌+◌, ◌≤◌, ◌<◌, ◌^◌, ◌↔◌, ℕ, true, Some, IfOk, IsTrue, length, map, slice_get, slice_index};
ghost use Rattle.plcx_std.specs.Pins.{pins};
ghost use Rattle.plcx_tables.specs.declared.placed.Placed.{Placed};
ghost use Rattle.plcx_tables.specs.declared.placed.Table.{Table};
ghost use Rattle.plcx_tables.specs.Telling.{shown};
ghost use Rattle.plcx_tables.specs.Placing.{pin_place, span};
ghost use Rattle.plcx_tables.specs.Tabled.{leaf_named};
ghost use Rattle.plcx_tables.specs.Numbering.{within, FitsIn};
ghost use Rattle.plcx_tables.specs.Fitting.{leaf_at, leaves_at, AllFit};

use crate::placed::{Placed, Table};
use crate::variables::Declared;
use plcx_names::same_name;
use plcx_std::{StdKind, pins};
use plcx_types::NoMemory;

/// The tables of all POUs, in which each leaf within a variable has a number of 32 bits.
#[derive(Drop)]
pub struct Tables<'t, 'a> {
    pub tables: &'t [Table<'a>],
    ghost fits: { (k : ℕ) (t : Table) → slice_get tables.now k ≡ Some t → FitsIn tables.now t },
}

fn leaves_at(tables: &[Table], place: u32) -> usize
    ensures { result ≡ leaves_at tables.now place }
{
    match tables.get(place as usize) {
        None => 0,
        Some(table) => table.leaves as usize,
    }
}

/// How many leaves are within a variable.
fn span(tables: &[Table], variable: &Declared) -> usize
    ensures { result ≡ span (map (λ (t : Table). t.leaves) tables.now) (shown variable.now) }
{
    if variable.elementary {
        return 0;
    }
    match variable.standard {
        Some(kind) => pins(kind).len(),
        None => match variable.block {
            None => 0,
            Some(place) => leaves_at(tables, place),
        },
    }
}

fn variable_fits(tables: &[Table], placed: &Placed) -> bool
    ensures { result ≡ true → placed.now.leaf + span (map (λ (t : Table). t.leaves) tables.now) (shown placed.now.variable) < 2 ^ 32 }
{
    span(tables, &placed.variable) <= (u32::MAX - placed.leaf) as usize
}

fn table_fits(tables: &[Table], table: &Table) -> bool
    ensures { result ≡ true → FitsIn tables.now table.now }
{
    for placed in &table.placed {
        if !variable_fits(tables, placed) {
            return false;
        }
    }
    true
}

fn all_fit(tables: &[Table]) -> bool
    ensures { result ≡ true → AllFit tables.now }
{
    for table in tables {
        if !table_fits(tables, table) {
            return false;
        }
    }
    true
}

impl<'t, 'a> Tables<'t, 'a> {
    /// These tables. What has no number of 32 bits would not have fitted the memory.
    pub fn of(tables: &'t [Table<'a>]) -> Result<Tables<'t, 'a>, NoMemory>
        ensures { IfOk result (λ all. all.tables.now ≡ tables.entry.now) }
    {
        if all_fit(tables) {
            Ok(Tables { tables })
        } else {
            Err(NoMemory)
        }
    }
}

/// The place of a leaf among those of a standard block.
fn pin_place(kind: StdKind, name: &[u8]) -> usize
    ensures value { result ≡ pin_place kind name.now }
    ensures low { result ≤ length (pins kind) }
{
    let pins = pins(kind);
    for (place, pin) in pins.iter().enumerate() {
        if same_name(pin.name.as_bytes(), name) {
            return place;
        }
    }
    pins.len()
}

/// The place of a leaf among those of a POU.
fn leaf_at(tables: &[Table], place: u32, name: &[u8]) -> usize
    ensures value { result ≡ leaf_at tables.now place name.now }
    ensures low { result ≤ leaves_at tables.now place }
{
    match tables.get(place as usize) {
        None => 0,
        Some(table) => table.leaf(name) as usize,
    }
}

/// The offset of a leaf within a variable.
pub(crate) fn within(tables: &[Table], variable: &Declared, name: &[u8]) -> usize
    ensures value { result ≡ within tables.now (shown variable.now) name.now }
    ensures low { result ≤ span (map (λ (t : Table). t.leaves) tables.now) (shown variable.now) }
{
    if variable.elementary {
        return 0;
    }
    match variable.standard {
        Some(kind) => pin_place(kind, name),
        None => match variable.block {
            None => 0,
            Some(place) => leaf_at(tables, place, name),
        },
    }
}

//! The counts of a project's wires as a text.
ghost use Rattle.std.specs.Prelude.{◌≡◌, ◌++◌, IfOk, OnOk, map, option_map};
ghost use Rattle.std.specs.Fmt.{decimal};
ghost use Rattle.std.specs.List.{count_by};
ghost use Rattle.plcx_cover.specs.Listed.{shown_wire, line_if};
ghost use Rattle.plcx_view.specs.Diagrams.{diagrams_of};
ghost use Rattle.plcx_cover.specs.Texts.{is_bool, is_covered, trues_text, field, line, lines, summary, cover_text};

use crate::counting::{Cover, CoverRow};
use crate::listing::{Wire, wires_of};
use plcx_check::Checked;
use plcx_opening::drawings;
use plcx_types::{NoMemory, Ty};
use std::alloc::Global;

fn is_bool(row: &CoverRow) -> bool
    ensures { result ≡ is_bool row.now }
{
    row.ty == Ty::Bool
}

fn is_covered(row: &CoverRow) -> bool
    ensures { result ≡ is_covered row.now }
{
    is_bool(row) && 0 < row.trues && row.trues < row.evaluated
}

fn push_number(alloc: Global, text: &mut Vec<u8>, number: u64) -> Result<(), NoMemory>
    ensures { OnOk result (text.new.items ≡ text.old.items ++ decimal number) }
{
    let digits = format!(in alloc; "{number}")?;
    text.extend_from_slice(digits.as_bytes())?;
    Ok(())
}

/// A text, behind which another field stands.
fn push_field(text: &mut Vec<u8>, bytes: &[u8]) -> Result<(), NoMemory>
    ensures { OnOk result (text.new.items ≡ text.old.items ++ field bytes.now) }
{
    text.extend_from_slice(bytes)?;
    text.push(b',')?;
    Ok(())
}

/// A number, behind which another field stands.
fn push_number_field(alloc: Global, text: &mut Vec<u8>, number: u64) -> Result<(), NoMemory>
    ensures { OnOk result (text.new.items ≡ text.old.items ++ field (decimal number)) }
{
    push_number(alloc, text, number)?;
    text.push(b',')?;
    Ok(())
}

fn push_trues(alloc: Global, text: &mut Vec<u8>, row: &CoverRow) -> Result<(), NoMemory>
    ensures { OnOk result (text.new.items ≡ text.old.items ++ trues_text row.now) }
{
    if is_bool(row) {
        push_number(alloc, text, row.trues)?;
    }
    Ok(())
}

fn push_line(
    alloc: Global,
    text: &mut Vec<u8>,
    wire: &Wire<'_>,
    row: &CoverRow,
) -> Result<(), NoMemory>
    ensures { OnOk result (text.new.items ≡ text.old.items ++ line (shown_wire wire.now) row.now) }
{
    push_field(text, wire.name)?;
    push_number_field(alloc, text, wire.local_id)?;
    push_field(text, wire.pin)?;
    push_number_field(alloc, text, row.evaluated)?;
    push_trues(alloc, text, row)?;
    text.push(b'\n')?;
    Ok(())
}

/// The line of a wire, if it has a row.
fn push_line_if(
    alloc: Global,
    text: &mut Vec<u8>,
    wire: &Wire<'_>,
    row: Option<&CoverRow>,
) -> Result<(), NoMemory>
    ensures { OnOk result (text.new.items ≡ text.old.items ++ line_if (shown_wire wire.now) (option_map (λ r. r.now) row.entry)) }
{
    match row {
        Some(row) => push_line(alloc, text, wire, row),
        None => Ok(()),
    }
}

/// The lines of wires, each with its row.
fn push_lines(
    alloc: Global,
    text: &mut Vec<u8>,
    wires: &[Wire<'_>],
    rows: &[CoverRow],
) -> Result<(), NoMemory>
    ensures { OnOk result (text.new.items ≡ text.old.items ++ lines (map shown_wire wires.now) rows.now) }
{
    for (place, wire) in wires.iter().enumerate() {
        push_line_if(alloc, text, wire, rows.get(place))?;
    }
    Ok(())
}

fn bool_count(rows: &[CoverRow]) -> usize
    ensures { result ≡ count_by is_bool rows.now }
{
    rows.iter().filter(|row| is_bool(row)).count()
}

fn covered_count(rows: &[CoverRow]) -> usize
    ensures { result ≡ count_by is_covered rows.now }
{
    rows.iter().filter(|row| is_covered(row)).count()
}

/// How many of the BOOLs were TRUE and FALSE.
fn push_summary(alloc: Global, text: &mut Vec<u8>, rows: &[CoverRow]) -> Result<(), NoMemory>
    ensures { OnOk result (text.new.items ≡ text.old.items ++ summary rows.now) }
{
    text.extend_from_slice(b"covered ")?;
    push_number(alloc, text, covered_count(rows) as u64)?;
    text.extend_from_slice(b" of ")?;
    push_number(alloc, text, bool_count(rows) as u64)?;
    text.push(b'\n')?;
    Ok(())
}

/// The counts of a project's wires: a line for each row of its cover with the names of the POU, the element and the pin,
/// and last how many BOOLs were both TRUE and FALSE.
pub fn cover_text(alloc: Global, checked: &Checked, cover: &Cover) -> Result<Vec<u8>, NoMemory>
    ensures { IfOk result (λ text. text.items
        ≡ cover_text (diagrams_of checked.now.project checked.now.links checked.now.types checked.now.plan) cover.now) }
{
    let drawings = drawings(alloc, checked)?;
    let wires = wires_of(alloc, &drawings)?;
    let mut text = Vec::from_slice(alloc, b"pou,element,pin,evaluated,true\n")?;
    push_lines(alloc, &mut text, &wires, cover.rows())?;
    push_summary(alloc, &mut text, cover.rows())?;
    Ok(text)
}

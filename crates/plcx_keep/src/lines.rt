//! Carried states and what became of each value, as texts.
ghost use Rattle.std.specs.Prelude.{◌≡◌, ◌<◌, ◌++◌, IfOk, OnOk, length, codes};
ghost use Rattle.plcx_state.specs.Retains.{IsRetainedOf};
ghost use Rattle.plcx_keep.specs.States.{AreRowsWithin, AreLostWithin};
ghost use Rattle.plcx_keep.specs.Texts.{state_lines, report_line, fate_word, row_line, rows_text, lost_line, lost_text, report_text};

use crate::carry::{Carry, CarryRow, Fate, Lost};
use plcx_state::{Layout, Leaf, Retained, Store, print_retained};
use plcx_types::{NoMemory, Val, print_literal};
use std::alloc::Global;

/// The values of a state as retained lines, in the order of the layout.
pub fn carried_lines(alloc: Global, after: &Layout, state: &Retained) -> Result<Vec<u8>, NoMemory>
    requires { IsRetainedOf after.now.leaves state.now }
    ensures { IfOk result (λ text. text.items ≡ state_lines after.now.leaves state.now) }
{
    let store = Store::open(alloc, after, state)?;
    print_retained(alloc, after, &store)
}

fn fate_word(fate: Fate) -> &'static [u8]
    ensures { result.now ≡ fate_word fate }
{
    match fate {
        Fate::Kept => b"kept",
        Fate::Changed => b"changed",
        Fate::Fresh => b"fresh",
    }
}

/// A line of a word, the path of a leaf and a value.
fn push_line(
    alloc: Global,
    text: &mut Vec<u8>,
    word: &[u8],
    leaf: &Leaf,
    value: Val,
) -> Result<(), NoMemory>
    ensures { OnOk result (text.new.items ≡ text.old.items ++ report_line word.now leaf.now value) }
{
    let path = leaf.path.text(alloc)?;
    let literal = print_literal(alloc, value)?;
    text.extend_from_slice(word)?;
    text.push(b',')?;
    text.extend_from_slice(&path)?;
    text.push(b',')?;
    text.extend_from_slice(&literal)?;
    text.push(b'\n')?;
    Ok(())
}

fn push_row(
    alloc: Global,
    text: &mut Vec<u8>,
    leaves: &[Leaf],
    row: CarryRow,
) -> Result<(), NoMemory>
    requires { row.leaf < length leaves.now }
    ensures { OnOk result (text.new.items ≡ text.old.items ++ row_line leaves.now row) }
{
    let leaf = &leaves[row.leaf as usize];
    push_line(alloc, text, fate_word(row.fate), leaf, row.value)
}

fn push_rows(
    alloc: Global,
    text: &mut Vec<u8>,
    leaves: &[Leaf],
    rows: &[CarryRow],
) -> Result<(), NoMemory>
    requires { AreRowsWithin leaves.now rows.now }
    ensures { OnOk result (text.new.items ≡ text.old.items ++ rows_text leaves.now rows.now) }
{
    for row in rows {
        push_row(alloc, text, leaves, *row)?;
    }
    Ok(())
}

fn push_lost(alloc: Global, text: &mut Vec<u8>, leaves: &[Leaf], lost: Lost) -> Result<(), NoMemory>
    requires { lost.leaf < length leaves.now }
    ensures { OnOk result (text.new.items ≡ text.old.items ++ lost_line leaves.now lost) }
{
    let leaf = &leaves[lost.leaf as usize];
    push_line(alloc, text, b"dropped", leaf, lost.value)
}

fn push_all_lost(
    alloc: Global,
    text: &mut Vec<u8>,
    leaves: &[Leaf],
    all: &[Lost],
) -> Result<(), NoMemory>
    requires { AreLostWithin leaves.now all.now }
    ensures { OnOk result (text.new.items ≡ text.old.items ++ lost_text leaves.now all.now) }
{
    for lost in all {
        push_lost(alloc, text, leaves, *lost)?;
    }
    Ok(())
}

/// What became of each leaf of the layout `after`, a line each, and then a line for each value that is lost.
pub fn report_text(
    alloc: Global,
    before: &Layout,
    after: &Layout,
    carry: &Carry,
) -> Result<Vec<u8>, NoMemory>
    requires rows { AreRowsWithin after.now.leaves carry.now.rows }
    requires lost { AreLostWithin before.now.leaves carry.now.lost }
    ensures { IfOk result (λ text. text.items ≡ report_text before.now.leaves after.now.leaves carry.now) }
{
    let mut text = Vec::new(alloc);
    push_rows(alloc, &mut text, after.leaves(), carry.rows.as_slice())?;
    push_all_lost(alloc, &mut text, before.leaves(), carry.lost.as_slice())?;
    Ok(text)
}

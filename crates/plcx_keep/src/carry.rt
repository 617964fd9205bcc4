//! What becomes of retained values: of each retained leaf of a new layout, and which old values are lost.
ghost use Rattle.std.specs.Prelude.{◌≡◌, ◌<◌, ◌^◌, ◌++◌, ◌&&◌, Some, None, IfOk, IfSome, OnOk, length, if◌then◌else◌};
ghost use Rattle.std.specs.List.{list_any};
ghost use Rattle.plcx_types.specs.Lists.{Each};
ghost use Rattle.plcx_types.specs.Literal.{value};
ghost use Rattle.plcx_types.specs.Range.{fits};
ghost use Rattle.plcx_types.specs.TypeName.{same_ty};
ghost use Rattle.plcx_state.specs.Layouts.{is_kept, leaf_at, meant_path, HasName};
ghost use Rattle.plcx_state.specs.Retains.{IsRetainedOf};
ghost use Rattle.plcx_state.specs.Tables.{HasPlainNames, IsTold};
ghost use Rattle.plcx_keep.specs.Carries.{value_of, value_at, can_change, row, row_of, row_if_kept, rows_from, is_from_old, is_carried_to, lost_if, lost_from, carry_of};
ghost use Rattle.plcx_keep.specs.States.{AreRowsOf, AreRowsWithin, AreLostWithin};

use plcx_funcs::Allowed;
use plcx_state::{Layout, Leaf, PathTable, Retained, path_text};
use plcx_types::{NoMemory, Ty, Val};
use sqlite_items::Items;
use std::alloc::Global;

/// What becomes of a leaf: it keeps the old value, has the old number in another type, or has its initial value.
#[derive(Clone, Copy, Debug, PartialEq, Eq)]
pub enum Fate {
    Kept,
    Changed,
    Fresh,
}

/// What becomes of the leaf of a number in the new layout, and the value that it has then.
#[derive(Clone, Copy, Debug)]
pub struct CarryRow {
    pub leaf: u32,
    pub fate: Fate,
    pub value: Val,
}

/// An old value that no leaf has any more, and the number of its leaf in the old layout.
#[derive(Clone, Copy, Debug)]
pub struct Lost {
    pub leaf: u32,
    pub value: Val,
}

/// A row for each retained leaf of the new layout, in its order, and the values that are lost, in the order of the old one.
#[derive(Debug, Drop)]
pub struct Carry {
    pub rows: Items<CarryRow>,
    pub lost: Items<Lost>,
}

/// The value of a type and a number, where it is one.
#[tactic(auto, using(plcx_types::proofs::TypeTable::within_range, plcx_types::proofs::TypeTable::range_within))]
fn value_from(ty: Ty, n: i128) -> Option<Val>
    ensures { result ≡ (if fits ty n then Some (value ty n) else None) }
{
    Val::new(ty, n)
}

/// The old number in another type, where both types are of whole numbers and it is in range.
fn changed(old: Val, ty: Ty) -> Option<Val>
    ensures { result ≡ (if can_change old ty then Some (value ty old.n) else None) }
{
    if Allowed::Whole.has(old.ty()) && Allowed::Whole.has(ty) {
        value_from(ty, old.n())
    } else {
        None
    }
}

fn is_of(value: Val, ty: Ty) -> bool
    ensures { result ≡ same_ty value.ty ty }
{
    value.ty() == ty
}

fn row(leaf: u32, fate: Fate, value: Val) -> CarryRow
    ensures { result ≡ row leaf fate value }
{
    CarryRow { leaf, fate, value }
}

/// What becomes of a leaf for which there is an old value.
fn row_from(number: u32, leaf: &Leaf, old: Val) -> CarryRow
    ensures { result ≡ row_of number leaf.now (Some old) }
{
    if is_of(old, leaf.ty) {
        return row(number, Fate::Kept, old);
    }
    match changed(old, leaf.ty) {
        Some(value) => row(number, Fate::Changed, value),
        None => row(number, Fate::Fresh, leaf.initial),
    }
}

/// What becomes of a leaf by the old value at its path.
fn row_of(number: u32, leaf: &Leaf, old: Option<Val>) -> CarryRow
    ensures { result ≡ row_of number leaf.now old }
{
    match old {
        Some(old) => row_from(number, leaf, old),
        None => row(number, Fate::Fresh, leaf.initial),
    }
}

/// The number of the leaf of a table that has the path of another leaf.
fn number_at(alloc: Global, table: &PathTable, leaf: &Leaf) -> Result<Option<usize>, NoMemory>
    requires told { IsTold table.now }
    requires named { HasName leaf.now }
    ensures value { IfOk result (λ number. number ≡ leaf_at (meant_path leaf.now.path) table.now) }
    ensures within { IfOk result (λ number. IfSome number (λ n. n < length table.now)) }
{
    let text = path_text(alloc, leaf)?;
    Ok(table.number(&text))
}

/// The value that a state has for the leaf of a number.
fn value_of(leaves: &[Leaf], state: &Retained, number: usize) -> Option<Val>
    requires within { number < length leaves.now }
    requires few { length leaves.now < 2 ^ 32 }
    requires state { IsRetainedOf leaves.now state.now }
    ensures { result ≡ value_of state.now number }
{
    if leaves[number].is_kept() {
        Some(state.get(number as u32))
    } else {
        None
    }
}

/// The value that the old state has at the path of a leaf.
fn old_value(
    alloc: Global,
    before: &PathTable,
    state: &Retained,
    leaf: &Leaf,
) -> Result<Option<Val>, NoMemory>
    requires told { IsTold before.now }
    requires few { length before.now < 2 ^ 32 }
    requires state { IsRetainedOf before.now state.now }
    requires named { HasName leaf.now }
    ensures { IfOk result (λ old. old ≡ value_at before.now state.now (meant_path leaf.now.path)) }
{
    let Some(number) = number_at(alloc, before, leaf)? else {
        return Ok(None);
    };
    Ok(value_of(before.leaves(), state, number))
}

/// A row more, where the leaf's value is part of a retained state.
fn push_row(
    alloc: Global,
    rows: &mut Vec<CarryRow>,
    before: &PathTable,
    state: &Retained,
    number: u32,
    leaf: &Leaf,
) -> Result<(), NoMemory>
    requires told { IsTold before.now }
    requires few { length before.now < 2 ^ 32 }
    requires state { IsRetainedOf before.now state.now }
    requires named { HasName leaf.now }
    ensures { OnOk result (rows.new.items ≡ rows.old.items ++ row_if_kept (value_at before.now state.now) number leaf.now) }
{
    if leaf.is_kept() {
        let old = old_value(alloc, before, state, leaf)?;
        rows.push(row_of(number, leaf, old))?;
    }
    Ok(())
}

/// What becomes of each of these leaves.
fn all_rows(
    alloc: Global,
    before: &PathTable,
    state: &Retained,
    leaves: &[Leaf],
) -> Result<Vec<CarryRow>, NoMemory>
    requires told { IsTold before.now }
    requires few { length before.now < 2 ^ 32 }
    requires state { IsRetainedOf before.now state.now }
    requires named { Each HasName leaves.now }
    requires few_leaves { length leaves.now < 2 ^ 32 }
    ensures { IfOk result (λ rows. rows.items ≡ rows_from (value_at before.now state.now) 0 leaves.now) }
{
    let mut rows = Vec::new(alloc);
    for number in 0..leaves.len() {
        push_row(
            alloc,
            &mut rows,
            before,
            state,
            number as u32,
            &leaves[number],
        )?;
    }
    Ok(rows)
}

/// Whether a leaf of the new layout is kept or changed from an old value at its path.
fn has_from(leaf: &Leaf, old: Val) -> bool
    ensures { result ≡ (is_kept leaf.now && is_from_old (row_of 0 leaf.now (Some old)).fate) }
{
    leaf.is_kept() && row_from(0, leaf, old).fate != Fate::Fresh
}

/// Whether some leaf of the new layout is kept or changed from the value of an old leaf.
fn is_carried(alloc: Global, after: &PathTable, leaf: &Leaf, old: Val) -> Result<bool, NoMemory>
    requires told { IsTold after.now }
    requires named { HasName leaf.now }
    ensures { IfOk result (λ carried. carried ≡ list_any (is_carried_to (meant_path leaf.now.path) old) after.now) }
{
    let Some(number) = number_at(alloc, after, leaf)? else {
        return Ok(false);
    };
    Ok(has_from(&after.leaves()[number], old))
}

/// A lost value more, where the old state has a value for the leaf and it is lost.
fn push_lost(
    alloc: Global,
    lost: &mut Vec<Lost>,
    after: &PathTable,
    number: u32,
    leaf: &Leaf,
    old: Option<Val>,
) -> Result<(), NoMemory>
    requires told { IsTold after.now }
    requires named { HasName leaf.now }
    ensures { OnOk result (lost.new.items ≡ lost.old.items ++ lost_if after.now number leaf.now old) }
{
    let Some(value) = old else {
        return Ok(());
    };
    if !is_carried(alloc, after, leaf, value)? {
        lost.push(Lost {
            leaf: number,
            value,
        })?;
    }
    Ok(())
}

/// The values of a state of these leaves that are lost.
fn all_lost(
    alloc: Global,
    after: &PathTable,
    state: &Retained,
    leaves: &[Leaf],
) -> Result<Vec<Lost>, NoMemory>
    requires told { IsTold after.now }
    requires state { IsRetainedOf leaves.now state.now }
    requires named { Each HasName leaves.now }
    requires few { length leaves.now < 2 ^ 32 }
    ensures { IfOk result (λ lost. lost.items ≡ lost_from after.now state.now 0 leaves.now) }
{
    let mut lost = Vec::new(alloc);
    for number in 0..leaves.len() {
        let old = value_of(leaves, state, number);
        push_lost(alloc, &mut lost, after, number as u32, &leaves[number], old)?;
    }
    Ok(lost)
}

/// What becomes of each retained leaf of the layout `after`, where the state is one of the layout `before`.
pub fn carry_over(
    alloc: Global,
    before: &Layout,
    after: &Layout,
    state: &Retained,
) -> Result<Carry, NoMemory>
    requires { IsRetainedOf before.now.leaves state.now }
    ensures value { IfOk result (λ carry. carry ≡ carry_of before.now.leaves state.now after.now.leaves) }
    ensures rows { IfOk result (λ carry. AreRowsOf after.now.leaves carry.rows) }
    ensures within { IfOk result (λ carry. AreRowsWithin after.now.leaves carry.rows) }
    ensures lost_within { IfOk result (λ carry. AreLostWithin before.now.leaves carry.lost) }
    ensures plain { OnOk result (Each HasPlainNames before.now.leaves) }
    ensures plain_after { OnOk result (Each HasPlainNames after.now.leaves) }
{
    let old = PathTable::of(alloc, before)?;
    let rows = all_rows(alloc, &old, state, after.leaves())?;
    let new = PathTable::of(alloc, after)?;
    let lost = all_lost(alloc, &new, state, before.leaves())?;
    Ok(Carry {
        rows: Items::from_vec(rows),
        lost: Items::from_vec(lost),
    })
}

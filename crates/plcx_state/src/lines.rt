//! Retained lines: `retain,PATH,LITERAL`.
ghost use Rattle.std.specs.Prelude.{◌≡◌, ◌<◌, ◌++◌, true, [], Some, None, IfOk, IfErr, IfSome, OnOk, length, map, ◌==◌, if◌then◌else◌};
ghost use Rattle.std.specs.List.{position};
ghost use Rattle.std.specs.Option.{option_map};
ghost use Rattle.plcx_state.specs.Layouts.{IsLaid};
ghost use Rattle.plcx_state.specs.Tables.{IsTold};
ghost use Rattle.plcx_state.specs.Retains.{IsRetainedOf, all_kept};
ghost use Rattle.plcx_state.specs.Stores.{IsStoreOf};
ghost use Rattle.plcx_state.specs.Lines.{StandsForRetained, AreLines, kept_by, line_if_kept, retained_line, retained_lines};
ghost use Rattle.plcx_state.specs.ReadLines.{parts, split, line_parts, read_literal_for, read_number, read_line, noted, drafted, lines_said, Goes};
ghost use Rattle.plcx_state.specs.Errors.{WhyNotLines, WhyNotRetained};

use crate::layout::{Layout, Leaf};
use crate::retained::{Retained, kept_of};
use crate::store::Store;
use crate::table::{PathTable, in_lower_case};
use bstr::ByteSlice;
use plcx_types::{NoMemory, Val, print_literal, read_value};
use std::alloc::{AllocError, Global};

/// Why bytes gave no retained state. Lines count from 1.
#[derive(Clone, Copy, Debug, PartialEq, Eq)]
pub enum RetainError {
    Line { line: u64 },
    NoMemory,
}

/// What a line says: a value for the leaf of this number.
#[derive(Clone, Copy, Debug)]
pub(crate) struct Reading {
    pub(crate) leaf: usize,
    pub(crate) value: Val,
}

impl From<NoMemory> for RetainError {
    ghost use Rattle.plcx_state.specs.declared.lines.RetainError.TheVariants.{NoMemory};

    ghost from_gives = { λ _ e. e ≡ NoMemory };

    fn from(_: NoMemory) -> RetainError {
        RetainError::NoMemory
    }
}

impl From<AllocError> for RetainError {
    ghost use Rattle.plcx_state.specs.declared.lines.RetainError.TheVariants.{NoMemory};

    ghost from_gives = { λ _ e. e ≡ NoMemory };

    fn from(_: AllocError) -> RetainError {
        RetainError::NoMemory
    }
}

fn comma(text: &[u8]) -> Option<usize>
    ensures place { result ≡ position (λ b. b == 44) text.now }
    ensures within { IfSome result (λ i. i < length text.now) }
{
    text.iter().position(|byte| *byte == b',')
}

#[tactic(auto, unfolding(crate::specs::ReadLines::split))]
fn split(text: &[u8]) -> Option<(&[u8], &[u8])>
    ensures { option_map (λ p. parts p.0.now p.1.now) result ≡ split text.now }
{
    let comma = comma(text)?;
    Some((&text[..comma], &text[comma + 1..]))
}

#[tactic(auto, unfolding(crate::specs::ReadLines::line_parts))]
fn line_parts(line: &[u8]) -> Option<(&[u8], &[u8])>
    ensures { option_map (λ p. parts p.0.now p.1.now) result ≡ line_parts line.now }
{
    let rest = line.strip_prefix(b"retain,")?;
    split(rest)
}

fn read_for(literal: &[u8], number: usize, leaf: &Leaf) -> Option<Reading>
    ensures { result ≡ read_literal_for literal.now number leaf.now }
{
    if !leaf.is_kept() {
        return None;
    }
    let value = read_value(leaf.ty, literal).ok()?;
    Some(Reading {
        leaf: number,
        value,
    })
}

fn read_number(leaves: &[Leaf], literal: &[u8], number: usize) -> Option<Reading>
    ensures value { result ≡ read_number leaves.now literal.now number }
    ensures within { IfSome result (λ r. r.leaf < length leaves.now) }
{
    let leaf = leaves.get(number)?;
    read_for(literal, number, leaf)
}

/// What a line says.
#[tactic(auto, unfolding(crate::specs::ReadLines::read_line))]
fn read_line(alloc: Global, table: &PathTable, line: &[u8]) -> Result<Option<Reading>, NoMemory>
    ensures value { IfOk result (λ r. r ≡ read_line table.now line.now) }
    ensures within { IfOk result (λ r. IfSome r (λ x. x.leaf < length table.now)) }
{
    let Some((path, literal)) = line_parts(line) else {
        return Ok(None);
    };
    let key = in_lower_case(alloc, path)?;
    let Some(number) = table.number(&key) else {
        return Ok(None);
    };
    Ok(read_number(table.leaves(), literal, number))
}

/// Notes what was read, if it is something and of a leaf of which nothing is said yet.
fn note(reading: Option<Reading>, draft: &mut Vec<Option<Val>>) -> bool
    requires { IfSome reading (λ r. r.leaf < length draft.old.items) }
    ensures noted { noted draft.old.items reading ≡ (if result then Some draft.new.items else None) }
    ensures long { length draft.new.items ≡ length draft.old.items }
{
    let Some(Reading { leaf, value }) = reading else {
        return false;
    };
    if draft[leaf].is_some() {
        return false;
    }
    draft[leaf] = Some(value);
    true
}

/// Notes what a line says; not where it says nothing, or something of a leaf of which something is said.
fn note_line(
    alloc: Global,
    table: &PathTable,
    line: &[u8],
    draft: &mut Vec<Option<Val>>,
) -> Result<bool, NoMemory>
    requires { length draft.old.items ≡ length table.now }
    ensures noted { IfOk result (λ went. noted draft.old.items (read_line table.now line.now) ≡ (if went then Some draft.new.items else None)) }
    ensures long { OnOk result (length draft.new.items ≡ length draft.old.items) }
{
    let reading = read_line(alloc, table, line)?;
    Ok(note(reading, draft))
}

/// A draft in which nothing is said.
fn unsaid(alloc: Global, leaves: &[Leaf]) -> Result<Vec<Option<Val>>, AllocError>
    ensures { IfOk result (λ draft. draft.items ≡ drafted leaves.now []) }
{
    leaves.iter().map(|_| None).collect(alloc)
}

/// What each line says, by the numbers of leaves.
fn note_lines(
    alloc: Global,
    table: &PathTable,
    lines: &[&[u8]],
) -> Result<Vec<Option<Val>>, RetainError>
    requires { IsTold table.now }
    ensures ok { IfOk result (λ draft. Goes table.now (map (λ l. l.now) lines.now) draft.items) }
    ensures err { IfErr result (WhyNotLines table.now (map (λ l. l.now) lines.now)) }
{
    let mut draft = unsaid(alloc, table.leaves())?;
    for place in 0..lines.len() {
        let went = note_line(alloc, table, lines[place], &mut draft)?;
        if !went {
            return Err(RetainError::Line {
                line: place as u64 + 1,
            });
        }
    }
    Ok(draft)
}

/// Gives the leaves of which nothing is said their initial values.
fn fill(leaves: &[Leaf], draft: &mut Vec<Option<Val>>)
    requires { length leaves.now ≡ length draft.old.items }
    ensures { draft.new.items ≡ all_kept leaves.now draft.old.items }
{
    for i in 0..leaves.len() {
        draft[i] = kept_of(&leaves[i], draft[i]);
    }
}

/// The values that the lines say, or the first line that is wrong.
fn read_lines(
    alloc: Global,
    layout: &Layout,
    lines: &[&[u8]],
) -> Result<Vec<Option<Val>>, RetainError>
    ensures kept { IfOk result (λ kept. kept.items ≡ kept_by layout.now.leaves (lines_said layout.now.leaves (map (λ l. l.now) lines.now))) }
    ensures lines { OnOk result (AreLines layout.now.leaves (map (λ l. l.now) lines.now) (lines_said layout.now.leaves (map (λ l. l.now) lines.now))) }
    ensures laid { OnOk result (IsLaid layout.now) }
    ensures err { IfErr result (WhyNotLines layout.now.leaves (map (λ l. l.now) lines.now)) }
{
    let table = PathTable::of(alloc, layout)?;
    let mut draft = note_lines(alloc, &table, lines)?;
    fill(table.leaves(), &mut draft);
    Ok(draft)
}

/// The retained state that the lines of a file stand for.
pub fn read_retained(alloc: Global, layout: &Layout, bytes: &[u8]) -> Result<Retained, RetainError>
    ensures ok { IfOk result (λ kept. StandsForRetained layout.now.leaves bytes.now kept) }
    ensures state { IfOk result (λ kept. IsRetainedOf layout.now.leaves kept) }
    ensures err { IfErr result (WhyNotRetained layout.now.leaves bytes.now) }
{
    let lines: Vec<&[u8]> = bytes.lines().collect(alloc)?;
    let kept = read_lines(alloc, layout, &lines)?;
    Ok(Retained::of(kept))
}

fn push_line(alloc: Global, text: &mut Vec<u8>, leaf: &Leaf, value: Val) -> Result<(), NoMemory>
    ensures { OnOk result (text.new.items ≡ text.old.items ++ retained_line leaf.now value) }
{
    let path = leaf.path.text(alloc)?;
    let literal = print_literal(alloc, value)?;
    text.extend_from_slice(b"retain,")?;
    text.extend_from_slice(&path)?;
    text.push(b',')?;
    text.extend_from_slice(&literal)?;
    text.push(b'\n')?;
    Ok(())
}

fn push_if_kept(alloc: Global, text: &mut Vec<u8>, leaf: &Leaf, value: Val) -> Result<(), NoMemory>
    ensures { OnOk result (text.new.items ≡ text.old.items ++ line_if_kept leaf.now value) }
{
    if leaf.is_kept() {
        push_line(alloc, text, leaf, value)?;
    }
    Ok(())
}

fn all_lines(alloc: Global, leaves: &[Leaf], values: &[Val]) -> Result<Vec<u8>, NoMemory>
    requires { length leaves.now ≡ length values.now }
    ensures { IfOk result (λ text. text.items ≡ retained_lines leaves.now values.now) }
{
    let mut text = Vec::new(alloc);
    for i in 0..leaves.len() {
        push_if_kept(alloc, &mut text, &leaves[i], values[i])?;
    }
    Ok(text)
}

/// The values of a store that are part of a retained state, as lines in the order of the layout.
pub fn print_retained(alloc: Global, layout: &Layout, store: &Store) -> Result<Vec<u8>, NoMemory>
    requires { IsStoreOf layout.now store.now }
    ensures { IfOk result (λ text. text.items ≡ retained_lines layout.now.leaves store.now.values) }
{
    all_lines(alloc, layout.leaves(), store.values())
}

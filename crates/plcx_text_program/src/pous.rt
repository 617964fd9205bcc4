//! The POUs of a unit, those of one level behind those of the lower ones.
ghost use Rattle.std.specs.Prelude.{◌≡◌, ◌↔◌, ◌+◌, ◌<◌, [], Some, IfOk, IsTrue, length, map, set, slice_get};
ghost use Rattle.plcx_meaning.specs.Layout.{variables_of};
ghost use Rattle.plcx_meaning.specs.Ready.{IsReady};
ghost use Rattle.plcx_st.specs.declared.tree.PouText.{PouText};
ghost use Rattle.plcx_st.specs.Meant.{pou_meant};
ghost use Rattle.plcx_steps.specs.Sound.{levels};
ghost use Rattle.plcx_text_numbered.specs.Numbers.{temporary_values};
ghost use Rattle.plcx_text_lines.specs.Added.{start_of, AddsBoxed};
ghost use Rattle.plcx_text_order.specs.Made.{owner, body_piece, level_of, Reaches, AddsPou};
ghost use Rattle.plcx_text_program.specs.Making.{made_of, Begins, Ends};

use crate::numbers::Here;
use plcx_st::PouText;
use plcx_text_lines::{Prepared, with_body};
use plcx_text_steps::Entry;
use plcx_text_tables::Tables;
use plcx_types::{NoMemory, Val};
use std::alloc::Global;

/// A program and 16 levels of function blocks below it.
const LEVELS: usize = 17;

/// What is prepared of some POUs, and where each POU begins.
#[derive(Drop)]
pub(crate) struct Pous {
    pub(crate) prepared: Prepared,
    pub(crate) entries: Vec<Entry>,
}

/// The same with these wires, and without lines.
fn begun(alloc: Global, before: Prepared, wires: Vec<Val>) -> Prepared
    ensures { Begins before wires.items result }
{
    let Prepared {
        lines: _,
        arguments,
        bindings,
        sections,
        arms,
        wires: _,
    } = before;
    Prepared {
        lines: Vec::new(alloc),
        arguments,
        bindings,
        sections,
        arms,
        wires,
    }
}

/// The same without wires, and the wires.
fn ended(alloc: Global, before: Prepared) -> (Prepared, Vec<Val>)
    ensures { Ends before result.0 result.1.items }
{
    let Prepared {
        lines,
        arguments,
        bindings,
        sections,
        arms,
        wires,
    } = before;
    let rest = Prepared {
        lines,
        arguments,
        bindings,
        sections,
        arms,
        wires: Vec::new(alloc),
    };
    (rest, wires)
}

/// What the temporaries of the POU at a place begin with.
#[tactic(auto, using(crate::proofs::Bare::temporaries_are))]
fn temporaries(alloc: Global, tables: &Tables, place: usize) -> Result<Vec<Val>, NoMemory>
    requires place { place < length tables.now }
    requires ready { IsReady (map pou_meant tables.now) }
    ensures { IfOk result (λ values. (p : PouText) → slice_get tables.now place ≡ Some p → values.items ≡ temporary_values (variables_of (pou_meant p).blocks)) }
{
    let table = tables.table_there(place);
    Ok(Vec::from_slice(alloc, &table.temporaries)?)
}

/// Whether the POU at a place has so many levels of function blocks below it.
#[tactic(auto, using(crate::proofs::Ready::level_answer))]
fn is_of_level(tables: &Tables, place: usize, level: usize) -> bool
    requires ready { IsReady (map pou_meant tables.now) }
    ensures { (p : PouText) → slice_get tables.now place ≡ Some p → IsTrue result ↔ (level_of (map pou_meant tables.now) (pou_meant p) ≡ level) }
{
    tables.level(place) == level
}

/// The body of the POU at a place as a section, and its number.
fn with_section(
    alloc: Global,
    tables: &Tables,
    place: usize,
    pou: &PouText,
    first: Prepared,
) -> Result<(Prepared, usize), NoMemory>
    requires there { slice_get tables.now place ≡ Some pou.now }
    requires ready { IsReady (map pou_meant tables.now) }
    ensures { IfOk result (λ r. AddsBoxed place (body_piece (owner (map pou_meant tables.now) place (pou_meant pou.now)) (start_of first)) first r.0 r.1) }
{
    let here = Here::at(tables, place)?;
    Ok(with_body(&here, alloc, first, pou.body.as_slice())?)
}

/// The entry at a place.
fn with_entry(mut entries: Vec<Entry>, place: usize, entry: Entry) -> Vec<Entry>
    requires { place < length entries.items }
    ensures { result.items ≡ set entries.items place entry }
{
    entries[place] = entry;
    entries
}

/// The POU at a place more.
fn with_pou(
    alloc: Global,
    tables: &Tables,
    place: usize,
    pou: &PouText,
    before: Pous,
) -> Result<Pous, NoMemory>
    requires there { slice_get tables.now place ≡ Some pou.now }
    requires ready { IsReady (map pou_meant tables.now) }
    requires count { place < length before.entries.items }
    ensures { IfOk result (λ behind. AddsPou (owner (map pou_meant tables.now) place (pou_meant pou.now)) (made_of before) (made_of behind)) }
{
    let Pous { prepared, entries } = before;
    let values = temporaries(alloc, tables, place)?;
    let first = begun(alloc, prepared, values);
    let (behind, section) = with_section(alloc, tables, place, pou, first)?;
    let (prepared, wires) = ended(alloc, behind);
    let entry = Entry { wires, section };
    let entries = with_entry(entries, place, entry);
    Ok(Pous { prepared, entries })
}

/// The POU at a place more, if it is one of this level.
fn with_place(
    alloc: Global,
    tables: &Tables,
    level: usize,
    place: usize,
    pou: &PouText,
    before: Pous,
) -> Result<Pous, NoMemory>
    requires there { slice_get tables.now place ≡ Some pou.now }
    requires ready { IsReady (map pou_meant tables.now) }
    requires reached { Reaches (map pou_meant tables.now) level place (made_of before) }
    ensures { IfOk result (λ behind. Reaches (map pou_meant tables.now) level (place + 1) (made_of behind)) }
{
    if is_of_level(tables, place, level) {
        Ok(with_pou(alloc, tables, place, pou, before)?)
    } else {
        Ok(before)
    }
}

/// The POUs of a level more.
fn with_level(
    alloc: Global,
    tables: &Tables,
    pous: &[PouText],
    level: usize,
    before: Pous,
) -> Result<Pous, NoMemory>
    requires pous { pous.now ≡ tables.now }
    requires ready { IsReady (map pou_meant tables.now) }
    requires reached { Reaches (map pou_meant tables.now) level 0 (made_of before) }
    ensures { IfOk result (λ behind. Reaches (map pou_meant tables.now) (level + 1) 0 (made_of behind)) }
{
    let mut all = before;
    for place in 0..pous.len() {
        all = with_place(alloc, tables, level, place, &pous[place], all)?;
    }
    Ok(all)
}

/// No POU by now.
fn none(alloc: Global, count: usize) -> Result<Pous, NoMemory>
    ensures sections { IfOk result (λ all. all.prepared.sections.items ≡ []) }
    ensures entries { IfOk result (λ all. length all.entries.items ≡ count) }
{
    let mut entries = Vec::new(alloc);
    for _place in 0..count {
        entries.push(Entry {
            wires: Vec::new(alloc),
            section: 0,
        })?;
    }
    let prepared = Prepared {
        lines: Vec::new(alloc),
        arguments: Vec::new(alloc),
        bindings: Vec::new(alloc),
        sections: Vec::new(alloc),
        arms: Vec::new(alloc),
        wires: Vec::new(alloc),
    };
    Ok(Pous { prepared, entries })
}

/// All POUs.
pub(crate) fn pous_of(alloc: Global, tables: &Tables, pous: &[PouText]) -> Result<Pous, NoMemory>
    requires pous { pous.now ≡ tables.now }
    requires ready { IsReady (map pou_meant tables.now) }
    ensures { IfOk result (λ all. Reaches (map pou_meant tables.now) levels 0 (made_of all)) }
{
    let mut all = none(alloc, pous.len())?;
    for level in 0..LEVELS {
        all = with_level(alloc, tables, pous, level, all)?;
    }
    Ok(all)
}

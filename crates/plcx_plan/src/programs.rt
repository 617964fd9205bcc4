//! The programs of a project by their names.
ghost use Rattle.std.specs.Prelude.{◌≡◌, ℕ, List, option_copied, slice_get, IfOk, IfSome, IfNone};
ghost use Rattle.std.specs.Str.{bytes_eq};
ghost use Rattle.plcx_model.specs.declared.project.Pou.{Pou as Declared};
ghost use Rattle.plcx_plan.specs.Conditions.{is_program, is_program_named, program_at, IsOfProgram};
ghost use Rattle.plcx_plan.specs.Told.{Tells, place_at, found_or, place_if};

use crate::look::value_once;
use crate::names::in_lower_case;
use indexmap::IndexMap;
use plcx_model::{Pou, PouKind};
use plcx_xml::Element;
use std::alloc::{AllocError, Global};
use std::marker::Model;

/// The POUs of a project, of which programs are found by their names in lower case.
#[derive(Drop)]
pub struct Programs<'a> {
    pous: &'a [Pou],
    table: IndexMap<Vec<u8>, usize>,
}

impl<'a> Model for Programs<'a> {
    ghost use Rattle.std.specs.Prelude.{List};
    ghost use Rattle.plcx_model.specs.declared.project.Pou.{Pou};
    ghost use Rattle.plcx_plan.specs.Told.{Tells};

    ghost Value = { List Pou };

    ghost view = { λ p. p.pous.now };

    ghost invariant = { λ p. Tells p.pous.now p.table.entries };
}

fn is_program(kind: PouKind) -> bool
    ensures { result ≡ is_program kind }
{
    kind == PouKind::Program
}

/// One name more, where it has no place yet.
fn with_key(
    mut table: IndexMap<Vec<u8>, usize>,
    place: usize,
    key: Vec<u8>,
) -> Result<IndexMap<Vec<u8>, usize>, AllocError>
    ensures { IfOk result (λ after. (q : List ℕ) → place_at q after.entries ≡ found_or (place_at q table.entries) (place_if (bytes_eq q key.items) place)) }
{
    if table.contains_key(key.as_slice()) {
        return Ok(table);
    }
    table.insert(key, place)?;
    Ok(table)
}

/// One POU more: a program has its place, where its name has none yet.
fn with_pou(
    alloc: Global,
    table: IndexMap<Vec<u8>, usize>,
    place: usize,
    pou: &Pou,
) -> Result<IndexMap<Vec<u8>, usize>, AllocError>
    ensures { IfOk result (λ after. (q : List ℕ) → place_at q after.entries ≡ found_or (place_at q table.entries) (place_if (is_program_named q pou.now) place)) }
{
    if !is_program(pou.kind) {
        return Ok(table);
    }
    let key = in_lower_case(alloc, pou.name.text())?;
    Ok(with_key(table, place, key)?)
}

fn places_in(alloc: Global, pous: &[Pou]) -> Result<IndexMap<Vec<u8>, usize>, AllocError>
    ensures { IfOk result (λ table. Tells pous.now table.entries) }
{
    let mut table = IndexMap::new(alloc);
    for (place, pou) in pous.iter().enumerate() {
        table = with_pou(alloc, table, place, pou)?;
    }
    Ok(table)
}

impl<'a> Programs<'a> {
    /// The programs of a project.
    pub fn of(alloc: Global, pous: &'a [Pou]) -> Result<Programs<'a>, AllocError>
        ensures { IfOk result (λ programs. programs ≡ pous.now) }
    {
        let table = places_in(alloc, pous)?;
        Ok(Programs { pous, table })
    }

    fn pous(&self) -> &'a [Pou]
        ensures { result.now ≡ self.now }
    {
        self.pous
    }

    /// The place of the program of that name, which is given in lower case.
    fn place(&self, key: &[u8]) -> Option<usize>
        ensures { result ≡ program_at self.now key.now }
    {
        self.table.get(key).copied()
    }
}

fn program_at<'a>(programs: &Programs<'a>, place: usize) -> Option<&'a Pou>
    ensures { option_copied result ≡ slice_get programs.now place }
{
    programs.pous().get(place)
}

/// The program that an element names as its type.
pub fn program_of<'a>(
    alloc: Global,
    programs: &Programs<'a>,
    element: &Element,
) -> Result<Option<&'a Pou>, AllocError>
    ensures some { IfOk result (λ found. IfSome found (λ pou. IsOfProgram programs.now element.now pou.now)) }
    ensures none { IfOk result (λ found. IfNone found ((pou : Declared) → IsOfProgram programs.now element.now pou → ⊥)) }
{
    let Some(name) = value_once(element, "typeName") else {
        return Ok(None);
    };
    let key = in_lower_case(alloc, name)?;
    let Some(place) = programs.place(key.as_slice()) else {
        return Ok(None);
    };
    Ok(program_at(programs, place))
}

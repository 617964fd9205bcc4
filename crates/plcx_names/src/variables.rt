//! The variables of a POU by their names.
ghost use Rattle.std.specs.Prelude.{◌≡◌, ◌++◌, ℕ, List, map, option_map, option_and_then, slice_get, IfOk};
ghost use Rattle.std.specs.List.{find, flat_map};
ghost use Rattle.plcx_rules.specs.Declarations.{declared_in, declarations_of};
ghost use Rattle.plcx_names.specs.Seen.{shown_variable, summary, is_declared, VariablesTold};
ghost use Rattle.plcx_names.specs.Told.{place_at, found_or, place_if};

use crate::tables::with_name;
use indexmap::IndexMap;
use plcx_model::{ListClass, Pou, VarList, VarTy, Variable};
use std::alloc::{AllocError, Global};
use std::marker::Model;

/// What a variable's list says of it, and its type.
#[derive(Clone, Copy, Debug, PartialEq, Eq)]
pub struct Declared {
    pub class: ListClass,
    pub constant: bool,
    pub ty: VarTy,
}

/// A variable, with what its list says of it.
#[derive(Clone, Copy)]
pub struct OwnVariable<'a> {
    pub class: ListClass,
    pub constant: bool,
    pub variable: &'a Variable,
}

fn with_list<'a>(
    mut found: Vec<OwnVariable<'a>>,
    list: &'a VarList,
) -> Result<Vec<OwnVariable<'a>>, AllocError>
    ensures { IfOk result (λ all. map shown_variable all.items ≡ map shown_variable found.entry.items ++ declared_in list.now) }
{
    let variables = list.variables();
    for variable in variables {
        found.push(OwnVariable {
            class: list.class,
            constant: list.constant,
            variable,
        })?;
    }
    Ok(found)
}

/// The variables of a POU, in the order of the file.
pub fn variables_of(alloc: Global, pou: &Pou) -> Result<Vec<OwnVariable<'_>>, AllocError>
    ensures { IfOk result (λ all. map shown_variable all.items ≡ declarations_of pou.now) }
{
    let mut found = Vec::new(alloc);
    let lists = pou.lists();
    for list in lists {
        found = with_list(found, list)?;
    }
    Ok(found)
}

/// One variable more.
fn with_one(
    alloc: Global,
    table: IndexMap<Vec<u8>, usize>,
    place: usize,
    one: &OwnVariable,
) -> Result<IndexMap<Vec<u8>, usize>, AllocError>
    ensures { IfOk result (λ after. (q : List ℕ) → place_at q after.entries ≡ found_or (place_at q table.entries) (place_if (is_declared q (shown_variable one.now)) place)) }
{
    let name = one.variable.name.text();
    Ok(with_name(alloc, table, place, Some(name))?)
}

/// The place of each name in lower case.
fn places_of(alloc: Global, all: &[OwnVariable]) -> Result<IndexMap<Vec<u8>, usize>, AllocError>
    ensures { IfOk result (λ table. VariablesTold all.now table.entries) }
{
    let mut table = IndexMap::new(alloc);
    for (place, one) in all.iter().enumerate() {
        table = with_one(alloc, table, place, one)?;
    }
    Ok(table)
}

/// Some variables, found by their names in lower case.
#[derive(Drop)]
pub struct Variables<'a> {
    all: Vec<OwnVariable<'a>>,
    table: IndexMap<Vec<u8>, usize>,
}

impl<'a> Model for Variables<'a> {
    ghost use Rattle.std.specs.Prelude.{List, map};
    ghost use Rattle.plcx_rules.specs.Declarations.{Declaration};
    ghost use Rattle.plcx_names.specs.Seen.{shown_variable, VariablesTold};

    ghost Value = { List Declaration };

    ghost view = { λ v. map shown_variable v.all.items };

    ghost invariant = { λ v. VariablesTold v.all.items v.table.entries };
}

/// What the variable's list says of it, and its type.
pub fn summary(one: &OwnVariable) -> Declared
    ensures { result ≡ summary (shown_variable one.now) }
{
    Declared {
        class: one.class,
        constant: one.constant,
        ty: one.variable.ty,
    }
}

/// What stands at a place, where one is given.
fn at<'a>(all: &[OwnVariable<'a>], place: Option<usize>) -> Option<OwnVariable<'a>>
    ensures { option_map shown_variable result ≡ option_map shown_variable (option_and_then (slice_get all.now) place) }
{
    match place {
        None => None,
        Some(place) => all.get(place).copied(),
    }
}

impl<'a> Variables<'a> {
    /// These variables.
    pub fn of(alloc: Global, all: Vec<OwnVariable<'a>>) -> Result<Variables<'a>, AllocError>
        ensures { IfOk result (λ v. v ≡ map shown_variable all.entry.items) }
    {
        let table = places_of(alloc, &all)?;
        Ok(Variables { all, table })
    }

    /// The variable of that name, which is given in lower case.
    pub fn find(&self, key: &[u8]) -> Option<OwnVariable<'a>>
        ensures { option_map shown_variable result ≡ find (is_declared key.now) self.now }
    {
        let place = self.table.get(key).copied();
        at(&self.all, place)
    }
}

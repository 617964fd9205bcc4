//! The variables of a POU by their names.
ghost use Rattle.std.specs.Prelude.{◌≡◌, ◌++◌, List, map, option_map, option_and_then, slice_get, take, IfOk};
ghost use Rattle.std.specs.List.{list_any};
ghost use Rattle.plcx_meaning.specs.Tree as tree;
ghost use Rattle.plcx_st.specs.Meant.{class_meant, mark_meant};
ghost use Rattle.plcx_conditions.specs.Placed.{Declared, declared_in};
ghost use Rattle.plcx_conditions.specs.Places.{placed_declaration, placed_block, placed_pou};
ghost use Rattle.plcx_conditions.specs.Known.{same_name};
ghost use Rattle.plcx_known.specs.declared.owner.Own.{Own};
ghost use Rattle.plcx_known.specs.Unit.{bare_of};
ghost use Rattle.plcx_known.specs.Owned.{Typed, typed, own_of, shown_own, name_of, variable_in, seen_of, shown_seen, is_in_out, names_in_out, in_out_names, AreNamed};

use crate::names::Names;
use crate::pous::Pous;
use crate::seen::Seen;
use crate::types::VarType;
use plcx_st::{Decl, Mark, PouText, TextBlock, TextClass};
use plcx_types::NoMemory;
use std::alloc::Global;
use std::marker::Model;

/// A variable with the class and the mark of its block, and with what its type stands for.
#[derive(Clone, Copy)]
pub struct Own<'a> {
    pub class: TextClass,
    pub mark: Mark,
    pub decl: &'a Decl,
    pub ty: VarType,
}

impl<'a> Own<'a> {
    /// Its name, as it is declared.
    pub fn name(&self) -> &'a [u8]
        ensures { result.now ≡ name_of (shown_own self.now) }
    {
        self.decl.name.name.text()
    }

    /// What a name that leads to it means.
    pub fn seen(&self) -> Seen
        ensures { (unit : List tree.PouText) → shown_seen unit result ≡ seen_of unit (shown_own self.now) }
    {
        Seen {
            class: self.class,
            mark: self.mark,
            ty: self.ty,
        }
    }
}

/// A declaration of a block of this class and mark.
fn own_of<'a>(
    alloc: Global,
    pous: &Pous,
    class: TextClass,
    mark: Mark,
    decl: &'a Decl,
) -> Result<Own<'a>, NoMemory>
    ensures { IfOk result (λ own. shown_own own ≡ (
        let d : Declared = record { class = class_meant class; mark = mark_meant mark; declaration = placed_declaration decl.now } in
        typed (bare_of pous.now) d)) }
{
    let ty = pous.type_of(alloc, decl.ty.name.text())?;
    Ok(Own {
        class,
        mark,
        decl,
        ty,
    })
}

/// The declarations of one block more.
fn with_block<'a>(
    alloc: Global,
    pous: &Pous,
    mut found: Vec<Own<'a>>,
    block: &'a TextBlock,
) -> Result<Vec<Own<'a>>, NoMemory>
    ensures { IfOk result (λ all. map shown_own all.items ≡ map shown_own found.entry.items ++ map (typed (bare_of pous.now)) (declared_in (placed_block block.now))) }
{
    let decls = block.decls.as_slice();
    for decl in decls {
        found.push(own_of(alloc, pous, block.class, block.mark, decl)?)?;
    }
    Ok(found)
}

/// The variables of a POU, in the order of the text.
fn variables_of<'a>(alloc: Global, pous: &Pous, pou: &'a PouText) -> Result<Vec<Own<'a>>, NoMemory>
    ensures { IfOk result (λ all. map shown_own all.items ≡ own_of (bare_of pous.now) (placed_pou pou.now)) }
{
    let mut found = Vec::new(alloc);
    let blocks = pou.blocks.as_slice();
    for block in blocks {
        found = with_block(alloc, pous, found, block)?;
    }
    Ok(found)
}

fn names_of<'a>(alloc: Global, all: &[Own<'a>]) -> Result<Vec<&'a [u8]>, NoMemory>
    ensures { IfOk result (λ names. map (λ s. s.now) names.items ≡ map name_of (map shown_own all.now)) }
{
    let mut names = Vec::new(alloc);
    for own in all {
        names.push(own.name())?;
    }
    Ok(names)
}

/// What stands at a place, where one is given.
fn at<'a>(all: &[Own<'a>], place: Option<usize>) -> Option<Own<'a>>
    ensures { option_map shown_own result ≡ option_map shown_own (option_and_then (slice_get all.now) place) }
{
    match place {
        None => None,
        Some(place) => all.get(place).copied(),
    }
}

/// The first variable of a name.
#[tactic(auto, using(crate::proofs::Owners::found_at))]
fn variable_in<'a>(
    alloc: Global,
    all: &[Own<'a>],
    names: &Names,
    name: &[u8],
) -> Result<Option<Own<'a>>, NoMemory>
    requires { AreNamed all.now names.now }
    ensures { IfOk result (λ own. option_map shown_own own ≡ variable_in name.now (map shown_own all.now)) }
{
    let place = names.place(alloc, name)?;
    Ok(at(all, place))
}

fn is_in_out(own: Option<Own>) -> bool
    ensures { result ≡ is_in_out (option_map shown_own own.entry) }
{
    match own {
        None => false,
        Some(own) => match own.class {
            TextClass::InOut => true,
            _ => false,
        },
    }
}

/// The names of variables that lead to in-outs.
fn in_outs_of<'a>(alloc: Global, all: &[Own<'a>], names: &Names) -> Result<Vec<&'a [u8]>, NoMemory>
    requires { AreNamed all.now names.now }
    ensures { IfOk result (λ found. map (λ s. s.now) found.items ≡ in_out_names (map shown_own all.now)) }
{
    let mut found = Vec::new(alloc);
    for own in all {
        if is_in_out(variable_in(alloc, all, names, own.name())?) {
            found.push(own.name())?;
        }
    }
    Ok(found)
}

/// The variables of a POU, found by their names.
#[derive(Drop)]
pub struct Owner<'a> {
    all: Vec<Own<'a>>,
    names: Names<'a>,
    in_outs: Vec<&'a [u8]>,
}

impl<'a> Model for Owner<'a> {
    ghost use Rattle.std.specs.Prelude.{◌≡◌, List, map};
    ghost use Rattle.plcx_known.specs.Owned.{Typed, shown_own, in_out_names, AreNamed};

    ghost Value = { List Typed };

    ghost view = { λ o. map shown_own o.all.items };

    ghost invariant = { λ o. AreNamed o.all.items o.names × (map (λ s. s.now) o.in_outs.items ≡ in_out_names (map shown_own o.all.items)) };
}

impl<'a> Owner<'a> {
    /// The variables of a POU of a unit.
    pub fn of(alloc: Global, pous: &Pous, pou: &'a PouText) -> Result<Owner<'a>, NoMemory>
        ensures { IfOk result (λ owner. owner ≡ own_of (bare_of pous.now) (placed_pou pou.now)) }
    {
        let all = variables_of(alloc, pous, pou)?;
        let names = Names::of(alloc, names_of(alloc, &all)?)?;
        let in_outs = in_outs_of(alloc, &all, &names)?;
        Ok(Owner {
            all,
            names,
            in_outs,
        })
    }

    /// The variables, in the order of the text.
    pub fn variables(&self) -> &[Own<'a>]
        ensures { map shown_own result.now ≡ self.now }
    {
        &self.all
    }

    /// The first variable of a name.
    pub fn find(&self, alloc: Global, name: &[u8]) -> Result<Option<Own<'a>>, NoMemory>
        ensures { IfOk result (λ own. option_map shown_own own ≡ variable_in name.now self.now) }
    {
        Ok(variable_in(alloc, &self.all, &self.names, name)?)
    }

    /// Whether an earlier variable than the one at a place has that name.
    pub fn has_before(&self, alloc: Global, place: usize, name: &[u8]) -> Result<bool, NoMemory>
        ensures { IfOk result (λ has. has ≡ list_any (λ (t : Typed). same_name (name_of t) name.now) (take place self.now)) }
    {
        Ok(self.names.has_before(alloc, place, name)?)
    }

    /// The names of variables that lead to in-outs.
    pub fn in_outs(&self) -> &[&'a [u8]]
        ensures { map (λ s. s.now) result.now ≡ in_out_names self.now }
    {
        &self.in_outs
    }
}

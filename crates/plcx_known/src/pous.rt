//! The POUs of a unit by their names, and what the names of types stand for.
ghost use Rattle.std.specs.Prelude.{◌≡◌, ℕ, List, map, option_map, slice_get, IfOk};
ghost use Rattle.plcx_st.specs.declared.tree.PouText.{PouText};
ghost use Rattle.plcx_known.specs.Unit.{placed_of, bare_of};
ghost use Rattle.plcx_known.specs.Types.{place_named, block_at, block_type, type_of};

use crate::names::Names;
use crate::types::VarType;
use plcx_st::{PouText, TextKind};
use plcx_std::std_lookup;
use plcx_types::{NoMemory, Ty};
use std::alloc::Global;
use std::marker::Model;

fn names_of<'a>(alloc: Global, pous: &'a [PouText]) -> Result<Vec<&'a [u8]>, NoMemory>
    ensures { IfOk result (λ names. map (λ s. s.now) names.items ≡ map (λ (p : PouText). p.name.name) pous.now) }
{
    let mut names = Vec::new(alloc);
    for pou in pous {
        names.push(pou.name.name.text())?;
    }
    Ok(names)
}

/// The POUs of a unit, found by their names.
#[derive(Drop)]
pub struct Pous<'a> {
    pous: &'a [PouText],
    names: Names<'a>,
}

impl<'a> Model for Pous<'a> {
    ghost use Rattle.std.specs.Prelude.{◌≡◌, List, map};
    ghost use Rattle.std.specs.Coded.{codes};
    ghost use Rattle.plcx_st.specs.contracts.tree.PouText as p;
    ghost use Rattle.plcx_st.specs.declared.tree.PouText.{PouText};

    ghost Value = { List PouText };

    ghost coded = { Prim.hlevel (codes, p.the_row.coded) };

    ghost view = { λ u. u.pous.now };

    ghost invariant = { λ u. u.names ≡ map (λ (p : PouText). p.name.name) u.pous.now };
}

fn is_block(kind: TextKind) -> bool
    ensures { result ≡ is_block kind }
{
    match kind {
        TextKind::Program => false,
        TextKind::FunctionBlock => true,
    }
}

ghost use Rattle.plcx_known.specs.Owned.{is_block};

fn pou_at(pous: &[PouText], place: usize) -> Option<&PouText>
    ensures { option_map (λ p. p.now) result ≡ slice_get pous.now place }
{
    pous.get(place)
}

impl<'a> Pous<'a> {
    /// These POUs.
    pub fn of(alloc: Global, pous: &'a [PouText]) -> Result<Pous<'a>, NoMemory>
        ensures { IfOk result (λ u. u ≡ pous.now) }
    {
        let names = Names::of(alloc, names_of(alloc, pous)?)?;
        Ok(Pous { pous, names })
    }

    /// The POUs, in the order of the text.
    pub fn list(&self) -> &'a [PouText]
        ensures { result.now ≡ self.now }
    {
        self.pous
    }

    /// The place of the first POU of that name.
    fn place(&self, alloc: Global, name: &[u8]) -> Result<Option<usize>, NoMemory>
        ensures { IfOk result (λ place. place ≡ place_named name.now (bare_of self.now)) }
    {
        Ok(self.names.place(alloc, name)?)
    }

    /// Whether an earlier POU than the one at a place has that name.
    pub fn has_before(&self, alloc: Global, place: usize, name: &[u8]) -> Result<bool, NoMemory>
        ensures { IfOk result (λ has. has ≡ list_any (λ (p : Pou). same_name p.name.name name.now) (take place (placed_of self.now))) }
    {
        Ok(self.names.has_before(alloc, place, name)?)
    }

    fn is_block_at(&self, place: usize) -> bool
        ensures { result ≡ is_some (block_at (bare_of self.now) place) }
    {
        match pou_at(self.list(), place) {
            None => false,
            Some(pou) => is_block(pou.kind),
        }
    }

    #[tactic(auto, using(crate::proofs::Units::type_at, crate::proofs::Units::no_type_at))]
    fn block_type(&self, place: Option<usize>) -> VarType
        ensures { result ≡ block_type (bare_of self.now) place }
    {
        match place {
            None => VarType::Unknown,
            Some(place) => {
                if self.is_block_at(place) {
                    VarType::Block(place)
                } else {
                    VarType::Unknown
                }
            }
        }
    }

    fn composed_type(&self, alloc: Global, name: &[u8]) -> Result<VarType, NoMemory>
        ensures { IfOk result (λ ty. ty ≡ composed_type (bare_of self.now) name.now) }
    {
        match std_lookup(name) {
            Some(kind) => Ok(VarType::Standard(kind)),
            None => Ok(self.block_type(self.place(alloc, name)?)),
        }
    }

    /// What the name of a type stands for.
    pub fn type_of(&self, alloc: Global, name: &[u8]) -> Result<VarType, NoMemory>
        ensures { IfOk result (λ ty. ty ≡ type_of (bare_of self.now) name.now) }
    {
        match Ty::named(name) {
            Some(ty) => Ok(VarType::Elementary(ty)),
            None => Ok(self.composed_type(alloc, name)?),
        }
    }
}

ghost use Rattle.std.specs.Prelude.{take, is_some};
ghost use Rattle.std.specs.List.{list_any};
ghost use Rattle.plcx_conditions.specs.Placed.{Pou};
ghost use Rattle.plcx_conditions.specs.Known.{same_name};
ghost use Rattle.plcx_known.specs.Types.{composed_type};

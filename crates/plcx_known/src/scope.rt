//! A unit with its tables: what names lead to in its POUs and in their instances.
ghost use Rattle.std.specs.Prelude.{◌≡◌, List, map, option_map, slice_get, IfOk};
ghost use Rattle.plcx_meaning.specs.Tree as tree;
ghost use Rattle.plcx_st.specs.declared.tree.PouText.{PouText};
ghost use Rattle.plcx_known.specs.Unit.{placed_of, bare_of};
ghost use Rattle.plcx_conditions.specs.Places.{placed_pou};
ghost use Rattle.plcx_conditions.specs.Known.{seen_in};
ghost use Rattle.plcx_known.specs.Owned.{own_of, shown_seen};
ghost use Rattle.plcx_known.specs.Parts.{owners_of};
ghost use Rattle.plcx_known.specs.Types.{parts_of};

use crate::owner::{Own, Owner};
use crate::pous::Pous;
use crate::seen::{Seen, standard_part};
use crate::types::VarType;
use plcx_st::PouText;
use plcx_types::NoMemory;
use std::alloc::Global;
use std::marker::Model;

fn owners_of<'a>(
    alloc: Global,
    pous: &Pous,
    list: &'a [PouText],
) -> Result<Vec<Owner<'a>>, NoMemory>
    ensures { IfOk result (λ owners. owners.items ≡ map (λ (p : PouText). own_of (bare_of pous.now) (placed_pou p)) list.now) }
{
    let mut owners = Vec::new(alloc);
    for pou in list {
        owners.push(Owner::of(alloc, pous, pou)?)?;
    }
    Ok(owners)
}

/// The POUs of a unit with their variables, each found by its name.
#[derive(Drop)]
pub struct Scope<'a> {
    pous: Pous<'a>,
    owners: Vec<Owner<'a>>,
}

impl<'a> Model for Scope<'a> {
    ghost use Rattle.std.specs.Prelude.{◌≡◌, List};
    ghost use Rattle.std.specs.Coded.{codes};
    ghost use Rattle.plcx_st.specs.contracts.tree.PouText as p;
    ghost use Rattle.plcx_st.specs.declared.tree.PouText.{PouText};
    ghost use Rattle.plcx_known.specs.Unit.{placed_of};
    ghost use Rattle.plcx_known.specs.Parts.{owners_of};

    ghost Value = { List PouText };

    ghost coded = { Prim.hlevel (codes, p.the_row.coded) };

    ghost view = { λ s. s.pous };

    ghost invariant = { λ s. s.owners.items ≡ owners_of (placed_of s.pous) };
}

fn seen_by(own: Option<Own>) -> Option<Seen>
    ensures { (unit : List tree.PouText) → option_map (shown_seen unit) result ≡ option_map (seen_of unit) (option_map shown_own own.entry) }
{
    match own {
        None => None,
        Some(own) => Some(own.seen()),
    }
}

ghost use Rattle.plcx_known.specs.Owned.{seen_of, shown_own, variable_in, Typed};

/// What a name leads to among the variables of a POU.
pub fn own_part(alloc: Global, owner: &Owner, name: &[u8]) -> Result<Option<Seen>, NoMemory>
    ensures { IfOk result (λ part. (unit : List tree.PouText) → option_map (shown_seen unit) part ≡ option_map (seen_of unit) (variable_in name.now owner.now)) }
{
    Ok(seen_by(owner.find(alloc, name)?))
}

impl<'a> Scope<'a> {
    /// The POUs of a unit.
    #[tactic(auto, using(crate::proofs::Parts::owners_are))]
    pub fn of(alloc: Global, list: &'a [PouText]) -> Result<Scope<'a>, NoMemory>
        ensures { IfOk result (λ s. s ≡ list.now) }
    {
        let pous = Pous::of(alloc, list)?;
        let owners = owners_of(alloc, &pous, list)?;
        Ok(Scope { pous, owners })
    }

    /// The POUs, found by their names.
    pub fn pous(&self) -> &Pous<'a>
        ensures { result.now ≡ self.now }
    {
        &self.pous
    }

    /// The variables of each POU.
    pub fn owners(&self) -> &[Owner<'a>]
        ensures { result.now ≡ owners_of (placed_of self.now) }
    {
        &self.owners
    }

    /// The variables of the POU at a place.
    pub fn owner(&self, place: usize) -> Option<&Owner<'a>>
        ensures { option_map (λ o. o.now) result ≡ slice_get (owners_of (placed_of self.now)) place }
    {
        self.owners.get(place)
    }

    #[tactic(auto, using(crate::proofs::Parts::block_parts, crate::proofs::Parts::no_block_parts))]
    fn block_part(&self, alloc: Global, place: usize, name: &[u8]) -> Result<Option<Seen>, NoMemory>
        ensures { IfOk result (λ part. option_map (shown_seen (bare_of self.now)) part ≡ seen_in (bare_of self.now) (parts_of (bare_of self.now) (Block place)) name.now) }
    {
        match self.owner(place) {
            None => Ok(None),
            Some(owner) => Ok(own_part(alloc, owner, name)?),
        }
    }

    /// What a name leads to among the variables of an instance of a type.
    pub fn part(&self, alloc: Global, ty: VarType, name: &[u8]) -> Result<Option<Seen>, NoMemory>
        ensures { IfOk result (λ part. option_map (shown_seen (bare_of self.now)) part ≡ seen_in (bare_of self.now) (parts_of (bare_of self.now) ty) name.now) }
    {
        match ty {
            VarType::Unknown | VarType::Elementary(_) => Ok(None),
            VarType::Standard(kind) => Ok(standard_part(kind, name)),
            VarType::Block(place) => Ok(self.block_part(alloc, place, name)?),
        }
    }
}

ghost use Rattle.plcx_known.specs.declared.types.VarType.TheVariants.{Block};

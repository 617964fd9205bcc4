//! The POUs of a project, and what a block's `typeName` is among them.
ghost use Rattle.std.specs.Prelude.{◌≡◌, ℕ, List, Some, None, map, option_map, slice_get, IfOk};
ghost use Rattle.std.specs.List.{position_from};
ghost use Rattle.plcx_rules.specs.Callees.{is_block, callee_named, outputs_of_type, pin_named};
ghost use Rattle.plcx_names.specs.Seen.{is_block_key, BlocksTold};
ghost use Rattle.plcx_names.specs.Told.{place_at, found_or, place_if};

use crate::owner::Owner;
use crate::pins::{OwnPin, standard_pin};
use crate::tables::with_name;
use crate::texts::in_lower_case;
use indexmap::IndexMap;
use plcx_funcs::lookup;
use plcx_model::{Pou, PouKind, VarTy};
use plcx_rules::Callee;
use plcx_std::{Role, std_lookup};
use std::alloc::{AllocError, Global};
use std::marker::Model;

/// The POUs of a project with their names, of which function blocks are found by theirs.
#[derive(Drop)]
pub struct Scope<'a> {
    owners: Vec<Owner<'a>>,
    blocks: IndexMap<Vec<u8>, usize>,
}

impl<'a> Model for Scope<'a> {
    ghost use Rattle.std.specs.Prelude.{List};
    ghost use Rattle.plcx_model.specs.declared.project.Pou.{Pou};
    ghost use Rattle.plcx_names.specs.Seen.{BlocksTold};

    ghost Value = { List Pou };

    ghost view = { λ s. s.owners.items };

    ghost invariant = { λ s. BlocksTold s.owners.items s.blocks.entries };
}

fn is_block(kind: PouKind) -> bool
    ensures { result ≡ is_block kind }
{
    match kind {
        PouKind::Program => false,
        PouKind::FunctionBlock => true,
    }
}

/// One POU more, if it is a function block.
fn with_pou(
    alloc: Global,
    table: IndexMap<Vec<u8>, usize>,
    place: usize,
    pou: &Pou,
) -> Result<IndexMap<Vec<u8>, usize>, AllocError>
    ensures { IfOk result (λ after. (q : List ℕ) → place_at q after.entries ≡ found_or (place_at q table.entries) (place_if (is_block_key q pou.now) place)) }
{
    if !is_block(pou.kind) {
        return Ok(table);
    }
    let name = pou.name.text();
    Ok(with_name(alloc, table, place, Some(name))?)
}

/// The place of each function block.
fn places_of(alloc: Global, pous: &[Pou]) -> Result<IndexMap<Vec<u8>, usize>, AllocError>
    ensures { IfOk result (λ table. BlocksTold pous.now table.entries) }
{
    let mut table = IndexMap::new(alloc);
    for (place, pou) in pous.iter().enumerate() {
        table = with_pou(alloc, table, place, pou)?;
    }
    Ok(table)
}

fn owners_of(alloc: Global, pous: &[Pou]) -> Result<Vec<Owner<'_>>, AllocError>
    ensures { IfOk result (λ owners. owners.items ≡ pous.now) }
{
    let mut owners = Vec::new(alloc);
    for pou in pous {
        owners.push(Owner::of(alloc, pou)?)?;
    }
    Ok(owners)
}

/// A place as a number of 32 bits. What is too large for one would not have fitted the memory.
pub fn narrow(place: usize) -> Result<u32, AllocError>
    ensures { IfOk result (λ n. n ≡ place) }
{
    if place < 4_294_967_296 {
        Ok(place as u32)
    } else {
        Err(AllocError)
    }
}

fn block_of(place: Option<usize>) -> Result<Option<Callee>, AllocError>
    ensures { IfOk result (λ callee. callee ≡ option_map Block place) }
{
    match place {
        None => Ok(None),
        Some(place) => Ok(Some(Callee::Block(narrow(place)?))),
    }
}

ghost use Rattle.plcx_rules.specs.declared.callee.Callee.TheVariants.{Block};

impl<'a> Scope<'a> {
    /// These POUs.
    pub fn of(alloc: Global, pous: &'a [Pou]) -> Result<Scope<'a>, AllocError>
        ensures { IfOk result (λ scope. scope ≡ pous.now) }
    {
        let owners = owners_of(alloc, pous)?;
        let blocks = places_of(alloc, pous)?;
        Ok(Scope { owners, blocks })
    }

    /// The POUs, each with its names.
    pub fn owners(&self) -> &[Owner<'a>]
        ensures { result.now ≡ self.now }
    {
        &self.owners
    }

    /// The POU at a place.
    pub fn owner(&self, place: usize) -> Option<&Owner<'a>>
        ensures { option_map (λ o. o.now) result ≡ slice_get self.now place }
    {
        self.owners.get(place)
    }

    /// The name of the POU at a place.
    pub fn pou_name(&self, place: usize) -> Option<&'a [u8]>
        ensures { option_map (λ n. n.now) result ≡ option_map (λ (p : Pou). p.name) (slice_get self.now place) }
    {
        match self.owner(place) {
            None => None,
            Some(owner) => Some(owner.pou().name.text()),
        }
    }

    /// The place of the function block of that name, which is given in lower case.
    fn block(&self, key: &[u8]) -> Option<usize>
        ensures { result ≡ position_from (is_block_key key.now) 0 self.now }
    {
        self.blocks.get(key).copied()
    }

    /// What the `typeName` of a block is.
    #[tactic(auto, unfolding(plcx_rules::specs::Callees::callee_named, plcx_rules::specs::Callees::block_named))]
    pub fn callee(&self, alloc: Global, type_name: &[u8]) -> Result<Option<Callee>, AllocError>
        ensures { IfOk result (λ callee. callee ≡ callee_named self.now type_name.now) }
    {
        if let Some(func) = lookup(type_name) {
            return Ok(Some(Callee::Function(func)));
        }
        if let Some(kind) = std_lookup(type_name) {
            return Ok(Some(Callee::Standard(kind)));
        }
        let key = in_lower_case(alloc, type_name)?;
        Ok(block_of(self.block(key.as_slice()))?)
    }

    /// The output of that name of an instance of a type.
    #[tactic(auto, unfolding(plcx_rules::specs::Callees::outputs_of_type))]
    pub fn output_of_type(
        &self,
        alloc: Global,
        ty: VarTy,
        name: &[u8],
    ) -> Result<Option<OwnPin<'a>>, AllocError>
        ensures { IfOk result (λ pin. option_map shown_pin pin ≡ pin_named name.now (outputs_of_type self.now ty)) }
    {
        match ty {
            VarTy::Plain(_) => Ok(None),
            VarTy::Std(kind) => Ok(standard_pin(Role::Out, kind, name)),
            VarTy::Block(place) => Ok(self.output_at(alloc, place, name)?),
        }
    }

    fn output_by(&self, place: u32, key: &[u8]) -> Option<OwnPin<'a>>
        ensures { option_map shown_pin result ≡ find (is_pin key.now) (block_pins_at Output self.now place) }
    {
        match self.owner(place as usize) {
            None => None,
            Some(owner) => owner.output(key),
        }
    }

    fn input_by(&self, place: u32, key: &[u8]) -> Option<OwnPin<'a>>
        ensures { option_map shown_pin result ≡ find (is_pin key.now) (block_pins_at Input self.now place) }
    {
        match self.owner(place as usize) {
            None => None,
            Some(owner) => owner.input(key),
        }
    }

    fn in_out_by(&self, place: u32, key: &[u8]) -> Option<OwnPin<'a>>
        ensures { option_map shown_pin result ≡ find (is_pin key.now) (block_pins_at InOut self.now place) }
    {
        match self.owner(place as usize) {
            None => None,
            Some(owner) => owner.in_out(key),
        }
    }

    /// The output of that name of the POU at a place.
    pub fn output_at(
        &self,
        alloc: Global,
        place: u32,
        name: &[u8],
    ) -> Result<Option<OwnPin<'a>>, AllocError>
        ensures { IfOk result (λ pin. option_map shown_pin pin ≡ pin_named name.now (block_pins_at Output self.now place)) }
    {
        let key = in_lower_case(alloc, name)?;
        Ok(self.output_by(place, key.as_slice()))
    }

    /// The input of that name of the POU at a place.
    pub fn input_at(
        &self,
        alloc: Global,
        place: u32,
        name: &[u8],
    ) -> Result<Option<OwnPin<'a>>, AllocError>
        ensures { IfOk result (λ pin. option_map shown_pin pin ≡ pin_named name.now (block_pins_at Input self.now place)) }
    {
        let key = in_lower_case(alloc, name)?;
        Ok(self.input_by(place, key.as_slice()))
    }

    /// The in-out of that name of the POU at a place.
    pub fn in_out_at(
        &self,
        alloc: Global,
        place: u32,
        name: &[u8],
    ) -> Result<Option<OwnPin<'a>>, AllocError>
        ensures { IfOk result (λ pin. option_map shown_pin pin ≡ pin_named name.now (block_pins_at InOut self.now place)) }
    {
        let key = in_lower_case(alloc, name)?;
        Ok(self.in_out_by(place, key.as_slice()))
    }
}

ghost use Rattle.std.specs.List.{find};
ghost use Rattle.plcx_model.specs.declared.project.ListClass.TheVariants.{Input, Output, InOut};
ghost use Rattle.plcx_rules.specs.Callees.{block_pins_at};
ghost use Rattle.plcx_names.specs.Seen.{shown_pin, is_pin};
ghost use Rattle.plcx_model.specs.declared.project.Pou.{Pou};

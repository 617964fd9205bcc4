//! The function blocks of a file by their names.
ghost use Rattle.std.specs.Prelude.{◌≡◌, ℕ, List, IfOk};
ghost use Rattle.std.specs.Str.{bytes_eq};
ghost use Rattle.plcx_profile.specs.Blocks.{is_block, is_block_named, block_named};
ghost use Rattle.plcx_profile.specs.Told.{Tells, place_at, found_or, place_if};

use crate::doubling::in_lower_case;
use indexmap::IndexMap;
use plcx_draft::DraftPou;
use plcx_model::PouKind;
use std::alloc::{AllocError, Global};
use std::marker::Model;

/// The POUs of a file, of which function blocks are found by their names in lower case.
#[derive(Drop)]
pub struct Blocks<'a> {
    pous: &'a [DraftPou],
    table: IndexMap<Vec<u8>, usize>,
}

impl<'a> Model for Blocks<'a> {
    ghost use Rattle.std.specs.Prelude.{List};
    ghost use Rattle.plcx_draft.specs.declared.draft.DraftPou.{DraftPou};
    ghost use Rattle.plcx_profile.specs.Told.{Tells};

    ghost Value = { List DraftPou };

    ghost view = { λ b. b.pous.now };

    ghost invariant = { λ b. Tells b.pous.now b.table.entries };
}

fn is_block(kind: PouKind) -> bool
    ensures { result ≡ is_block kind }
{
    kind == PouKind::FunctionBlock
}

/// One name more, where it has no place yet.
fn with_key(
    mut table: IndexMap<Vec<u8>, usize>,
    place: usize,
    key: Vec<u8>,
) -> Result<IndexMap<Vec<u8>, usize>, AllocError>
    ensures { IfOk result (λ after. (q : List ℕ) → place_at q after.entries ≡ found_or (place_at q table.entries) (place_if (bytes_eq q key.items) place)) }
{
    if table.contains_key(key.as_slice()) {
        return Ok(table);
    }
    table.insert(key, place)?;
    Ok(table)
}

/// One POU more: a function block has its place, where its name has none yet.
fn with_pou(
    alloc: Global,
    table: IndexMap<Vec<u8>, usize>,
    place: usize,
    pou: &DraftPou,
) -> Result<IndexMap<Vec<u8>, usize>, AllocError>
    ensures { IfOk result (λ after. (q : List ℕ) → place_at q after.entries ≡ found_or (place_at q table.entries) (place_if (is_block_named q pou.now) place)) }
{
    if !is_block(pou.kind) {
        return Ok(table);
    }
    let key = in_lower_case(alloc, pou.name.as_slice())?;
    Ok(with_key(table, place, key)?)
}

fn places_in(alloc: Global, pous: &[DraftPou]) -> Result<IndexMap<Vec<u8>, usize>, AllocError>
    ensures { IfOk result (λ table. Tells pous.now table.entries) }
{
    let mut table = IndexMap::new(alloc);
    for (place, pou) in pous.iter().enumerate() {
        table = with_pou(alloc, table, place, pou)?;
    }
    Ok(table)
}

impl<'a> Blocks<'a> {
    /// The function blocks of a file.
    pub fn of(alloc: Global, pous: &'a [DraftPou]) -> Result<Blocks<'a>, AllocError>
        ensures { IfOk result (λ blocks. blocks ≡ pous.now) }
    {
        let table = places_in(alloc, pous)?;
        Ok(Blocks { pous, table })
    }

    /// The POUs of the file.
    pub fn pous(&self) -> &'a [DraftPou]
        ensures { result.now ≡ self.now }
    {
        self.pous
    }

    /// The place of the function block of that name, which is given in lower case.
    pub fn place(&self, name: &[u8]) -> Option<usize>
        ensures { result ≡ block_named self.now name.now }
    {
        self.table.get(name).copied()
    }
}

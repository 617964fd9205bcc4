//! The tables of all POUs of a unit.
ghost use Rattle.std.specs.Prelude.{◌≡◌, ◌<◌, List, Some, length, map, option_map, slice_get, IfOk};
ghost use Rattle.plcx_st.specs.declared.tree.PouText.{PouText};
ghost use Rattle.plcx_st.specs.Meant.{pou_meant};
ghost use Rattle.plcx_known.specs.Unit.{placed_of};
ghost use Rattle.plcx_known.specs.Parts.{owners_of};
ghost use Rattle.plcx_known.specs.Owned.{Typed};
ghost use Rattle.plcx_known.specs.Sizes.{size_at};
ghost use Rattle.plcx_text_numbered.specs.Numbers.{place_named};
ghost use Rattle.plcx_text_tables.specs.Counts.{all_counts, all_heights};
ghost use Rattle.plcx_text_tables.specs.Tabled.{table_of, shown_table};

use crate::counts::{all_counts, all_heights, at};
use crate::numbers::{Table, table_of};
use plcx_known::{Names, Owner, Scope};
use plcx_st::PouText;
use plcx_types::NoMemory;
use std::alloc::Global;
use std::marker::Model;

fn tables_of<'u>(
    alloc: Global,
    counts: &[usize],
    owners: &[Owner<'u>],
) -> Result<Vec<Table<'u>>, NoMemory>
    ensures { IfOk result (λ all. map shown_table all.items ≡ map (table_of counts.now) owners.now) }
{
    let mut all = Vec::new(alloc);
    for owner in owners {
        all.push(table_of(alloc, counts, owner.variables())?)?;
    }
    Ok(all)
}

fn names_of<'u>(alloc: Global, pous: &'u [PouText]) -> Result<Vec<&'u [u8]>, NoMemory>
    ensures { IfOk result (λ names. map (λ s. s.now) names.items ≡ map (λ (p : PouText). p.name.name) pous.now) }
{
    let mut names = Vec::new(alloc);
    for pou in pous {
        names.push(pou.name.name.text())?;
    }
    Ok(names)
}

/// The POUs of a unit with their tables, and how many levels of function blocks are below each.
#[derive(Drop)]
pub struct Tables<'u> {
    pous: &'u [PouText],
    names: Names<'u>,
    levels: Vec<usize>,
    tables: Vec<Table<'u>>,
}

impl<'u> Model for Tables<'u> {
    ghost use Rattle.std.specs.Prelude.{◌≡◌, List, map};
    ghost use Rattle.std.specs.Coded.{codes};
    ghost use Rattle.plcx_st.specs.contracts.tree.PouText as p;
    ghost use Rattle.plcx_st.specs.declared.tree.PouText.{PouText};
    ghost use Rattle.plcx_known.specs.Unit.{placed_of};
    ghost use Rattle.plcx_known.specs.Parts.{owners_of};
    ghost use Rattle.plcx_text_tables.specs.Counts.{all_counts, all_heights};
    ghost use Rattle.plcx_text_tables.specs.Tabled.{table_of, shown_table};

    ghost Value = { List PouText };

    ghost coded = { Prim.hlevel (codes, p.the_row.coded) };

    ghost view = { λ t. t.pous.now };

    ghost invariant = { λ t. let owners = owners_of (placed_of t.pous.now) in
        (t.names ≡ map (λ (p : PouText). p.name.name) t.pous.now)
        × (t.levels.items ≡ all_heights owners)
        × (map shown_table t.tables.items ≡ map (table_of (all_counts owners)) owners) };
}

/// The tables of these POUs, by the names, the levels and the tables of each.
fn joined<'u>(
    pous: &'u [PouText],
    names: Names<'u>,
    levels: Vec<usize>,
    tables: Vec<Table<'u>>,
) -> Tables<'u>
    requires names { names ≡ map (λ (p : PouText). p.name.name) pous.now }
    requires levels { levels.items ≡ all_heights (owners_of (placed_of pous.now)) }
    requires tables { map shown_table tables.items ≡ map (table_of (all_counts (owners_of (placed_of pous.now)))) (owners_of (placed_of pous.now)) }
    ensures { result ≡ pous.now }
{
    Tables {
        pous,
        names,
        levels,
        tables,
    }
}

#[tactic(auto, using(crate::proofs::Found::table_there))]
fn table_at<'t, 'u>(tables: &'t [Table<'u>], place: usize) -> Option<&'t Table<'u>>
    ensures { option_map (λ t. shown_table t.now) result ≡ slice_get (map shown_table tables.now) place }
{
    tables.get(place)
}

#[tactic(auto, using(crate::proofs::Found::is_there))]
fn there<'t, 'u>(tables: &'t [Table<'u>], place: usize) -> &'t Table<'u>
    requires { place < length tables.now }
    ensures { slice_get (map shown_table tables.now) place ≡ Some (shown_table result.now) }
{
    &tables[place]
}

fn pou_at(pous: &[PouText], place: usize) -> Option<&PouText>
    ensures { option_map (λ p. p.now) result ≡ slice_get pous.now place }
{
    pous.get(place)
}

fn or_count(place: Option<usize>, count: usize) -> usize
    ensures { result ≡ unwrap_or place count }
{
    match place {
        None => count,
        Some(place) => place,
    }
}

ghost use Rattle.std.specs.Prelude.{unwrap_or};

impl<'u> Tables<'u> {
    /// The tables of these POUs.
    pub fn of(alloc: Global, pous: &'u [PouText]) -> Result<Tables<'u>, NoMemory>
        ensures { IfOk result (λ tables. tables ≡ pous.now) }
    {
        let scope = Scope::of(alloc, pous)?;
        let owners = scope.owners();
        let counts = all_counts(alloc, owners)?;
        let tables = tables_of(alloc, &counts, owners)?;
        let levels = all_heights(alloc, owners)?;
        let names = Names::of(alloc, names_of(alloc, pous)?)?;
        Ok(joined(pous, names, levels, tables))
    }

    /// How many levels of function blocks are below the POU at a place.
    pub fn level(&self, place: usize) -> usize
        ensures { result ≡ size_at (all_heights (owners_of (placed_of self.now))) place }
    {
        at(&self.levels, place)
    }

    /// The POU at a place.
    pub fn pou(&self, place: usize) -> Option<&'u PouText>
        ensures { option_map (λ p. p.now) result ≡ slice_get self.now place }
    {
        pou_at(self.pous, place)
    }

    /// The place of the first POU of a name, whatever the case of its letters; their count where none has it.
    #[tactic(auto, using(crate::proofs::Found::named_at))]
    pub fn place(&self, alloc: Global, name: &[u8]) -> Result<usize, NoMemory>
        ensures { IfOk result (λ place. place ≡ place_named name.now (map pou_meant self.now)) }
    {
        let place = self.names.place(alloc, name)?;
        Ok(or_count(place, self.pous.len()))
    }

    /// The table of the POU at a place.
    pub fn table(&self, place: usize) -> Option<&Table<'u>>
        ensures { option_map (λ t. shown_table t.now) result ≡ slice_get (map (table_of (all_counts (owners_of (placed_of self.now)))) (owners_of (placed_of self.now))) place }
    {
        table_at(&self.tables, place)
    }

    /// The table of a POU that is there.
    pub fn table_there(&self, place: usize) -> &Table<'u>
        requires { place < length self.now }
        ensures { slice_get (map (table_of (all_counts (owners_of (placed_of self.now)))) (owners_of (placed_of self.now))) place ≡ Some (shown_table result.now) }
    {
        there(&self.tables, place)
    }
}

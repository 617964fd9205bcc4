//! Names in their order, and the first place of each.
ghost use Rattle.std.specs.Prelude.{◌≡◌, ℕ, List, map, take, option_map, slice_get, is_some, IfOk};
ghost use Rattle.std.specs.List.{list_any, position_from};
ghost use Rattle.std.specs.Str.{bytes_eq};
ghost use Rattle.plcx_types.specs.Name.{in_lower_case};
ghost use Rattle.plcx_state.specs.Tables.{number_at, found_or, number_if};
ghost use Rattle.plcx_conditions.specs.Known.{same_name};
ghost use Rattle.plcx_known.specs.Names.{first_place, is_before, has_key, is_key, AreTold};

use indexmap::IndexMap;
use plcx_types::NoMemory;
use std::alloc::Global;
use std::marker::Model;

/// A name in lower case.
fn key_of(alloc: Global, name: &[u8]) -> Result<Vec<u8>, NoMemory>
    ensures { IfOk result (λ key. key.items ≡ in_lower_case name.now) }
{
    let mut key = Vec::from_slice(alloc, name)?;
    key.as_mut_slice().make_ascii_lowercase();
    Ok(key)
}

/// One key more, where it has no place yet.
fn with_key(
    mut table: IndexMap<Vec<u8>, usize>,
    place: usize,
    key: Vec<u8>,
) -> Result<IndexMap<Vec<u8>, usize>, NoMemory>
    ensures { IfOk result (λ after. (q : List ℕ) → number_at q after.entries ≡ found_or (number_at q table.entries) (number_if (bytes_eq q key.items) place)) }
{
    if table.contains_key(key.as_slice()) {
        return Ok(table);
    }
    table.insert(key, place)?;
    Ok(table)
}

/// One name more, if there is one.
fn with_name(
    alloc: Global,
    table: IndexMap<Vec<u8>, usize>,
    place: usize,
    name: Option<&[u8]>,
) -> Result<IndexMap<Vec<u8>, usize>, NoMemory>
    ensures { IfOk result (λ after. (q : List ℕ) → number_at q after.entries ≡ found_or (number_at q table.entries) (number_if (is_key q (option_map (λ n. n.now) name.entry)) place)) }
{
    match name {
        None => Ok(table),
        Some(name) => {
            let key = key_of(alloc, name)?;
            Ok(with_key(table, place, key)?)
        }
    }
}

fn name_at<'a>(names: &[&'a [u8]], place: usize) -> Option<&'a [u8]>
    ensures { option_map (λ n. n.now) result ≡ option_map (λ n. n.now) (slice_get names.now place) }
{
    names.get(place).copied()
}

/// The first place of each name.
fn places_of(alloc: Global, names: &[&[u8]]) -> Result<IndexMap<Vec<u8>, usize>, NoMemory>
    ensures { IfOk result (λ table. AreTold (map (λ n. n.now) names.now) table.entries) }
{
    let mut table = IndexMap::new(alloc);
    for place in 0..names.len() {
        table = with_name(alloc, table, place, name_at(names, place))?;
    }
    Ok(table)
}

/// Names in their order, each found whatever the case of its letters.
#[derive(Drop)]
pub struct Names<'a> {
    all: Vec<&'a [u8]>,
    places: IndexMap<Vec<u8>, usize>,
}

impl<'a> Model for Names<'a> {
    ghost use Rattle.std.specs.Prelude.{ℕ, List, map};
    ghost use Rattle.plcx_known.specs.Names.{AreTold};

    ghost Value = { List (List ℕ) };

    ghost view = { λ n. map (λ s. s.now) n.all.items };

    ghost invariant = { λ n. AreTold (map (λ s. s.now) n.all.items) n.places.entries };
}

/// Whether a place was found, and stands before another.
fn is_before(found: Option<usize>, place: usize) -> bool
    ensures { result ≡ is_before found place }
{
    match found {
        None => false,
        Some(found) => found < place,
    }
}

impl<'a> Names<'a> {
    /// These names.
    pub fn of(alloc: Global, all: Vec<&'a [u8]>) -> Result<Names<'a>, NoMemory>
        ensures { IfOk result (λ names. names ≡ map (λ s. s.now) all.entry.items) }
    {
        let places = places_of(alloc, &all)?;
        Ok(Names { all, places })
    }

    fn place_of_key(&self, key: &[u8]) -> Option<usize>
        ensures { result ≡ position_from (has_key key.now) 0 self.now }
    {
        self.places.get(key).copied()
    }

    /// The place of the first of these names that is this one.
    #[tactic(auto, using(crate::proofs::Places::by_key))]
    pub fn place(&self, alloc: Global, name: &[u8]) -> Result<Option<usize>, NoMemory>
        ensures { IfOk result (λ place. place ≡ first_place name.now self.now) }
    {
        let key = key_of(alloc, name)?;
        Ok(self.place_of_key(key.as_slice()))
    }

    /// Whether one of these names is this one.
    #[tactic(auto, using(crate::proofs::Places::has_one))]
    pub fn has(&self, alloc: Global, name: &[u8]) -> Result<bool, NoMemory>
        ensures { IfOk result (λ has. has ≡ list_any (λ n. same_name n name.now) self.now) }
    {
        let place = self.place(alloc, name)?;
        Ok(place.is_some())
    }

    /// Whether one of the names before a place is this one.
    #[tactic(auto, using(crate::proofs::Places::before_one))]
    pub fn has_before(&self, alloc: Global, place: usize, name: &[u8]) -> Result<bool, NoMemory>
        ensures { IfOk result (λ has. has ≡ list_any (λ n. same_name n name.now) (take place self.now)) }
    {
        let first = self.place(alloc, name)?;
        Ok(is_before(first, place))
    }
}

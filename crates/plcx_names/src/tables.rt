//! Tables that give the place of what stands first under a name or a number.
ghost use Rattle.std.specs.Prelude.{◌≡◌, ℕ, List, Option, Some, None, option_map, IfOk, nat_eq};
ghost use Rattle.std.specs.Str.{bytes_eq};
ghost use Rattle.plcx_types.specs.Name.{in_lower_case};
ghost use Rattle.plcx_names.specs.Told.{place_at, place_of_number, found_or, place_if, is_key};

use crate::texts::in_lower_case;
use indexmap::IndexMap;
use std::alloc::{AllocError, Global};

/// One key more, where it has no place yet.
fn with_key(
    mut table: IndexMap<Vec<u8>, usize>,
    place: usize,
    key: Vec<u8>,
) -> Result<IndexMap<Vec<u8>, usize>, AllocError>
    ensures { IfOk result (λ after. (q : List ℕ) → place_at q after.entries ≡ found_or (place_at q table.entries) (place_if (bytes_eq q key.items) place)) }
{
    if table.contains_key(key.as_slice()) {
        return Ok(table);
    }
    table.insert(key, place)?;
    Ok(table)
}

/// One name more, if there is one: in lower case, where it has no place yet.
pub fn with_name(
    alloc: Global,
    table: IndexMap<Vec<u8>, usize>,
    place: usize,
    name: Option<&[u8]>,
) -> Result<IndexMap<Vec<u8>, usize>, AllocError>
    ensures { IfOk result (λ after. (q : List ℕ) → place_at q after.entries ≡ found_or (place_at q table.entries) (place_if (is_key q (option_map (λ n. n.now) name.entry)) place)) }
{
    match name {
        None => Ok(table),
        Some(name) => {
            let key = in_lower_case(alloc, name)?;
            Ok(with_key(table, place, key)?)
        }
    }
}

/// One number more, where it has no place yet.
pub fn with_number(
    mut table: IndexMap<u64, usize>,
    place: usize,
    number: u64,
) -> Result<IndexMap<u64, usize>, AllocError>
    ensures { IfOk result (λ after. (q : ℕ) → place_of_number q after.entries ≡ found_or (place_of_number q table.entries) (place_if (nat_eq q number) place)) }
{
    if table.contains_key(&number) {
        return Ok(table);
    }
    table.insert(number, place)?;
    Ok(table)
}

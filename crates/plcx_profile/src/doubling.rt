//! The rules on what may stand once: names of POUs, names of variables, addresses.
ghost use Rattle.std.specs.Prelude.{◌≡◌, ℕ, List, [], ◌∷◌, ◌||◌, false, map, option_map, IfOk};
ghost use Rattle.std.specs.Str.{bytes_eq};
ghost use Rattle.std.specs.HashSet.{contains_by};
ghost use Rattle.plcx_draft.specs.BodyIn.{nonempty};
ghost use Rattle.plcx_types.specs.Name.{in_lower_case};
ghost use Rattle.plcx_model.specs.Verdict.{first_breaking};
ghost use Rattle.plcx_profile.specs.Declarations.{Declared, start_of};
ghost use Rattle.plcx_profile.specs.Names.{key_of, begins, has_stood, doubles};
ghost use Rattle.plcx_profile.specs.Seen.{shown};
ghost use Rattle.plcx_profile.specs.Noted.{Notes};

use crate::declaration::{Declaration, start_of};
use std::alloc::{AllocError, Global};
use std::collections::HashSet;

/// What may stand once: the name of a POU in a file, of a variable in its POU, an address in a file.
#[derive(Clone, Copy, Debug, PartialEq, Eq)]
pub enum Once {
    PouNames,
    VariableNames,
    Addresses,
}

/// A text in lower case.
pub fn in_lower_case(alloc: Global, text: &[u8]) -> Result<Vec<u8>, AllocError>
    ensures { IfOk result (λ copy. copy.items ≡ in_lower_case text.now) }
{
    let mut copy = Vec::from_slice(alloc, text)?;
    copy.as_mut_slice().make_ascii_lowercase();
    Ok(copy)
}

fn address_key(alloc: Global, address: &[u8]) -> Result<Option<Vec<u8>>, AllocError>
    ensures { IfOk result (λ key. option_map (λ k. k.items) key ≡ nonempty address.now) }
{
    if address.is_empty() {
        Ok(None)
    } else {
        Ok(Some(Vec::from_slice(alloc, address)?))
    }
}

fn key_of(alloc: Global, once: Once, item: &Declaration) -> Result<Option<Vec<u8>>, AllocError>
    ensures { IfOk result (λ key. option_map (λ k. k.items) key ≡ key_of once (shown item.now)) }
{
    match (once, item) {
        (Once::PouNames, Declaration::Pou(pou)) => {
            Ok(Some(in_lower_case(alloc, pou.name.as_slice())?))
        }
        (Once::VariableNames, Declaration::Variable(_, variable)) => {
            Ok(Some(in_lower_case(alloc, variable.name.as_slice())?))
        }
        (Once::Addresses, Declaration::Variable(_, variable)) => {
            Ok(address_key(alloc, variable.address.as_slice())?)
        }
        _ => Ok(None),
    }
}

fn begins(once: Once, item: &Declaration) -> bool
    ensures { result ≡ begins once (shown item.now) }
{
    match (once, item) {
        (Once::VariableNames, Declaration::Pou(_)) => true,
        _ => false,
    }
}

/// Adds a key, and says whether it was there.
fn add(seen: &mut HashSet<Vec<u8>>, key: Vec<u8>) -> Result<bool, AllocError>
    ensures there { IfOk result (λ there. there ≡ contains_by (λ k. bytes_eq key.items k.items) seen.old) }
    ensures added { IfOk result (λ there. there ≡ false → (q : List ℕ) → contains_by (λ k. bytes_eq q k.items) seen.new ≡ (bytes_eq q key.items || contains_by (λ k. bytes_eq q k.items) seen.old)) }
{
    Ok(!seen.insert(key)?)
}

/// Notes what a declaration has, and says whether it has stood.
fn note(
    alloc: Global,
    once: Once,
    seen: &mut HashSet<Vec<u8>>,
    item: &Declaration,
) -> Result<bool, AllocError>
    ensures again { IfOk result (λ again. (before : List Declared) → Notes once before seen.old.keys → again ≡ doubles once before (shown item.now)) }
    ensures noted { IfOk result (λ again. again ≡ false → (before : List Declared) → Notes once before seen.old.keys → Notes once (shown item.now ∷ before) seen.new.keys) }
{
    if begins(once, item) {
        *seen = HashSet::new(alloc);
        return Ok(false);
    }
    match key_of(alloc, once, item)? {
        None => Ok(false),
        Some(key) => Ok(add(seen, key)?),
    }
}

/// The first declaration that has what has stood.
pub fn first_doubled(
    alloc: Global,
    once: Once,
    items: &[Declaration],
) -> Result<Option<u64>, AllocError>
    ensures { IfOk result (λ p. p ≡ option_map start_of (first_breaking (doubles once) [] (map shown items.now))) }
{
    let mut seen = HashSet::new(alloc);
    for item in items {
        if note(alloc, once, &mut seen, item)? {
            return Ok(Some(start_of(item)));
        }
    }
    Ok(None)
}

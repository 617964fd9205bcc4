//! Names that are noted, and looked up in any case.
ghost use Rattle.std.specs.Prelude.{◌≡◌, ℕ, List, ◌∷◌, ◌||◌, false, codes, Some, IfOk};
ghost use Rattle.std.specs.Str.{bytes_eq};
ghost use Rattle.std.specs.HashSet.{contains_by};
ghost use Rattle.plcx_types.specs.Name.{in_lower_case};
ghost use Rattle.plcx_xml.specs.declared.tree.Element.{Element as Meant};
ghost use Rattle.plcx_plan.specs.Attributes.{value_once, is_taken};
ghost use Rattle.plcx_plan.specs.Reading.{Notes};

use std::alloc::{AllocError, Global};
use std::collections::HashSet;

/// A text in lower case.
pub fn in_lower_case(alloc: Global, text: &[u8]) -> Result<Vec<u8>, AllocError>
    ensures { IfOk result (λ copy. copy.items ≡ in_lower_case text.now) }
{
    let mut copy = Vec::from_slice(alloc, text)?;
    copy.as_mut_slice().make_ascii_lowercase();
    Ok(copy)
}

/// Adds a key, and says whether it was there.
fn add(seen: &mut HashSet<Vec<u8>>, key: Vec<u8>) -> Result<bool, AllocError>
    ensures there { IfOk result (λ there. there ≡ contains_by (λ k. bytes_eq key.items k.items) seen.old) }
    ensures added { IfOk result (λ there. there ≡ false → (q : List ℕ)
        → contains_by (λ k. bytes_eq q k.items) seen.new ≡ (bytes_eq q key.items || contains_by (λ k. bytes_eq q k.items) seen.old)) }
{
    Ok(!seen.insert(key)?)
}

/// Notes the name of an element, and says whether an earlier one has it.
pub fn note(alloc: Global, seen: &mut HashSet<Vec<u8>>, name: &[u8]) -> Result<bool, AllocError>
    ensures taken { IfOk result (λ taken. (es : List Meant) → Notes es seen.old.keys → taken ≡ is_taken es name.now) }
    ensures noted { IfOk result (λ taken. taken ≡ false → (es : List Meant) (e : Meant) → value_once (codes "name") e ≡ Some name.now → Notes es seen.old.keys → Notes (e ∷ es) seen.new.keys) }
{
    let key = in_lower_case(alloc, name)?;
    Ok(add(seen, key)?)
}

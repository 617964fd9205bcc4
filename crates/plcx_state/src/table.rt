//! The leaves of a layout by the texts of their paths.
ghost use Rattle.std.specs.Prelude.{◌≡◌, ◌<◌, ℕ, List, length, IfOk, IfSome};
ghost use Rattle.std.specs.Str.{bytes_eq};
ghost use Rattle.plcx_types.specs.Lists.{Each};
ghost use Rattle.plcx_types.specs.Name.{in_lower_case};
ghost use Rattle.plcx_state.specs.Layouts.{IsLaid};
ghost use Rattle.plcx_state.specs.Tables.{number_at, found_or, number_if, path_text, printed_at, is_printed, Tells, HasPlainNames, IsTold};

use crate::layout::{Layout, Leaf};
use indexmap::IndexMap;
use plcx_types::NoMemory;
use std::alloc::Global;
use std::marker::Model;

/// The numbers of leaves by the texts of their paths, which a look-up gives in lower case with points between names.
#[derive(Drop)]
pub struct PathTable<'a> {
    leaves: &'a [Leaf],
    numbers: IndexMap<Vec<u8>, usize>,
}

impl<'a> Model for PathTable<'a> {
    ghost use Rattle.std.specs.Prelude.{List};
    ghost use Rattle.plcx_state.specs.declared.layout.Leaf.{Leaf};
    ghost use Rattle.plcx_state.specs.Tables.{Tells};

    ghost Value = { List Leaf };

    ghost view = { λ t. t.leaves.now };

    ghost invariant = { λ t. Tells t.leaves.now t.numbers.entries };
}

/// A text in lower case.
pub fn in_lower_case(alloc: Global, text: &[u8]) -> Result<Vec<u8>, NoMemory>
    ensures { IfOk result (λ copy. copy.items ≡ in_lower_case text.now) }
{
    let mut copy = Vec::from_slice(alloc, text)?;
    copy.as_mut_slice().make_ascii_lowercase();
    Ok(copy)
}

/// The text of a leaf's path, as a look-up gives it.
pub fn path_text(alloc: Global, leaf: &Leaf) -> Result<Vec<u8>, NoMemory>
    ensures text { IfOk result (λ text. text.items ≡ path_text leaf.now) }
    ensures plain { IfOk result (λ _. HasPlainNames leaf.now) }
{
    let mut text = leaf.path.text(alloc)?;
    text.as_mut_slice().make_ascii_lowercase();
    Ok(text)
}

/// One text more, where it has no number yet.
fn with_key(
    mut numbers: IndexMap<Vec<u8>, usize>,
    number: usize,
    key: Vec<u8>,
) -> Result<IndexMap<Vec<u8>, usize>, NoMemory>
    ensures { IfOk result (λ after. (q : List ℕ) → number_at q after.entries ≡ found_or (number_at q numbers.entries) (number_if (bytes_eq q key.items) number)) }
{
    if numbers.contains_key(key.as_slice()) {
        return Ok(numbers);
    }
    numbers.insert(key, number)?;
    Ok(numbers)
}

/// One leaf more.
fn with_leaf(
    alloc: Global,
    numbers: IndexMap<Vec<u8>, usize>,
    number: usize,
    leaf: &Leaf,
) -> Result<IndexMap<Vec<u8>, usize>, NoMemory>
    ensures tells { IfOk result (λ after. (q : List ℕ) → number_at q after.entries ≡ found_or (number_at q numbers.entries) (number_if (is_printed q leaf.now) number)) }
    ensures plain { IfOk result (λ _. HasPlainNames leaf.now) }
{
    let key = path_text(alloc, leaf)?;
    Ok(with_key(numbers, number, key)?)
}

fn numbers_of(alloc: Global, leaves: &[Leaf]) -> Result<IndexMap<Vec<u8>, usize>, NoMemory>
    ensures tells { IfOk result (λ numbers. Tells leaves.now numbers.entries) }
    ensures plain { IfOk result (λ _. Each HasPlainNames leaves.now) }
{
    let mut numbers = IndexMap::new(alloc);
    for (number, leaf) in leaves.iter().enumerate() {
        numbers = with_leaf(alloc, numbers, number, leaf)?;
    }
    Ok(numbers)
}

impl<'a> PathTable<'a> {
    /// The table of a layout's leaves.
    pub fn of(alloc: Global, layout: &'a Layout) -> Result<PathTable<'a>, NoMemory>
        ensures leaves { IfOk result (λ table. table ≡ layout.now.leaves) }
        ensures laid { IfOk result (λ _. IsLaid layout.now) }
        ensures told { IfOk result (λ _. IsTold layout.now.leaves) }
    {
        let leaves = layout.leaves();
        let numbers = numbers_of(alloc, leaves)?;
        Ok(PathTable { leaves, numbers })
    }

    /// The leaves.
    pub fn leaves(&self) -> &'a [Leaf]
        ensures { result.now ≡ self.now }
    {
        self.leaves
    }

    /// The number of the leaf whose path has this text.
    #[tactic(auto, unfolding(crate::specs::Tables::printed_at))]
    pub fn number(&self, text: &[u8]) -> Option<usize>
        ensures { result ≡ printed_at text.now self.now }
    {
        self.numbers.get(text).copied()
    }
}

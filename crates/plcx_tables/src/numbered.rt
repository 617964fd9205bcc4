//! Tables of numbers: of each key the number of the place where it stands first.
ghost use Rattle.std.specs.Prelude.{◌≡◌, ◌+◌, [], Bool, Some, IfOk, unwrap_or};
ghost use Rattle.std.specs.Map.{lookup};
ghost use Rattle.plcx_tables.specs.Tables.{Grows};

use indexmap::IndexMap;
use plcx_types::NoMemory;
use std::alloc::Global;
use std::hash::Hash;

/// Keys in their order, each by the number of its first place, and how many places there are.
#[derive(Drop)]
pub struct Numbered<K: Eq + Hash> {
    pub(crate) numbers: IndexMap<K, u32>,
    pub(crate) count: u32,
}

/// The next number. What is too large for one would not have fitted the memory.
fn next(number: u32) -> Result<u32, NoMemory>
    ensures { IfOk result (λ after. after ≡ number + 1) }
{
    if number < u32::MAX {
        Ok(number + 1)
    } else {
        Err(NoMemory)
    }
}

/// One key more, where it has no number yet.
fn with_key<K: Eq + Hash + Drop>(
    mut numbers: IndexMap<K, u32>,
    number: u32,
    key: K,
) -> Result<IndexMap<K, u32>, NoMemory>
    ensures { IfOk result (λ after. Grows K.eq (Some key) number numbers.entries after.entries) }
{
    if numbers.contains_key(&key) {
        return Ok(numbers);
    }
    numbers.insert(key, number)?;
    Ok(numbers)
}

impl<K: Eq + Hash + Drop> Numbered<K> {
    /// No place.
    pub(crate) fn new(alloc: Global) -> Numbered<K>
        ensures numbers { result.numbers.entries ≡ [] }
        ensures count { result.count ≡ 0 }
    {
        Numbered {
            numbers: IndexMap::new(alloc),
            count: 0,
        }
    }

    /// One place more, with its key if it has one.
    pub(crate) fn with(self, key: Option<K>) -> Result<Numbered<K>, NoMemory>
        ensures numbers { IfOk result (λ after. Grows K.eq key self.count self.numbers.entries after.numbers.entries) }
        ensures count { IfOk result (λ after. after.count ≡ self.count + 1) }
    {
        let Numbered { numbers, count } = self;
        let after = next(count)?;
        match key {
            None => Ok(Numbered {
                numbers,
                count: after,
            }),
            Some(key) => {
                let numbers = with_key(numbers, count, key)?;
                Ok(Numbered {
                    numbers,
                    count: after,
                })
            }
        }
    }

    /// The number of a key.
    pub fn find(&self, key: &K) -> Option<u32>
        ensures { result ≡ lookup (K.eq key.now) self.now.numbers.entries }
    {
        self.numbers.get(key).copied()
    }

    /// The number of a key, and that behind the last where there is none.
    pub fn number(&self, key: &K) -> u32
        ensures { result ≡ unwrap_or (lookup (K.eq key.now) self.now.numbers.entries) self.now.count }
    {
        self.find(key).unwrap_or(self.count)
    }
}

//! Tables of names, and of what elements have numbers for.
ghost use Rattle.std.specs.Prelude.{◌≡◌, ◌++◌, ◌∷◌, [], ℕ, List, Option, Some, IfOk, option_map, unwrap_or};
ghost use Rattle.plcx_meaning.specs.Base.{Memory, same_memory};
ghost use Rattle.plcx_rules.specs.Texts.{same_name};
ghost use Rattle.plcx_tables.specs.Tables.{number_in};
ghost use Rattle.plcx_tables.specs.Named.{text_of, memory_of, NamesTold, MemoriesTold};

use crate::keys::Key;
use crate::names::Name;
use crate::numbered::Numbered;
use plcx_types::NoMemory;

/// One place more, with its name if it has one.
pub(crate) fn with_name<'a>(
    names: Numbered<Name<'a>>,
    name: Option<&'a [u8]>,
) -> Result<Numbered<Name<'a>>, NoMemory>
    ensures { IfOk result (λ after. (texts : List (Option (List ℕ))) → NamesTold names.entry.numbers.entries names.entry.count texts
        → NamesTold after.numbers.entries after.count (texts ++ option_map (λ n. n.now) name.entry ∷ [])) }
{
    match name {
        None => Ok(names.with(None)?),
        Some(text) => Ok(names.with(Some(Name { text }))?),
    }
}

/// The number of a name, whatever the case of its letters.
pub(crate) fn number_of_name(names: &Numbered<Name>, name: &[u8]) -> Option<u32>
    ensures { result ≡ number_in text_of same_name names.now.numbers.entries name.now }
{
    names.find(&Name { text: name })
}

/// The number of a name, and that behind the last where there is none.
pub(crate) fn place_of_name(names: &Numbered<Name>, name: &[u8]) -> u32
    ensures { result ≡ unwrap_or (number_in text_of same_name names.now.numbers.entries name.now) names.now.count }
{
    number_of_name(names, name).unwrap_or(names.count)
}

/// One memory or output more.
pub(crate) fn with_memory<'a>(
    memories: Numbered<Key<'a>>,
    key: Key<'a>,
) -> Result<Numbered<Key<'a>>, NoMemory>
    ensures { IfOk result (λ after. (places : List (Option Memory)) → MemoriesTold memories.entry.numbers.entries memories.entry.count places
        → MemoriesTold after.numbers.entries after.count (places ++ Some (memory_of key.entry) ∷ [])) }
{
    Ok(memories.with(Some(key))?)
}

/// The number of a memory or an output, and that behind the last where there is none.
pub(crate) fn number_of_memory(memories: &Numbered<Key>, key: Key) -> u32
    ensures { result ≡ unwrap_or (number_in memory_of same_memory memories.now.numbers.entries (memory_of key.entry)) memories.now.count }
{
    memories.number(&key)
}

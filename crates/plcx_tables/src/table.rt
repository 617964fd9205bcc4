//! Where the leaves, memories and in-outs of POUs are.
ghost use Rattle.std.specs.Prelude.{◌≡◌, ◌+◌, ◌≤◌, true, IfOk};
ghost use Rattle.std.specs.List.{AllZip};
ghost use Rattle.plcx_tables.specs.Telling.{shown};
ghost use Rattle.plcx_tables.specs.Levels.{leaves_of, memories_of, level_of};
ghost use Rattle.plcx_tables.specs.Placing.{placed_from};

use crate::levels::{
    LEVELS, Rule, leaf_count, leaves_of, level_of, memories_of, memory_count, more, step, steps,
};
use crate::named::number_of_name;
use crate::own::Own;
use crate::placed::{Placed, Table};
use plcx_types::NoMemory;
use std::alloc::Global;

/// A sum of 32 bits.
fn further(total: u32, count: usize) -> Result<u32, NoMemory>
    ensures { IfOk result (λ sum. sum ≡ total + count) }
{
    if count <= (u32::MAX - total) as usize {
        Ok(total + count as u32)
    } else {
        Err(NoMemory)
    }
}

/// The variables of a POU with their numbers, by the leaves and memories that POUs have.
fn placed_in<'a>(
    alloc: Global,
    own: &Own<'a>,
    leaves: &[usize],
    memories: &[usize],
) -> Result<Vec<Placed<'a>>, NoMemory>
    ensures { IfOk result (λ placed. placed.items ≡ placed_from leaves.now memories.now 0 own.now.memories.count 0 own.now.variables.items) }
{
    let mut placed = Vec::new(alloc);
    let mut leaf = 0;
    let mut memory = own.memories.count;
    let mut in_out = 0;
    for variable in &own.variables {
        placed.push(Placed {
            variable: *variable,
            leaf,
            memory,
            in_out,
        })?;
        leaf = further(leaf, leaf_count(variable, true, leaves))?;
        memory = further(memory, memory_count(variable, memories))?;
        in_out = more(in_out, usize::from(variable.in_out))?;
    }
    Ok(placed)
}

/// The table of a POU, by the leaves, memories and levels of all.
fn table_of<'a>(
    alloc: Global,
    own: &'a Own<'a>,
    leaves: &[usize],
    memories: &[usize],
    levels: &[usize],
) -> Result<Table<'a>, NoMemory>
    ensures { IfOk result (λ table. IsPlaced leaves.now memories.now levels.now own.entry.now table) }
{
    let placed = placed_in(alloc, own, leaves, memories)?;
    let count = further(0, leaves_of(own, true, leaves)?)?;
    let memory_count = further(0, memories_of(own, memories)?)?;
    Ok(Table {
        own,
        placed,
        leaves: count,
        memories: memory_count,
        level: level_of(own, levels)?,
    })
}

ghost use Rattle.plcx_tables.specs.Tabled.{IsPlaced, ArePlaced};

fn tables_by<'a>(
    alloc: Global,
    owns: &'a [Own<'a>],
    leaves: &[usize],
    memories: &[usize],
    levels: &[usize],
) -> Result<Vec<Table<'a>>, NoMemory>
    ensures { IfOk result (λ tables. AllZip (IsPlaced leaves.now memories.now levels.now) owns.entry.now tables.items) }
{
    let mut tables = Vec::new(alloc);
    for own in owns {
        tables.push(table_of(alloc, own, leaves, memories, levels)?)?;
    }
    Ok(tables)
}

/// The tables of POUs.
pub fn tables<'a>(alloc: Global, owns: &'a [Own<'a>]) -> Result<Vec<Table<'a>>, NoMemory>
    ensures { IfOk result (λ tables. ArePlaced owns.entry.now tables.items) }
{
    let first = step(alloc, Rule::Leaves(false), owns, &[])?;
    let leaves = steps(alloc, Rule::Leaves(true), owns, first, LEVELS - 1)?;
    let memories = steps(alloc, Rule::Memories, owns, Vec::new(alloc), LEVELS)?;
    let levels = steps(alloc, Rule::Levels, owns, Vec::new(alloc), LEVELS - 1)?;
    Ok(tables_by(alloc, owns, &leaves, &memories, &levels)?)
}

impl<'a> Table<'a> {
    /// The variable of a name, whatever the case of its letters.
    pub(crate) fn find(&self, name: &[u8]) -> Option<Placed<'a>>
        ensures { result ≡ found self.now name.now }
    {
        match number_of_name(&self.own.names, name) {
            None => None,
            Some(place) => self.placed.get(place as usize).copied(),
        }
    }

    /// The offset of the first leaf of a variable, or behind the last where there is none of that name.
    pub(crate) fn leaf(&self, name: &[u8]) -> u32
        ensures value { result ≡ leaf_named self.now name.now }
        ensures within { result ≤ self.now.leaves }
    {
        match self.find(name) {
            None => self.leaves,
            Some(placed) => placed.leaf,
        }
    }
}

ghost use Rattle.plcx_tables.specs.Tabled.{found, leaf_named};

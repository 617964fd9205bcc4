//! Numbers of POUs that follow from those of the blocks that they have instances of, level by level.
ghost use Rattle.std.specs.Prelude.{◌≡◌, ◌+◌, IfOk, slice_index};
ghost use Rattle.plcx_tables.specs.Telling.{shown};
ghost use Rattle.plcx_tables.specs.Levels.{user, leaf_weight, memory_weight, level_weight, leaves_of, memories_of, level_of, number_by, stepped, repeated};

use crate::own::Own;
use crate::variables::Declared;
use plcx_std::pins;
use plcx_types::NoMemory;
use std::alloc::Global;

/// How many levels of instances there are at most below a program.
pub(crate) const LEVELS: u32 = 17;

/// Which number of a POU follows from those of the blocks that it has instances of.
#[derive(Clone, Copy)]
pub(crate) enum Rule {
    /// Its leaves, where standard blocks have theirs or none yet.
    Leaves(bool),
    Memories,
    /// How many levels of blocks are below it.
    Levels,
}

/// The number at a place, 0 where there is none.
pub(crate) fn at(numbers: &[usize], place: u32) -> usize
    ensures { result ≡ slice_index numbers.now place }
{
    match numbers.get(place as usize) {
        None => 0,
        Some(number) => *number,
    }
}

/// A sum. What is too large for one would not have fitted the memory.
pub(crate) fn more(total: usize, count: usize) -> Result<usize, NoMemory>
    ensures { IfOk result (λ sum. sum ≡ total + count) }
{
    match total.checked_add(count) {
        None => Err(NoMemory),
        Some(sum) => Ok(sum),
    }
}

/// The function block that a variable is an instance of.
pub(crate) fn user(variable: &Declared) -> Option<u32>
    ensures { result ≡ user (shown variable.now) }
{
    if variable.elementary || variable.standard.is_some() {
        None
    } else {
        variable.block
    }
}

/// The leaves of a variable, by those of POUs.
pub(crate) fn leaf_count(variable: &Declared, standard: bool, leaves: &[usize]) -> usize
    ensures { result ≡ leaf_weight standard leaves.now (shown variable.now) }
{
    if variable.in_out {
        return 0;
    }
    if variable.elementary {
        return 1;
    }
    match variable.standard {
        Some(kind) => { if standard { pins(kind).len() } else { 0 } }
        None => match variable.block {
            None => 0,
            Some(place) => at(leaves, place),
        },
    }
}

/// The memories of a variable, by those of POUs.
pub(crate) fn memory_count(variable: &Declared, memories: &[usize]) -> usize
    ensures { result ≡ memory_weight memories.now (shown variable.now) }
{
    match user(variable) {
        None => 0,
        Some(place) => at(memories, place),
    }
}

/// One level more than the block that a variable is an instance of.
fn variable_level(variable: &Declared, levels: &[usize]) -> Result<usize, NoMemory>
    ensures { IfOk result (λ level. level ≡ level_weight levels.now (shown variable.now)) }
{
    match user(variable) {
        None => Ok(0),
        Some(place) => Ok(more(at(levels, place), 1)?),
    }
}

pub(crate) fn leaves_of(own: &Own, standard: bool, leaves: &[usize]) -> Result<usize, NoMemory>
    ensures { IfOk result (λ count. count ≡ leaves_of standard own.now leaves.now) }
{
    let mut count = 0;
    for variable in &own.variables {
        count = more(count, leaf_count(variable, standard, leaves))?;
    }
    Ok(count)
}

pub(crate) fn memories_of(own: &Own, memories: &[usize]) -> Result<usize, NoMemory>
    ensures { IfOk result (λ count. count ≡ memories_of own.now memories.now) }
{
    let mut count = own.memories.count as usize;
    for variable in &own.variables {
        count = more(count, memory_count(variable, memories))?;
    }
    Ok(count)
}

pub(crate) fn level_of(own: &Own, levels: &[usize]) -> Result<usize, NoMemory>
    ensures { IfOk result (λ level. level ≡ level_of own.now levels.now) }
{
    let mut level = 0usize;
    for variable in &own.variables {
        level = level.max(variable_level(variable, levels)?);
    }
    Ok(level)
}

fn number(rule: Rule, own: &Own, before: &[usize]) -> Result<usize, NoMemory>
    ensures { IfOk result (λ number. number ≡ number_by rule own.now before.now) }
{
    match rule {
        Rule::Leaves(standard) => Ok(leaves_of(own, standard, before)?),
        Rule::Memories => Ok(memories_of(own, before)?),
        Rule::Levels => Ok(level_of(own, before)?),
    }
}

/// The numbers of all POUs, by those that they had.
pub(crate) fn step(
    alloc: Global,
    rule: Rule,
    owns: &[Own],
    before: &[usize],
) -> Result<Vec<usize>, NoMemory>
    ensures { IfOk result (λ next. next.items ≡ stepped rule owns.now before.now) }
{
    let mut next = Vec::new(alloc);
    for own in owns {
        next.push(number(rule, own, before)?)?;
    }
    Ok(next)
}

/// The same so many times. Once nothing changes, nothing does later.
pub(crate) fn steps(
    alloc: Global,
    rule: Rule,
    owns: &[Own],
    first: Vec<usize>,
    count: u32,
) -> Result<Vec<usize>, NoMemory>
    ensures { IfOk result (λ last. last.items ≡ repeated count (stepped rule owns.now) first.items) }
{
    let mut last = first;
    for _round in 0..count {
        let next = step(alloc, rule, owns, &last)?;
        if next.as_slice() == last.as_slice() {
            return Ok(last);
        }
        last = next;
    }
    Ok(last)
}

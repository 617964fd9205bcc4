//! How many leaves POUs have, and how many levels of function blocks are below them, level by level.
ghost use Rattle.std.specs.Prelude.{◌≡◌, ◌+◌, List, map, IfOk};
ghost use Rattle.std.specs.List.{sum_by};
ghost use Rattle.plcx_meaning.specs.Layout.{is_kept};
ghost use Rattle.plcx_st.specs.Meant.{class_meant};
ghost use Rattle.plcx_known.specs.Owned.{Typed, shown_own};
ghost use Rattle.plcx_known.specs.Sizes.{size_at};
ghost use Rattle.plcx_text_tables.specs.Counts.{type_leaves, leaves_in, next_counts, counts, type_height, tallest, next_heights, heights};

use plcx_known::{Own, Owner, VarType};
use plcx_st::TextClass;
use plcx_std::pins;
use plcx_types::NoMemory;
use std::alloc::Global;

/// A sum. What is too large for one would not have fitted the memory.
pub(crate) fn more(total: usize, count: usize) -> Result<usize, NoMemory>
    ensures { IfOk result (λ sum. sum ≡ total + count) }
{
    match total.checked_add(count) {
        None => Err(NoMemory),
        Some(sum) => Ok(sum),
    }
}

pub(crate) fn at(numbers: &[usize], place: usize) -> usize
    ensures { result ≡ size_at numbers.now place }
{
    match numbers.get(place) {
        None => 0,
        Some(number) => *number,
    }
}

fn type_leaves(depth: usize, counts: &[usize], ty: VarType) -> usize
    ensures { result ≡ type_leaves depth counts.now ty }
{
    match ty {
        VarType::Unknown => 0,
        VarType::Elementary(_) => 1,
        VarType::Standard(kind) => { if depth == 0 { 0 } else { pins(kind).len() } }
        VarType::Block(place) => at(counts, place),
    }
}

fn is_kept(class: TextClass) -> bool
    ensures { result ≡ is_kept (class_meant class) }
{
    match class {
        TextClass::InOut | TextClass::Temp => false,
        _ => true,
    }
}

/// The leaves of a variable, by those of POUs.
pub(crate) fn leaves_in(depth: usize, counts: &[usize], own: &Own) -> usize
    ensures { result ≡ leaves_in depth counts.now (shown_own own.now) }
{
    if is_kept(own.class) {
        type_leaves(depth, counts, own.ty)
    } else {
        0
    }
}

fn leaves_of(depth: usize, counts: &[usize], variables: &[Own]) -> Result<usize, NoMemory>
    ensures { IfOk result (λ count. count ≡ sum_by (leaves_in depth counts.now) (map shown_own variables.now)) }
{
    let mut count = 0;
    for own in variables {
        count = more(count, leaves_in(depth, counts, own))?;
    }
    Ok(count)
}

/// The leaves of POUs one level deeper.
fn next_counts(
    alloc: Global,
    depth: usize,
    owners: &[Owner],
    counts: &[usize],
) -> Result<Vec<usize>, NoMemory>
    ensures { IfOk result (λ next. next.items ≡ next_counts depth owners.now counts.now) }
{
    let mut next = Vec::new(alloc);
    for owner in owners {
        next.push(leaves_of(depth, counts, owner.variables())?)?;
    }
    Ok(next)
}

#[tactic(auto, using(crate::proofs::Counting::none_are))]
fn none(alloc: Global, owners: &[Owner]) -> Result<Vec<usize>, NoMemory>
    ensures { IfOk result (λ none. none.items ≡ map (λ (ts : List Typed). 0) owners.now) }
{
    Ok(vec![in alloc; 0; owners.len()]?)
}

/// The leaves of POUs so many levels deep.
fn counts(alloc: Global, owners: &[Owner], levels: usize) -> Result<Vec<usize>, NoMemory>
    ensures { IfOk result (λ all. all.items ≡ counts levels owners.now) }
{
    let mut all = none(alloc, owners)?;
    for depth in 0..levels {
        all = next_counts(alloc, depth, owners, &all)?;
    }
    Ok(all)
}

/// One level more than the function block that a variable is an instance of.
fn type_height(heights: &[usize], ty: VarType) -> Result<usize, NoMemory>
    ensures { IfOk result (λ height. height ≡ type_height heights.now ty) }
{
    match ty {
        VarType::Unknown | VarType::Elementary(_) | VarType::Standard(_) => Ok(0),
        VarType::Block(place) => match heights.get(place) {
            None => Ok(0),
            Some(height) => Ok(more(*height, 1)?),
        },
    }
}

fn tallest(heights: &[usize], variables: &[Own]) -> Result<usize, NoMemory>
    ensures { IfOk result (λ height. height ≡ tallest heights.now (map shown_own variables.now)) }
{
    let mut height = 0usize;
    for own in variables {
        height = height.max(type_height(heights, own.ty)?);
    }
    Ok(height)
}

/// The levels below POUs, by those that were counted before.
fn next_heights(alloc: Global, owners: &[Owner], heights: &[usize]) -> Result<Vec<usize>, NoMemory>
    ensures { IfOk result (λ next. next.items ≡ next_heights owners.now heights.now) }
{
    let mut next = Vec::new(alloc);
    for owner in owners {
        next.push(tallest(heights, owner.variables())?)?;
    }
    Ok(next)
}

/// The levels below POUs, so many at most.
fn heights(alloc: Global, owners: &[Owner], levels: usize) -> Result<Vec<usize>, NoMemory>
    ensures { IfOk result (λ all. all.items ≡ heights levels owners.now) }
{
    let mut all = none(alloc, owners)?;
    for _level in 0..levels {
        all = next_heights(alloc, owners, &all)?;
    }
    Ok(all)
}

/// A program has 16 levels of instances at most, and a standard block below them.
const LEVELS: usize = 17;

/// The leaves of POUs, of all levels below a variable.
#[tactic(auto, unfolding(crate::specs::Counts::all_counts))]
pub(crate) fn all_counts(alloc: Global, owners: &[Owner]) -> Result<Vec<usize>, NoMemory>
    ensures { IfOk result (λ all. all.items ≡ all_counts owners.now) }
{
    Ok(counts(alloc, owners, LEVELS)?)
}

/// The levels below POUs.
#[tactic(auto, unfolding(crate::specs::Counts::all_heights))]
pub(crate) fn all_heights(alloc: Global, owners: &[Owner]) -> Result<Vec<usize>, NoMemory>
    ensures { IfOk result (λ all. all.items ≡ all_heights owners.now) }
{
    Ok(heights(alloc, owners, LEVELS)?)
}

ghost use Rattle.plcx_text_tables.specs.Counts.{all_counts, all_heights};

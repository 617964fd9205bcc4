//! How many leaves and instances POUs have.
ghost use Rattle.std.specs.Prelude.{◌≡◌, ◌+◌, List, map, get_or, nat_lt, IfOk};
ghost use Rattle.std.specs.List.{sum_by};
ghost use Rattle.plcx_types.specs.Limits.{max_text_leaves};
ghost use Rattle.plcx_st.specs.Meant.{class_meant};
ghost use Rattle.plcx_meaning.specs.Layout.{is_kept};
ghost use Rattle.plcx_conditions.specs.Placed.{Pou, bare_pou};
ghost use Rattle.plcx_conditions.specs.Declarations.{is_large};
ghost use Rattle.plcx_known.specs.Unit.{placed_of, bare_of};
ghost use Rattle.plcx_known.specs.Owned.{Typed, shown_own};
ghost use Rattle.plcx_known.specs.Sizes.{most, capped, size_at, inside, type_weight, weight, next_sizes, sizes};

use crate::owner::{Own, Owner};
use crate::scope::Scope;
use crate::types::VarType;
use plcx_st::TextClass;
use plcx_std::pins;
use plcx_types::NoMemory;
use plcx_types::limits::MAX_TEXT_LEAVES;
use std::alloc::Global;

/// One more than a POU may have. What is larger counts as that.
const MOST: usize = MAX_TEXT_LEAVES + 1;

#[tactic(auto, unfolding(crate::specs::Sizes::capped))]
fn grown(count: usize, more: usize) -> usize
    ensures { result ≡ capped (count + more) }
{
    let sum = count.saturating_add(more);
    if sum <= MOST { sum } else { MOST }
}

fn size_at(sizes: &[usize], place: usize) -> usize
    ensures { result ≡ size_at sizes.now place }
{
    match sizes.get(place) {
        None => 0,
        Some(size) => *size,
    }
}

/// The leaves and instances within an instance of a type, so many levels deep.
fn inside(depth: usize, sizes: &[usize], ty: VarType) -> usize
    ensures { result ≡ inside depth sizes.now ty }
{
    match ty {
        VarType::Unknown | VarType::Elementary(_) => 0,
        VarType::Standard(kind) => { if depth == 0 { 0 } else { pins(kind).len() } }
        VarType::Block(place) => size_at(sizes, place),
    }
}

fn type_weight(depth: usize, sizes: &[usize], ty: VarType) -> usize
    ensures { result ≡ capped (type_weight depth sizes.now ty) }
{
    match ty {
        VarType::Elementary(_) => 1,
        _ => grown(1, inside(depth, sizes, ty)),
    }
}

fn is_kept(class: TextClass) -> bool
    ensures { result ≡ is_kept (class_meant class) }
{
    match class {
        TextClass::InOut | TextClass::Temp => false,
        _ => true,
    }
}

/// The leaves and instances of a variable, itself among them.
fn weight(depth: usize, sizes: &[usize], own: &Own) -> usize
    ensures { result ≡ capped (weight depth sizes.now (shown_own own.now)) }
{
    if is_kept(own.class) {
        type_weight(depth, sizes, own.ty)
    } else {
        0
    }
}

fn size(depth: usize, sizes: &[usize], owner: &Owner) -> usize
    ensures { result ≡ capped (sum_by (weight depth sizes.now) owner.now) }
{
    let mut size = 0;
    let variables = owner.variables();
    for own in variables {
        size = grown(size, weight(depth, sizes, own));
    }
    size
}

/// The sizes of POUs one level deeper.
fn next_sizes(
    alloc: Global,
    depth: usize,
    owners: &[Owner],
    sizes: &[usize],
) -> Result<Vec<usize>, NoMemory>
    ensures { IfOk result (λ next. next.items ≡ map (λ (ts : List Typed). capped (sum_by (weight depth sizes.now) ts)) owners.now) }
{
    let mut next = Vec::new(alloc);
    for owner in owners {
        next.push(size(depth, sizes, owner))?;
    }
    Ok(next)
}

#[tactic(auto, using(crate::proofs::LevelSizes::all_small))]
fn no_sizes(alloc: Global, owners: &[Owner]) -> Result<Vec<usize>, NoMemory>
    ensures { IfOk result (λ none. none.items ≡ map capped (sizes 0 owners.now)) }
{
    Ok(vec![in alloc; 0; owners.len()]?)
}

/// The sizes of POUs so many levels deep.
fn sizes(alloc: Global, owners: &[Owner], levels: usize) -> Result<Vec<usize>, NoMemory>
    ensures { IfOk result (λ all. all.items ≡ map capped (sizes levels owners.now)) }
{
    let mut all = no_sizes(alloc, owners)?;
    for depth in 0..levels {
        all = next_sizes(alloc, depth, owners, &all)?;
    }
    Ok(all)
}

fn too_large(alloc: Global, sizes: &[usize]) -> Result<Vec<bool>, NoMemory>
    ensures { IfOk result (λ marks. marks.items ≡ map (nat_lt max_text_leaves) sizes.now) }
{
    let mut marks = Vec::new(alloc);
    for size in sizes {
        marks.push(MAX_TEXT_LEAVES < *size)?;
    }
    Ok(marks)
}

impl<'a> Scope<'a> {
    /// A mark at each POU that has more leaves and instances than it may.
    pub fn large(&self, alloc: Global) -> Result<Vec<bool>, NoMemory>
        ensures { IfOk result (λ marks. marks.items ≡ map (λ (p : Pou). is_large (bare_of self.now) (bare_pou p)) (placed_of self.now)) }
    {
        let owners = self.owners();
        let all = sizes(alloc, owners, 18)?;
        Ok(too_large(alloc, &all)?)
    }
}

//! The rules on how deep instances stand in one another, and on how many leaves and parts a POU has with them.
ghost use Rattle.std.specs.Prelude.{◌≡◌, ◌+◌, ◌++◌, List, [], ◌||◌, map, true, option_map, option_to_list, slice_get, fold, nat_lt, IfOk};
ghost use Rattle.std.specs.List.{list_any, flat_map};
ghost use Rattle.plcx_types.specs.Limits.{max_instance_chain};
ghost use Rattle.plcx_model.specs.Verdict.{first_breaking};
ghost use Rattle.plcx_profile.specs.Declarations.{Declared, in_pou, start_of};
ghost use Rattle.plcx_profile.specs.Rounds.{flag_or, count_or, reached, summed, first_above};
ghost use Rattle.plcx_profile.specs.Seen.{shown};
ghost use Rattle.plcx_profile.specs.Sizes.{plus, place_in, block_of, leaves_as, own_leaves, parts_as, with_pins, with_kind, body_parts, with_variable, with_list, content_of, contents, reaches, own, total, breaks_chain, breaks_size};

use crate::blocks::Blocks;
use crate::declaration::{Declaration, start_of};
use crate::types::type_meant;
use plcx_draft::{DraftList, DraftPou, DraftVariable};
use plcx_model::{BodyElement, Kind, ListClass, PinIn, VarTy};
use plcx_std::pins;
use plcx_types::limits::{MAX_INSTANCE_CHAIN, MAX_LEAVES, MAX_PARTS};
use sqlite_items::{Items, at};
use std::alloc::{AllocError, Global};

/// What a POU has by itself: leaves, parts, and the places of the function blocks that its instances are of.
#[derive(Debug, Drop)]
pub struct Content {
    pub leaves: u64,
    pub parts: u64,
    pub blocks: Items<usize>,
}

/// What is counted of a POU with its instances.
#[derive(Clone, Copy, Debug, PartialEq, Eq)]
pub enum Size {
    Leaves,
    Parts,
}

/// More than there may be of anything.
const MOST: u64 = 4_194_304;

/// So many more, but no more than `MOST`.
fn plus(n: u64, more: u64) -> u64
    ensures { result ≡ plus n more }
{
    n.saturating_add(more).min(MOST)
}

fn place_in(ty: Option<VarTy>) -> Option<usize>
    ensures { result ≡ place_in ty }
{
    match ty {
        Some(VarTy::Block(place)) => Some(place as usize),
        _ => None,
    }
}

/// The place of a variable's type, where it is a function block of the file.
fn block_of(
    alloc: Global,
    blocks: &Blocks,
    variable: &DraftVariable,
) -> Result<Option<usize>, AllocError>
    ensures { IfOk result (λ found. found ≡ block_of blocks.now variable.now) }
{
    Ok(place_in(type_meant(alloc, blocks, &variable.ty)?))
}

fn leaves_as(ty: Option<VarTy>) -> u64
    ensures { result ≡ leaves_as ty }
{
    match ty {
        Some(VarTy::Plain(_)) => 1,
        Some(VarTy::Std(kind)) => pins(kind).len() as u64,
        _ => 0,
    }
}

fn own_leaves(class: ListClass, ty: Option<VarTy>) -> u64
    ensures { result ≡ own_leaves class ty }
{
    match class {
        ListClass::InOut => 0,
        _ => leaves_as(ty),
    }
}

fn parts_as(ty: Option<VarTy>) -> u64
    ensures { result ≡ parts_as ty }
{
    match ty {
        Some(VarTy::Std(_)) | Some(VarTy::Block(_)) => 1,
        _ => 0,
    }
}

fn with_pins(n: u64, pins: &[PinIn]) -> u64
    ensures { result ≡ with_pins n pins.now }
{
    let mut n = n;
    for pin in pins {
        n = plus(n, pin.input.len() as u64);
    }
    n
}

fn with_kind(n: u64, kind: &Kind) -> u64
    ensures { result ≡ with_kind n kind.now }
{
    match kind {
        Kind::RightRail { input }
        | Kind::Contact { input, .. }
        | Kind::Coil { input, .. }
        | Kind::Out { input, .. }
        | Kind::Connector { input, .. }
        | Kind::Jump { input, .. }
        | Kind::Return { input } => plus(n, input.len() as u64),
        Kind::Block {
            inputs,
            in_outs,
            ..
        } => with_pins(with_pins(n, inputs.as_slice()), in_outs.as_slice()),
        Kind::Skipped
        | Kind::LeftRail
        | Kind::In { .. }
        | Kind::Continuation { .. }
        | Kind::Label { .. } => n,
    }
}

/// The elements of a body and their connections.
fn body_parts(elements: &[BodyElement]) -> u64
    ensures { result ≡ body_parts elements.now }
{
    let mut n = 0;
    for element in elements {
        n = with_kind(plus(n, 1), &element.kind);
    }
    n
}

fn with_place(mut places: Items<usize>, place: Option<usize>) -> Result<Items<usize>, AllocError>
    ensures { IfOk result (λ all. all ≡ places ++ option_to_list place) }
{
    match place {
        None => {}
        Some(place) => places.push(place)?,
    }
    Ok(places)
}

/// What a POU has with one variable more.
fn with_variable(
    alloc: Global,
    blocks: &Blocks,
    class: ListClass,
    content: Content,
    variable: &DraftVariable,
) -> Result<Content, AllocError>
    ensures { IfOk result (λ after. after ≡ with_variable blocks.now class content variable.now) }
{
    let ty = type_meant(alloc, blocks, &variable.ty)?;
    let Content {
        leaves,
        parts,
        blocks: places,
    } = content;
    let places = with_place(places, place_in(ty))?;
    Ok(Content {
        leaves: plus(leaves, own_leaves(class, ty)),
        parts: plus(parts, parts_as(ty)),
        blocks: places,
    })
}

fn with_list(
    alloc: Global,
    blocks: &Blocks,
    mut content: Content,
    list: &DraftList,
) -> Result<Content, AllocError>
    ensures { IfOk result (λ after. after ≡ with_list blocks.now content list.now) }
{
    for variable in list.variables.as_slice() {
        content = with_variable(alloc, blocks, list.class, content, variable)?;
    }
    Ok(content)
}

/// What a POU has by itself.
#[tactic(auto, unfolding(crate::specs::Sizes::content_of))]
fn content_of(alloc: Global, blocks: &Blocks, pou: &DraftPou) -> Result<Content, AllocError>
    ensures { IfOk result (λ content. content ≡ content_of blocks.now pou.now) }
{
    let mut content = Content {
        leaves: 0,
        parts: body_parts(pou.body.elements()),
        blocks: Items::new(alloc),
    };
    for list in pou.lists.as_slice() {
        content = with_list(alloc, blocks, content, list)?;
    }
    Ok(content)
}

/// What each POU has by itself.
fn contents(alloc: Global, blocks: &Blocks) -> Result<Vec<Content>, AllocError>
    ensures { IfOk result (λ all. all.items ≡ contents blocks.now) }
{
    let mut all = Vec::new(alloc);
    let pous = blocks.pous();
    for pou in pous {
        all.push(content_of(alloc, blocks, pou)?)?;
    }
    Ok(all)
}

fn flag_at(flags: &[bool], place: usize) -> bool
    ensures { result ≡ flag_or (slice_get flags.now place) }
{
    match at(flags, place) {
        None => false,
        Some(flag) => *flag,
    }
}

fn has_flag(flags: &[bool], places: &[usize]) -> bool
    ensures { result ≡ list_any (λ b. flag_or (slice_get flags.now b)) places.now }
{
    places.iter().any(|place| flag_at(flags, *place))
}

#[tactic(auto, unfolding(crate::specs::Rounds::reached))]
fn reached(flags: &[bool], content: &Content) -> bool
    ensures { result ≡ reached flags.now content.now }
{
    has_flag(flags, content.blocks.as_slice())
}

/// One instance more below each POU.
fn deeper(alloc: Global, contents: &[Content], flags: &[bool]) -> Result<Vec<bool>, AllocError>
    ensures { IfOk result (λ all. all.items ≡ map (reached flags.now) contents.now) }
{
    let mut all = Vec::new(alloc);
    for content in contents {
        all.push(reached(flags, content))?;
    }
    Ok(all)
}

fn all_true(alloc: Global, contents: &[Content]) -> Result<Vec<bool>, AllocError>
    ensures { IfOk result (λ all. all.items ≡ map (λ c. true) contents.now) }
{
    let mut all = Vec::new(alloc);
    for _content in contents {
        all.push(true)?;
    }
    Ok(all)
}

/// For each POU, whether as many instances stand in one another below it as may.
#[tactic(auto, using(crate::proofs::Levels::deeper_from, crate::proofs::Levels::none_deep))]
fn deep(alloc: Global, contents: &[Content]) -> Result<Vec<bool>, AllocError>
    ensures { IfOk result (λ all. all.items ≡ map (reaches contents.now max_instance_chain) contents.now) }
{
    let mut flags = all_true(alloc, contents)?;
    for _level in 0..MAX_INSTANCE_CHAIN {
        flags = deeper(alloc, contents, &flags)?;
    }
    Ok(flags)
}

fn count_at(counts: &[u64], place: usize) -> u64
    ensures { result ≡ count_or (slice_get counts.now place) }
{
    match at(counts, place) {
        None => 0,
        Some(count) => *count,
    }
}

fn own(size: Size, content: &Content) -> u64
    ensures { result ≡ own size content.now }
{
    match size {
        Size::Leaves => content.leaves,
        Size::Parts => content.parts,
    }
}

fn sum_of(start: u64, counts: &[u64], places: &[usize]) -> u64
    ensures { result ≡ fold (λ m b. plus m (count_or (slice_get counts.now b))) start places.now }
{
    let mut n = start;
    for place in places {
        n = plus(n, count_at(counts, *place));
    }
    n
}

#[tactic(auto, unfolding(crate::specs::Rounds::summed))]
fn summed(size: Size, counts: &[u64], content: &Content) -> u64
    ensures { result ≡ summed size counts.now content.now }
{
    sum_of(own(size, content), counts, content.blocks.as_slice())
}

/// Each POU with its instances, one level deeper.
fn larger(
    alloc: Global,
    size: Size,
    contents: &[Content],
    counts: &[u64],
) -> Result<Vec<u64>, AllocError>
    ensures { IfOk result (λ all. all.items ≡ map (summed size counts.now) contents.now) }
{
    let mut all = Vec::new(alloc);
    for content in contents {
        all.push(summed(size, counts, content))?;
    }
    Ok(all)
}

fn all_zero(alloc: Global, contents: &[Content]) -> Result<Vec<u64>, AllocError>
    ensures { IfOk result (λ all. all.items ≡ map (λ c. 0) contents.now) }
{
    let mut all = Vec::new(alloc);
    for _content in contents {
        all.push(0)?;
    }
    Ok(all)
}

/// What each POU has with its instances, from the innermost type outwards.
#[tactic(auto, using(crate::proofs::Levels::larger_from, crate::proofs::Levels::none_large))]
fn totals(alloc: Global, size: Size, contents: &[Content]) -> Result<Vec<u64>, AllocError>
    ensures { IfOk result (λ all. all.items ≡ map (total contents.now size (max_instance_chain + 1)) contents.now) }
{
    let mut counts = all_zero(alloc, contents)?;
    for _level in 0..MAX_INSTANCE_CHAIN + 1 {
        counts = larger(alloc, size, contents, &counts)?;
    }
    Ok(counts)
}

fn breaks_chain(
    alloc: Global,
    blocks: &Blocks,
    flags: &[bool],
    item: &Declaration,
) -> Result<bool, AllocError>
    requires { flags.now ≡ map (reaches (contents blocks.now) max_instance_chain) (contents blocks.now) }
    ensures { IfOk result (λ broken. broken ≡ breaks_chain blocks.now [] (shown item.now)) }
{
    match item {
        Declaration::Pou(_) => Ok(false),
        Declaration::Variable(_, variable) => match block_of(alloc, blocks, variable)? {
            None => Ok(false),
            Some(place) => Ok(flag_at(flags, place)),
        },
    }
}

fn first_chain_in(
    alloc: Global,
    blocks: &Blocks,
    flags: &[bool],
    items: &[Declaration],
) -> Result<Option<u64>, AllocError>
    requires { flags.now ≡ map (reaches (contents blocks.now) max_instance_chain) (contents blocks.now) }
    ensures { IfOk result (λ p. p ≡ option_map start_of (first_breaking (breaks_chain blocks.now) [] (map shown items.now))) }
{
    for item in items {
        if breaks_chain(alloc, blocks, flags, item)? {
            return Ok(Some(start_of(item)));
        }
    }
    Ok(None)
}

/// The first variable at which a chain of instances begins that is too long.
pub fn first_long_chain(
    alloc: Global,
    blocks: &Blocks,
    items: &[Declaration],
) -> Result<Option<u64>, AllocError>
    ensures { IfOk result (λ p. p ≡ option_map start_of (first_breaking (breaks_chain blocks.now) [] (map shown items.now))) }
{
    let contents = contents(alloc, blocks)?;
    let flags = deep(alloc, &contents)?;
    Ok(first_chain_in(alloc, blocks, &flags, items)?)
}

fn is_above(counts: &[u64], place: usize, most: u64) -> bool
    ensures { result ≡ nat_lt most (count_or (slice_get counts.now place)) }
{
    count_at(counts, place) > most
}

/// The first POU of which there is too much with its instances.
fn first_above(leaves: &[u64], parts: &[u64], pous: &[DraftPou]) -> Option<u64>
    ensures { result ≡ first_above leaves.now parts.now 0 pous.now }
{
    for (place, pou) in pous.iter().enumerate() {
        if is_above(leaves, place, MAX_LEAVES as u64) || is_above(parts, place, MAX_PARTS as u64) {
            return Some(pou.start);
        }
    }
    None
}

/// The first POU that has too many leaves or parts with its instances.
pub fn first_too_large(alloc: Global, blocks: &Blocks) -> Result<Option<u64>, AllocError>
    ensures { IfOk result (λ p. p ≡ option_map start_of (first_breaking (breaks_size blocks.now) [] (flat_map in_pou blocks.now))) }
{
    let contents = contents(alloc, blocks)?;
    let leaves = totals(alloc, Size::Leaves, &contents)?;
    let parts = totals(alloc, Size::Parts, &contents)?;
    Ok(first_above(&leaves, &parts, blocks.pous()))
}

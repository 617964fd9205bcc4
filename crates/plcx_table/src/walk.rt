//! What is looked at in a file, as one list.
ghost use Rattle.std.specs.Prelude.{◌≡◌, ◌++◌, map, codes, IfOk};
ghost use Rattle.plcx_table.specs.Walk.{items, items_below, below, none_taken};
ghost use Rattle.plcx_table.specs.Format.{root_fate, looked_at};
ghost use Rattle.plcx_table.specs.Flat.{shown_item};

use crate::fate::{none_taken, step};
use crate::look::same;
use crate::row::{Fate, Row};
use plcx_types::limits::MAX_ELEMENT_DEPTH;
use plcx_xml::{Element, Node};
use std::alloc::{AllocError, Global};

/// An element that is looked at, and what becomes of it.
#[derive(Clone, Copy)]
pub struct Looked<'a, 'f> {
    pub fate: Fate,
    pub element: &'a Element<'f>,
}

/// An element and what is looked at below it, behind what is found so far.
#[cycle(walk)]
#[tactic(auto, unfolding(crate::specs::Walk::items))]
fn walk<'a, 'f>(
    mut found: Vec<Looked<'a, 'f>>,
    depth: usize,
    fate: Fate,
    element: &'a Element<'f>,
) -> Result<Vec<Looked<'a, 'f>>, AllocError>
    ensures { IfOk result (λ all. map shown_item all.items ≡ map shown_item found.entry.items ++ items depth fate element.now) }
{
    if depth == 0 {
        return Ok(found);
    }
    found.push(Looked { fate, element })?;
    Ok(walk_beyond(found, depth - 1, fate, element)?)
}

#[cycle(walk)]
fn walk_beyond<'a, 'f>(
    found: Vec<Looked<'a, 'f>>,
    depth: usize,
    fate: Fate,
    element: &'a Element<'f>,
) -> Result<Vec<Looked<'a, 'f>>, AllocError>
    ensures { IfOk result (λ all. map shown_item all.items ≡ map shown_item found.entry.items ++ below (items depth) fate element.now) }
{
    match fate {
        Fate::Read(row) => Ok(walk_below(found, depth, row, element.children())?),
        Fate::Refused(_) | Fate::Skipped(_) | Fate::Misplaced | Fate::Doubled => Ok(found),
    }
}

#[cycle(walk)]
#[tactic(auto, unfolding(crate::specs::Walk::items_below))]
fn walk_below<'a, 'f>(
    mut found: Vec<Looked<'a, 'f>>,
    depth: usize,
    row: Row,
    nodes: &'a [Node<'f>],
) -> Result<Vec<Looked<'a, 'f>>, AllocError>
    ensures { IfOk result (λ all. map shown_item all.items ≡ map shown_item found.entry.items ++ items_below (items depth) row none_taken nodes.now) }
{
    let mut taken = none_taken();
    for node in nodes {
        match node {
            Node::Element(child) => {
                let (fate, behind) = step(row, taken, child);
                found = walk(found, depth, fate, child)?;
                taken = behind;
            }
            Node::Text(_) => {}
        }
    }
    Ok(found)
}

#[tactic(auto, unfolding(crate::specs::Format::root_fate))]
fn root_fate(root: &Element) -> Fate
    ensures { result ≡ root_fate root.now }
{
    if same(root.name(), "project".as_bytes()) {
        Fate::Read(Row::Project)
    } else {
        Fate::Misplaced
    }
}

/// All that is looked at in a file, in document order.
#[tactic(auto, unfolding(crate::specs::Format::looked_at))]
pub fn looked_at<'a, 'f>(
    alloc: Global,
    root: &'a Element<'f>,
) -> Result<Vec<Looked<'a, 'f>>, AllocError>
    ensures { IfOk result (λ all. map shown_item all.items ≡ looked_at root.now) }
{
    Ok(walk(Vec::new(alloc), MAX_ELEMENT_DEPTH, root_fate(root), root)?)
}

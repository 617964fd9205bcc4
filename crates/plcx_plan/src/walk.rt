//! What is looked at in a file, as one list.
ghost use Rattle.std.specs.Prelude.{◌≡◌, ◌++◌, map, codes, IfOk};
ghost use Rattle.plcx_xml.specs.declared.tree.Node.{out-Node};
ghost use Rattle.plcx_plan.specs.Items.{role_below, role_of, items, items_below, at_section, in_sections, items_in};
ghost use Rattle.plcx_plan.specs.Seen.{shown};

use crate::condition::Role;
use plcx_table::same;
use plcx_types::limits::MAX_ELEMENT_DEPTH;
use plcx_xml::{Element, Node};
use std::alloc::{AllocError, Global};

/// An element that is looked at, and what it is.
#[derive(Clone, Copy)]
pub struct Looked<'a, 'f> {
    pub role: Role,
    pub element: &'a Element<'f>,
}

fn role_below(above: Role, name: &[u8]) -> Role
    ensures { result ≡ role_below above name.now }
{
    match above {
        Role::Resource => {
            if same(name, b"task") {
                Role::Task
            } else {
                Role::Other
            }
        }
        Role::Task => {
            if same(name, b"pouInstance") {
                Role::Instance
            } else {
                Role::Other
            }
        }
        Role::Root | Role::Instance | Role::Other => Role::Other,
    }
}

fn role_of(above: Role, element: &Element) -> Role
    ensures { result ≡ role_of above element.now }
{
    if same(element.name(), b"resource") {
        Role::Resource
    } else {
        role_below(above, element.name())
    }
}

/// An element and what stands in it, behind what is found so far.
#[cycle(walk)]
#[tactic(auto, unfolding(crate::specs::Items::items))]
fn walk<'a, 'f>(
    mut found: Vec<Looked<'a, 'f>>,
    depth: usize,
    role: Role,
    element: &'a Element<'f>,
) -> Result<Vec<Looked<'a, 'f>>, AllocError>
    ensures { IfOk result (λ all. map shown all.items ≡ map shown found.entry.items ++ items depth role element.now) }
{
    if depth == 0 {
        return Ok(found);
    }
    found.push(Looked { role, element })?;
    Ok(walk_below(found, depth - 1, role, element.children())?)
}

#[cycle(walk)]
#[tactic(auto, unfolding(crate::specs::Items::items_below))]
fn walk_below<'a, 'f>(
    mut found: Vec<Looked<'a, 'f>>,
    depth: usize,
    above: Role,
    nodes: &'a [Node<'f>],
) -> Result<Vec<Looked<'a, 'f>>, AllocError>
    ensures { IfOk result (λ all. map shown all.items ≡ map shown found.entry.items ++ items_below (items depth) above nodes.now) }
{
    for node in nodes {
        match node {
            Node::Element(child) => {
                found = walk(found, depth, role_of(above, child), child)?;
            }
            Node::Text(_) => {}
        }
    }
    Ok(found)
}

fn with_section<'a, 'f>(
    found: Vec<Looked<'a, 'f>>,
    node: &'a Node<'f>,
) -> Result<Vec<Looked<'a, 'f>>, AllocError>
    ensures { IfOk result (λ all. map shown all.items ≡ map shown found.entry.items ++ at_section (out-Node node.now)) }
{
    match node {
        Node::Element(section) => {
            if same(section.name(), b"instances") {
                Ok(walk(found, MAX_ELEMENT_DEPTH, Role::Other, section)?)
            } else {
                Ok(found)
            }
        }
        Node::Text(_) => Ok(found),
    }
}

#[tactic(auto, unfolding(crate::specs::Items::in_sections))]
fn with_sections<'a, 'f>(
    mut found: Vec<Looked<'a, 'f>>,
    nodes: &'a [Node<'f>],
) -> Result<Vec<Looked<'a, 'f>>, AllocError>
    ensures { IfOk result (λ all. map shown all.items ≡ map shown found.entry.items ++ in_sections nodes.now) }
{
    for node in nodes {
        found = with_section(found, node)?;
    }
    Ok(found)
}

/// The root of a file, and all that is looked at in it, in document order.
#[tactic(auto, unfolding(crate::specs::Items::items_in))]
pub fn items_in<'a, 'f>(
    alloc: Global,
    root: &'a Element<'f>,
) -> Result<Vec<Looked<'a, 'f>>, AllocError>
    ensures { IfOk result (λ all. map shown all.items ≡ items_in root.now) }
{
    let mut found = Vec::new(alloc);
    found.push(Looked {
        role: Role::Root,
        element: root,
    })?;
    Ok(with_sections(found, root.children())?)
}

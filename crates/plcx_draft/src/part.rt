//! Reading the children of an element.
ghost use Rattle.std.specs.Prelude.{◌≡◌, ◌++◌, option_copied, IfOk};
ghost use Rattle.plcx_xml.specs.declared.tree.Node.{out-Node};
ghost use Rattle.plcx_draft.specs.Parts.{named, part_in, parts_of, parts_in, first_part, first_child, text_in, text_of, text_under};
ghost use Rattle.plcx_table.specs.Walk.{first};

use plcx_table::same;
use plcx_xml::{Element, Node};
use sqlite_items::Items;
use std::alloc::{AllocError, Global};

/// What an element is read as, if it is one of these.
pub trait Part: Drop {
    ghost use Rattle.std.specs.Prelude.{Option};
    ghost use Rattle.plcx_xml.specs.declared.tree.Element.{Element};

    ghost part: { Element → Option Self };

    fn read(alloc: Global, element: &Element) -> Result<Option<Self>, AllocError>
        ensures { IfOk result (λ found. found ≡ part element.now) };
}

fn read_node<P: Part>(alloc: Global, node: &Node) -> Result<Option<P>, AllocError>
    ensures { IfOk result (λ found. found ≡ part_in P.part (out-Node node.now)) }
{
    match node {
        Node::Element(child) => Ok(P::read(alloc, child)?),
        Node::Text(_) => Ok(None),
    }
}

/// The children that are such parts, behind what is found so far.
#[tactic(auto, unfolding(crate::specs::Parts::parts_of))]
pub fn more<P: Part>(
    alloc: Global,
    mut found: Vec<P>,
    element: &Element,
) -> Result<Vec<P>, AllocError>
    ensures { IfOk result (λ all. all.items ≡ found.items ++ parts_of P.part element.now) }
{
    for node in element.children() {
        match read_node(alloc, node)? {
            None => {}
            Some(part) => found.push(part)?,
        }
    }
    Ok(found)
}

/// The children that are such parts, if the element is there.
pub fn parts_in<P: Part>(alloc: Global, element: Option<&Element>) -> Result<Items<P>, AllocError>
    ensures { IfOk result (λ items. items ≡ parts_in P.part (option_copied element.entry)) }
{
    match element {
        None => Ok(Items::new(alloc)),
        Some(element) => Ok(Items::from_vec(more(alloc, Vec::new(alloc), element)?)),
    }
}

/// The first child that is such a part.
#[tactic(auto, unfolding(crate::specs::Parts::first_part, crate::specs::Parts::parts_of))]
pub fn first_part<P: Part>(alloc: Global, element: &Element) -> Result<Option<P>, AllocError>
    ensures { IfOk result (λ found. found ≡ first_part P.part element.now) }
{
    for node in element.children() {
        match read_node(alloc, node)? {
            None => {}
            Some(part) => return Ok(Some(part)),
        }
    }
    Ok(None)
}

fn child_named<'a, 'f>(node: &'a Node<'f>, name: &str) -> Option<&'a Element<'f>>
    ensures { option_copied result ≡ part_in (named name.now) (out-Node node.now) }
{
    match node {
        Node::Element(child) => {
            if same(child.name(), name.as_bytes()) {
                Some(child)
            } else {
                None
            }
        }
        Node::Text(_) => None,
    }
}

/// The first child of a name.
#[tactic(auto, unfolding(crate::specs::Parts::first_child, crate::specs::Parts::first_part, crate::specs::Parts::parts_of))]
pub fn first_child<'a, 'f>(element: &'a Element<'f>, name: &str) -> Option<&'a Element<'f>>
    ensures { option_copied result ≡ first_child name.now element.now }
{
    for node in element.children() {
        if let Some(child) = child_named(node, name) {
            return Some(child);
        }
    }
    None
}

fn text_in<'a>(node: &'a Node) -> Option<&'a [u8]>
    ensures { option_copied result ≡ text_in (out-Node node.now) }
{
    match node {
        Node::Element(_) => None,
        Node::Text(text) => Some(text.value()),
    }
}

#[tactic(auto, unfolding(crate::specs::Parts::text_of))]
fn text_of<'a>(element: &'a Element) -> &'a [u8]
    ensures { result.now ≡ text_of element.now }
{
    for node in element.children() {
        if let Some(text) = text_in(node) {
            return text;
        }
    }
    &[]
}

/// The text of the first child of a name; it is empty where there is none.
#[tactic(auto, unfolding(crate::specs::Parts::text_under))]
pub fn text_under<'a>(element: &'a Element, name: &str) -> &'a [u8]
    ensures { result.now ≡ text_under name.now element.now }
{
    match first_child(element, name) {
        None => &[],
        Some(child) => text_of(child),
    }
}

/// A copy of a text.
pub fn copied(alloc: Global, bytes: &[u8]) -> Result<Items<u8>, AllocError>
    ensures { IfOk result (λ items. items ≡ bytes.now) }
{
    Items::from_slice(alloc, bytes)
}

//! Looking at an element: its attributes and its text.
ghost use Rattle.std.specs.Prelude.{◌≡◌, map, option_map, option_copied};
ghost use Rattle.std.specs.List.{list_all, list_any};
ghost use Rattle.std.specs.Str.{bytes_eq};
ghost use Rattle.plcx_xml.specs.Character.{is_space};
ghost use Rattle.plcx_table.specs.Walk.{value_under, values_of, first, is_nonblank, has_text, has_prefix};
ghost use Rattle.plcx_table.specs.Constructs.{attribute_of, number_at, or_zero};
ghost use Rattle.plcx_table.specs.Number.{number_of};
ghost use Rattle.plcx_table.specs.Rules.{at_most_one, is_among};
ghost use Rattle.plcx_xml.specs.declared.tree.Node.{out-Node};

use crate::decimal::number;
use plcx_xml::{Attribute, Element, Node};

fn is_space(byte: u8) -> bool
    ensures { result ≡ is_space byte }
{
    byte == b' ' || byte == b'\t' || byte == b'\r' || byte == b'\n'
}

fn is_blank(text: &[u8]) -> bool
    ensures { result ≡ list_all is_space text.now }
{
    text.iter().all(|byte| is_space(*byte))
}

fn is_nonblank(node: &Node) -> bool
    ensures { result ≡ is_nonblank (out-Node node.now) }
{
    match node {
        Node::Element(_) => false,
        Node::Text(text) => !is_blank(text.value()),
    }
}

fn is_any_nonblank(nodes: &[Node]) -> bool
    ensures { result ≡ list_any (λ n. is_nonblank (out-Node n)) nodes.now }
{
    nodes.iter().any(|node| is_nonblank(node))
}

/// Whether some text in an element isn't white space alone.
#[tactic(auto, unfolding(crate::specs::Walk::has_text))]
pub fn has_text(element: &Element) -> bool
    ensures { result ≡ has_text element.now }
{
    is_any_nonblank(element.children())
}

/// Whether a name has a prefix.
#[tactic(auto, unfolding(crate::specs::Walk::has_prefix))]
pub fn has_prefix(name: &[u8]) -> bool
    ensures { result ≡ has_prefix name.now }
{
    name.iter().any(|byte| *byte == b':')
}

/// Whether two names or values are spelled alike.
pub fn same(left: &[u8], right: &[u8]) -> bool
    ensures { result ≡ bytes_eq left.now right.now }
{
    left == right
}

fn is_any(names: &[&str], name: &[u8]) -> bool
    ensures { result ≡ list_any (λ known. bytes_eq name.now known.now) names.now }
{
    names.iter().any(|known| same(name, known.as_bytes()))
}

/// Whether a value is one of these.
#[tactic(auto, using(crate::proofs::Lists::any_of_map))]
pub fn is_among(names: &[&str], name: &[u8]) -> bool
    ensures { result ≡ list_any (bytes_eq name.now) (map (λ w. w.now) names.now) }
{
    is_any(names, name)
}

fn value_under<'a>(attribute: &'a Attribute, name: &str) -> Option<&'a [u8]>
    ensures { option_copied result ≡ value_under name.now attribute.now }
{
    if attribute.name() == name.as_bytes() {
        Some(attribute.value())
    } else {
        None
    }
}

/// The value of an attribute, if it stands; `None` where it stands twice.
#[tactic(auto, unfolding(crate::specs::Walk::values_of))]
pub fn value_at<'a>(element: &'a Element, name: &str) -> Option<Option<&'a [u8]>>
    ensures { option_map (λ found. option_copied found) result ≡ at_most_one (values_of name.now element.now) }
{
    let mut found = None;
    for attribute in element.attributes() {
        if let Some(value) = value_under(attribute, name) {
            if found.is_some() {
                return None;
            }
            found = Some(value);
        }
    }
    Some(found)
}

/// The first value of an attribute.
#[tactic(auto, unfolding(crate::specs::Walk::values_of))]
pub fn first_value<'a>(element: &'a Element, name: &str) -> Option<&'a [u8]>
    ensures { option_copied result ≡ first (values_of name.now element.now) }
{
    for attribute in element.attributes() {
        if let Some(value) = value_under(attribute, name) {
            return Some(value);
        }
    }
    None
}

/// The first value of an attribute; it is empty where there is none.
#[tactic(auto, unfolding(crate::specs::Constructs::attribute_of))]
pub fn attribute_of<'a>(element: &'a Element, name: &str) -> &'a [u8]
    ensures { result.now ≡ attribute_of name.now element.now }
{
    match first_value(element, name) {
        None => &[],
        Some(value) => value,
    }
}

/// The number that is an attribute's first value; 0 where it is none.
#[tactic(auto, unfolding(crate::specs::Constructs::number_at))]
pub fn number_at(element: &Element, name: &str) -> u64
    ensures { result ≡ number_at name.now element.now }
{
    match number(attribute_of(element, name)) {
        None => 0,
        Some(number) => number,
    }
}

//! Looking at an element: its attributes, its name, and what stands in it.
ghost use Rattle.std.specs.Prelude.{◌≡◌, ◌≤◌, ℕ, pos, List, codes, filter_map, option_map, option_copied, Some, IfSome, IfNone};
ghost use Rattle.std.specs.List.{list_any};
ghost use Rattle.std.specs.Option.{option_and_then};
ghost use Rattle.plcx_xml.specs.declared.tree.Node.{out-Node};
ghost use Rattle.plcx_table.specs.Number.{number_of};
ghost use Rattle.plcx_table.specs.Rules.{at_most_one};
ghost use Rattle.plcx_table.specs.Walk.{value_under};
ghost use Rattle.plcx_plan.specs.Attributes.{value_once, IsNamed};
ghost use Rattle.plcx_plan.specs.Conditions.{max_priority};
ghost use Rattle.plcx_plan.specs.Intervals.{IsInterval};
ghost use Rattle.plcx_plan.specs.Items.{is_element, is_task_with, has_instance};

use crate::interval::interval_of;
use plcx_table::{number, same};
use plcx_types::is_identifier;
use plcx_xml::{Attribute, Element, Node};

const MAX_PRIORITY: u64 = 65_535;

fn value_under<'a>(attribute: &'a Attribute, name: &str) -> Option<&'a [u8]>
    ensures { option_copied result ≡ value_under name.now attribute.now }
{
    if attribute.name() == name.as_bytes() {
        Some(attribute.value())
    } else {
        None
    }
}

/// The value of an attribute among these, if it stands; `None` where it stands twice.
fn value_among<'a>(attributes: &'a [Attribute], name: &str) -> Option<Option<&'a [u8]>>
    ensures { option_map (λ found. option_copied found) result ≡ at_most_one (filter_map (value_under name.now) attributes.now) }
{
    let mut found = None;
    for attribute in attributes {
        if let Some(value) = value_under(attribute, name) {
            if found.is_some() {
                return None;
            }
            found = Some(value);
        }
    }
    Some(found)
}

/// The value of an attribute that stands once.
#[tactic(auto, using(crate::proofs::Values::once))]
pub fn value_once<'a>(element: &'a Element, name: &str) -> Option<&'a [u8]>
    ensures { option_copied result ≡ value_once name.now element.now }
{
    match value_among(element.attributes(), name) {
        None => None,
        Some(value) => value,
    }
}

/// The name of an element, which is an identifier.
pub fn name_of<'a>(element: &'a Element) -> Option<&'a [u8]>
    ensures some { IfSome result (λ name. IsNamed element.now name.now) }
    ensures none { IfNone result ((name : List ℕ) → IsNamed element.now name → ⊥) }
{
    let name = value_once(element, "name")?;
    if is_identifier(name) {
        Some(name)
    } else {
        None
    }
}

fn small(n: u64) -> Option<u32>
    ensures some { IfSome result (λ m. (m ≡ n) × m ≤ max_priority) }
    ensures none { IfNone result (n ≤ max_priority → ⊥) }
{
    if n <= MAX_PRIORITY {
        Some(n as u32)
    } else {
        None
    }
}

/// The priority of a task.
pub fn priority_of(element: &Element) -> Option<u32>
    ensures some { IfSome result (λ n. (option_and_then number_of (value_once (codes "priority") element.now) ≡ Some n) × n ≤ max_priority) }
    ensures none { IfNone result ((n : ℕ) → option_and_then number_of (value_once (codes "priority") element.now) ≡ Some n → n ≤ max_priority → ⊥) }
{
    small(number(value_once(element, "priority")?)?)
}

/// The interval of a task, in milliseconds.
pub fn interval_at(element: &Element) -> Option<i64>
    ensures some { IfSome result (λ n. (text : List ℕ) × (ms : ℕ) × (value_once (codes "interval") element.now ≡ Some text) × IsInterval text ms × (n ≡ pos ms)) }
    ensures none { IfNone result ((text : List ℕ) (ms : ℕ) → value_once (codes "interval") element.now ≡ Some text → IsInterval text ms → ⊥) }
{
    interval_of(value_once(element, "interval")?)
}

fn is_element(node: &Node, name: &str) -> bool
    ensures { result ≡ is_element name.now (out-Node node.now) }
{
    match node {
        Node::Element(element) => same(element.name(), name.as_bytes()),
        Node::Text(_) => false,
    }
}

fn has_element(nodes: &[Node], name: &str) -> bool
    ensures { result ≡ list_any (λ n. is_element name.now (out-Node n)) nodes.now }
{
    nodes.iter().any(|node| is_element(node, name))
}

fn is_task_with(node: &Node) -> bool
    ensures { result ≡ is_task_with (out-Node node.now) }
{
    match node {
        Node::Element(element) => {
            same(element.name(), b"task") && has_element(element.children(), "pouInstance")
        }
        Node::Text(_) => false,
    }
}

fn is_any_task_with(nodes: &[Node]) -> bool
    ensures { result ≡ list_any (λ n. is_task_with (out-Node n)) nodes.now }
{
    nodes.iter().any(|node| is_task_with(node))
}

/// Whether a task of a resource has an instance.
#[tactic(auto, unfolding(crate::specs::Items::has_instance))]
pub fn has_instance(resource: &Element) -> bool
    ensures { result ≡ has_instance resource.now }
{
    is_any_task_with(resource.children())
}

//! The rules on the structure of a file and on its attributes.
ghost use Rattle.std.specs.Prelude.{◌≡◌, map, not, fold, codes, option_map, option_copied, ◌||◌, nat_eq, length};
ghost use Rattle.std.specs.List.{list_any};
ghost use Rattle.std.specs.Str.{bytes_eq};
ghost use Rattle.plcx_xml.specs.declared.tree.Node.{out-Node};
ghost use Rattle.plcx_types.specs.ReadAddress.{is_address};
ghost use Rattle.plcx_table.specs.Shown.{shown_child, shown_field};
ghost use Rattle.plcx_table.specs.Rules.{taken_by, is_open, lacks_child, has_stray_text, breaks_structure, has_form, is_bad, is_bad_field, has_bad_field, has_bad_namespace, breaks_attributes};

use crate::decimal::{coordinate, number};
use crate::fate::{is_taken, none_taken, taken_behind};
use crate::look::{has_text, is_among, same, value_at};
use crate::row::{Fate, Form, Often, Row, Taken};
use crate::table::{Child, Field, attributes, children, holds_text};
use plcx_types::is_address;
use plcx_xml::{Element, Node};

#[tactic(auto, unfolding(crate::specs::Rules::taken_by))]
fn taken_by(row: Row, nodes: &[Node]) -> Taken
    ensures { result ≡ taken_by row nodes.now }
{
    nodes
        .iter()
        .fold(none_taken(), |taken, node| taken_behind(row, taken, node))
}

fn is_open(taken: Taken, often: Often) -> bool
    ensures { result ≡ is_open taken often }
{
    match often {
        Often::Any | Often::AtMostOnce(_) => false,
        Often::Once(seat) => !is_taken(seat, taken),
    }
}

fn has_open(children: &[Child], taken: Taken) -> bool
    ensures { result ≡ list_any (λ c. is_open taken c.often) children.now }
{
    children.iter().any(|child| is_open(taken, child.often))
}

#[tactic(auto, unfolding(crate::specs::Rules::lacks_child), using(crate::proofs::Lists::any_of_map))]
fn lacks_child(row: Row, element: &Element) -> bool
    ensures { result ≡ lacks_child row element.now }
{
    has_open(children(row), taken_by(row, element.children()))
}

#[tactic(auto, unfolding(crate::specs::Rules::has_stray_text))]
fn has_stray_text(row: Row, element: &Element) -> bool
    ensures { result ≡ has_stray_text row element.now }
{
    !holds_text(row) && has_text(element)
}

/// Whether an element is misplaced or doubled, lacks a child, or has text that may not stand.
pub fn breaks_structure(fate: Fate, element: &Element) -> bool
    ensures { result ≡ breaks_structure fate element.now }
{
    match fate {
        Fate::Misplaced | Fate::Doubled => true,
        Fate::Read(row) => lacks_child(row, element) || has_stray_text(row, element),
        Fate::Refused(_) | Fate::Skipped(_) => false,
    }
}

/// Whether a text is empty or an address.
fn has_address_form(text: &[u8]) -> bool
    ensures { result ≡ (nat_eq (length text.now) 0 || is_address text.now) }
{
    text.is_empty() || is_address(text)
}

#[tactic(auto, unfolding(crate::specs::Rules::has_form))]
fn has_form(form: Form, value: &[u8]) -> bool
    ensures { result ≡ has_form form value.now }
{
    match form {
        Form::Whole => number(value).is_some(),
        Form::Coordinate => coordinate(value).is_some(),
        Form::Edge => is_among(&["none", "rising", "falling"], value),
        Form::Storage => is_among(&["none", "set", "reset"], value),
        Form::Nonempty => !value.is_empty(),
        Form::Boolean => is_among(&["true", "false", "1", "0"], value),
        Form::PouType => is_among(&["program", "functionBlock", "function"], value),
        Form::Namespace => is_among(
            &[
                "http://www.plcopen.org/xml/tc6_0201",
                "http://www.plcopen.org/xml/tc6_0200",
            ],
            value,
        ),
        Form::Address => has_address_form(value),
        Form::Text => true,
    }
}

fn is_bad_field(element: &Element, field: &Field) -> bool
    ensures { result ≡ is_bad_field element.now (shown_field field.now) }
{
    match value_at(element, field.name) {
        None => true,
        Some(None) => field.required,
        Some(Some(value)) => !has_form(field.form, value),
    }
}

fn has_bad(element: &Element, fields: &[Field]) -> bool
    ensures { result ≡ list_any (λ f. is_bad_field element.now (shown_field f)) fields.now }
{
    fields.iter().any(|field| is_bad_field(element, field))
}

#[tactic(auto, unfolding(crate::specs::Rules::has_bad_field), using(crate::proofs::Lists::any_of_map))]
fn has_bad_field(row: Row, element: &Element) -> bool
    ensures { result ≡ has_bad_field row element.now }
{
    has_bad(element, attributes(row))
}

#[tactic(auto, unfolding(crate::specs::Rules::has_bad_namespace))]
fn has_bad_namespace(namespace: &[u8], element: &Element) -> bool
    ensures { result ≡ has_bad_namespace namespace.now element.now }
{
    match value_at(element, "xmlns") {
        None => true,
        Some(None) => false,
        Some(Some(value)) => !same(value, namespace),
    }
}

/// Whether an attribute of an element is missing, doubled or malformed.
pub fn breaks_attributes(namespace: &[u8], fate: Fate, element: &Element) -> bool
    ensures { result ≡ breaks_attributes namespace.now fate element.now }
{
    match fate {
        Fate::Read(row) | Fate::Refused(row) => {
            has_bad_field(row, element) || has_bad_namespace(namespace, element)
        }
        Fate::Skipped(row) => has_bad_field(row, element),
        Fate::Misplaced | Fate::Doubled => false,
    }
}

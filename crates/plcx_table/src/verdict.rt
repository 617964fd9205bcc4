//! The first rule on its form that a file breaks.
ghost use Rattle.std.specs.Prelude.{◌≡◌, [], map, option_map, codes, IfOk};
ghost use Rattle.plcx_model.specs.Verdict.{Verdict, first_breaking};
ghost use Rattle.plcx_table.specs.Constructs.{attribute_of, referred};
ghost use Rattle.plcx_table.specs.Flat.{shown_item, first_place, BreaksIn};
ghost use Rattle.plcx_table.specs.Rules.{breaks_structure, breaks_attributes};
ghost use Rattle.plcx_table.specs.Format.{breaks, place_of, FormatVerdict};

use crate::constructs::first_left_out;
use crate::limits::first_too_many;
use crate::look::attribute_of;
use crate::row::FormatRule;
use crate::rules::{breaks_attributes, breaks_structure};
use crate::walk::{Looked, looked_at};
use plcx_xml::Element;
use std::alloc::{AllocError, Global};

/// The rules, as they are tested.
const ORDER: [FormatRule; 4] = [
    FormatRule::Structure,
    FormatRule::Attributes,
    FormatRule::Constructs,
    FormatRule::Limits,
];

/// The first element that is misplaced or doubled, lacks a child, or has text that may not stand.
fn first_misplaced(items: &[Looked]) -> Option<u64>
    ensures { result ≡ first_place (λ x. breaks_structure x.fate x.element) (map shown_item items.now) }
{
    for item in items {
        if breaks_structure(item.fate, item.element) {
            return Some(item.element.span.start);
        }
    }
    None
}

/// The first element with an attribute that is missing, doubled or malformed.
fn first_malformed(namespace: &[u8], items: &[Looked]) -> Option<u64>
    ensures { result ≡ first_place (λ x. breaks_attributes namespace.now x.fate x.element) (map shown_item items.now) }
{
    for item in items {
        if breaks_attributes(namespace, item.fate, item.element) {
            return Some(item.element.span.start);
        }
    }
    None
}

/// The first element that breaks a rule.
#[tactic(auto, unfolding(crate::specs::Format::breaks))]
fn first_breaking(
    alloc: Global,
    namespace: &[u8],
    rule: FormatRule,
    items: &[Looked],
) -> Result<Option<u64>, AllocError>
    ensures { IfOk result (λ p. p ≡ option_map (place_of rule) (first_breaking (breaks namespace.now (map shown_item items.now) rule) [] (map shown_item items.now))) }
{
    match rule {
        FormatRule::Structure => Ok(first_misplaced(items)),
        FormatRule::Attributes => Ok(first_malformed(namespace, items)),
        FormatRule::Constructs => Ok(first_left_out(alloc, items)?),
        FormatRule::Limits => Ok(first_too_many(items)),
    }
}

/// The first of these rules that is broken, and where.
fn first_broken(
    alloc: Global,
    namespace: &[u8],
    order: &[FormatRule],
    items: &[Looked],
) -> Result<Option<(FormatRule, u64)>, AllocError>
    ensures { IfOk result (Verdict (BreaksIn namespace.now (map shown_item items.now)) place_of (map shown_item items.now) order.now) }
{
    for rule in order {
        match first_breaking(alloc, namespace, *rule, items)? {
            Some(place) => return Ok(Some((*rule, place))),
            None => {}
        }
    }
    Ok(None)
}

/// The first rule on its form that a file breaks, and the byte where the element begins that breaks it first.
pub fn format_verdict(
    alloc: Global,
    root: &Element,
) -> Result<Option<(FormatRule, u64)>, AllocError>
    ensures { IfOk result (FormatVerdict root.now) }
{
    let items = looked_at(alloc, root)?;
    Ok(first_broken(alloc, attribute_of(root, "xmlns"), &ORDER, &items)?)
}

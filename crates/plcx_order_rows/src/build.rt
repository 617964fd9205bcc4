//! `Wires` of a list of elements and connections, where they have the form that it asks for.
ghost use Rattle.std.specs.Prelude.{◌≡◌, ◌<◌, ◌≤◌, ◌+◌, ◌^◌, true, false, drop, length};
ghost use Rattle.plcx_types.specs.Lists.{Each};
ghost use Rattle.plcx_model.specs.Numbering.{HasGraph, LocalIdsDiffer, pins_of, pins_in};
ghost use Rattle.plcx_order_rows.specs.Tested.{HasOnePin, OtherId, AreBelow};

use plcx_model::{BodyElement, Kind, Source};
use sqlite_items::Items;

/// Whether the elements from a place on have other localIds than one.
fn is_new(elements: &[BodyElement], id: u64, from: usize) -> bool
    requires { from ≤ length elements.now }
    ensures { result ≡ true → Each (OtherId id) (drop from elements.now) }
{
    let mut k = elements.len();
    while k > from {
        k -= 1;
        if elements[k].local_id == id {
            return false;
        }
    }
    true
}

fn ids_differ(elements: &[BodyElement]) -> bool
    ensures { result ≡ true → LocalIdsDiffer elements.now }
{
    let mut k = elements.len();
    while k > 0 {
        k -= 1;
        if !is_new(elements, elements[k].local_id, k + 1) {
            return false;
        }
    }
    true
}

/// Whether an element has one input pin, and isn't a block.
fn has_one_pin(kind: &Kind) -> bool
    ensures { result ≡ true → pins_of kind.now ≡ 1 }
{
    matches!(kind, Kind::Connector { .. } | Kind::RightRail { .. })
}

fn have_one_pin(elements: &[BodyElement]) -> bool
    ensures { result ≡ true → Each HasOnePin elements.now }
{
    let mut k = elements.len();
    while k > 0 {
        k -= 1;
        if !has_one_pin(&elements[k].kind) {
            return false;
        }
    }
    true
}

fn are_below(sources: &[Source], count: u32) -> bool
    ensures { result ≡ true → AreBelow count sources.now }
{
    let mut k = sources.len();
    while k > 0 {
        k -= 1;
        if sources[k].element >= count {
            return false;
        }
    }
    true
}

fn all_below(pins: &[Items<Source>], count: u32) -> bool
    ensures { result ≡ true → Each (AreBelow count) pins.now }
{
    let mut k = pins.len();
    while k > 0 {
        k -= 1;
        if !are_below(pins[k].as_slice(), count) {
            return false;
        }
    }
    true
}

/// Whether these are elements with one pin each, and sources of each of them.
pub fn has_graph(elements: &[BodyElement], pins: &[Items<Source>]) -> bool
    ensures { result ≡ true → HasGraph elements.now pins.now }
{
    if elements.len() > 65536 {
        return false;
    }
    let count = elements.len() as u32;
    if elements.len() != pins.len() {
        return false;
    }
    if !have_one_pin(elements) {
        return false;
    }
    if !all_below(pins, count) {
        return false;
    }
    ids_differ(elements)
}

//! What becomes of an element, by the table.
ghost use Rattle.std.specs.Prelude.{◌≡◌, map, option_map, codes, option_copied};
ghost use Rattle.std.specs.List.{find, list_any};
ghost use Rattle.plcx_xml.specs.declared.tree.Node.{out-Node};
ghost use Rattle.plcx_table.specs.Walk.{is_meant, fits, child_for, fate_for, other_fate, is_aside, is_taken, with_seat, none_taken, fate_of, taken_with, taken_behind, fate_often, with_often};
ghost use Rattle.plcx_table.specs.Shown.{shown_child, shown_when};

use crate::look::{first_value, has_prefix, has_text, same};
use crate::row::{Fate, Often, Row, Seat, Taken};
use crate::table::{Child, When, children, holds_text};
use plcx_xml::{Element, Node};

fn is_meant(when: &When, element: &Element) -> bool
    ensures { result ≡ is_meant (shown_when when.now) element.now }
{
    match when {
        When::Always => true,
        When::Has(name, value) => match first_value(element, name) {
            None => false,
            Some(found) => same(found, value.as_bytes()),
        },
        When::HasText => has_text(element),
    }
}

fn fits(child: &Child, element: &Element) -> bool
    ensures { result ≡ fits element.now (shown_child child.now) }
{
    same(child.name.as_bytes(), element.name()) && is_meant(&child.when, element)
}

fn fitting<'a>(children: &'a [Child], element: &Element) -> Option<&'a Child>
    ensures { option_copied result ≡ find (λ c. fits element.now (shown_child c)) children.now }
{
    children.iter().find(|child| fits(child, element))
}

/// What a child is, among those that an element of a row may have.
#[tactic(auto, unfolding(crate::specs::Walk::child_for), using(crate::proofs::Lists::find_of_map))]
fn child_for(row: Row, element: &Element) -> Option<&'static Child>
    ensures { option_map shown_child (option_copied result) ≡ child_for row element.now }
{
    fitting(children(row), element)
}

/// What a child is meant as, among those that an element of a row may have.
pub fn fate_for(row: Row, element: &Element) -> Option<Fate>
    ensures { result ≡ fate_for row element.now }
{
    Some(child_for(row, element)?.fate)
}

#[tactic(auto, unfolding(crate::specs::Walk::is_aside))]
fn is_aside(name: &[u8]) -> bool
    ensures { result ≡ is_aside name.now }
{
    same(name, "documentation".as_bytes()) || same(name, "addData".as_bytes())
}

/// Nothing is taken up by now.
pub fn none_taken() -> Taken
    ensures { result ≡ none_taken }
{
    Taken {
        first: false,
        second: false,
        third: false,
        fourth: false,
    }
}

/// Whether a child of that seat stands before.
pub fn is_taken(seat: Seat, taken: Taken) -> bool
    ensures { result ≡ is_taken seat taken }
{
    match seat {
        Seat::First => taken.first,
        Seat::Second => taken.second,
        Seat::Third => taken.third,
        Seat::Fourth => taken.fourth,
    }
}

fn with_seat(seat: Seat, taken: Taken) -> Taken
    ensures { result ≡ with_seat seat taken }
{
    match seat {
        Seat::First => Taken {
            first: true,
            ..taken
        },
        Seat::Second => Taken {
            second: true,
            ..taken
        },
        Seat::Third => Taken {
            third: true,
            ..taken
        },
        Seat::Fourth => Taken {
            fourth: true,
            ..taken
        },
    }
}

fn with_often(often: Often, taken: Taken) -> Taken
    ensures { result ≡ with_often often taken }
{
    match often {
        Often::Any => taken,
        Often::AtMostOnce(seat) | Often::Once(seat) => with_seat(seat, taken),
    }
}

fn fate_often(often: Often, taken: Taken, fate: Fate) -> Fate
    ensures { result ≡ fate_often often taken fate }
{
    match often {
        Often::Any => fate,
        Often::AtMostOnce(seat) | Often::Once(seat) => {
            if is_taken(seat, taken) {
                Fate::Doubled
            } else {
                fate
            }
        }
    }
}

/// What becomes of a child whose name the table doesn't have.
fn other_fate(row: Row, name: &[u8]) -> Fate
    ensures { result ≡ other_fate row name.now }
{
    if row == Row::Contents && !has_prefix(name) {
        Fate::Refused(Row::Bare)
    } else {
        Fate::Misplaced
    }
}

/// What becomes of a child of an element of this row, and what is taken up behind it.
#[tactic(auto, unfolding(crate::specs::Walk::fate_of, crate::specs::Walk::taken_with))]
pub fn step(row: Row, taken: Taken, element: &Element) -> (Fate, Taken)
    ensures fate { result.0 ≡ fate_of row taken element.now }
    ensures taken { result.1 ≡ taken_with row taken element.now }
{
    if holds_text(row) {
        return (Fate::Misplaced, taken);
    }
    if is_aside(element.name()) {
        return (Fate::Skipped(Row::Bare), taken);
    }
    match child_for(row, element) {
        None => (other_fate(row, element.name()), taken),
        Some(child) => (
            fate_often(child.often, taken, child.fate),
            with_often(child.often, taken),
        ),
    }
}

/// What is taken up behind a part of an element.
pub fn taken_behind(row: Row, taken: Taken, node: &Node) -> Taken
    ensures { result ≡ taken_behind row taken (out-Node node.now) }
{
    match node {
        Node::Element(element) => step(row, taken, element).1,
        Node::Text(_) => taken,
    }
}

//! The rule on constructs that are left out.
ghost use Rattle.std.specs.Prelude.{◌≡◌, ℕ, ◌+◌, ◌≤◌, ◌<◌, ◌^◌, ◌||◌, List, [], ◌∷◌, codes, map, option_map, IfOk, OnOk, if◌then◌else◌};
ghost use Rattle.std.specs.List.{list_any};
ghost use Rattle.std.specs.HashSet.{contains_by};
ghost use Rattle.plcx_table.specs.Flat.{shown_item};
ghost use Rattle.plcx_table.specs.Constructs.{is_point, has_point, node_has_point, is_pair, diagrams_with, with_reference, referred, is_left_out, breaks_constructs};
ghost use Rattle.plcx_table.specs.Format.{place_of};
ghost use Rattle.plcx_model.specs.Verdict.{first_breaking};
ghost use Rattle.plcx_table.specs.declared.row.FormatRule.TheVariants.{Constructs};

use crate::look::{number_at, same};
use crate::row::{Fate, Row};
use crate::walk::Looked;
use plcx_xml::{Element, Node};
use std::alloc::{AllocError, Global};
use std::collections::HashSet;

#[tactic(auto, unfolding(crate::specs::Constructs::is_point))]
fn is_point(name: &[u8]) -> bool
    ensures { result ≡ is_point name.now }
{
    same(name, "connectionPointIn".as_bytes()) || same(name, "connectionPointOut".as_bytes())
}

/// Whether an element is a connection point, or one is in it at any depth.
#[cycle(point)]
#[tactic(auto, using(crate::proofs::Points::point_element))]
fn has_point(element: &Element) -> bool
    ensures { result ≡ has_point element.now }
{
    if is_point(element.name()) {
        return true;
    }
    for node in element.children() {
        if node_has_point(node) {
            return true;
        }
    }
    false
}

#[cycle(point)]
#[tactic(auto, using(crate::proofs::Points::point_child, crate::proofs::Points::point_text))]
fn node_has_point(node: &Node) -> bool
    ensures { result ≡ node_has_point node.now }
{
    match node {
        Node::Element(child) => has_point(child),
        Node::Text(_) => false,
    }
}

/// Notes a number in a diagram.
fn note_pair(set: &mut HashSet<(u64, u64)>, diagram: u64, number: u64) -> Result<(), AllocError>
    ensures { OnOk result ((d n : ℕ) → contains_by (is_pair d n) set.new ≡ (is_pair d n (diagram, number) || contains_by (is_pair d n) set.old)) }
{
    set.insert((diagram, number))?;
    Ok(())
}

/// Whether a number is there.
fn has_pair(set: &HashSet<(u64, u64)>, diagram: u64, number: u64) -> bool
    ensures { result ≡ contains_by (is_pair diagram number) set.now }
{
    set.contains(&(diagram, number))
}

fn diagrams_with(fate: Fate, diagrams: u64) -> u64
    requires { diagrams + 1 < 2 ^ 64 }
    ensures same { result ≡ diagrams_with fate diagrams }
    ensures few { result ≤ diagrams + 1 }
{
    match fate {
        Fate::Read(Row::Diagram) => diagrams + 1,
        _ => diagrams,
    }
}

fn is_connection(fate: Fate) -> bool
    ensures { (p : ℕ × ℕ) (rest : List (ℕ × ℕ)) → with_reference fate p rest ≡ (if result then p ∷ rest else rest) }
{
    match fate {
        Fate::Read(Row::Connection) | Fate::Read(Row::RailConnection) => true,
        _ => false,
    }
}

/// The localIds that the connections of each diagram name.
#[tactic(auto, unfolding(crate::specs::Constructs::referred))]
fn references(alloc: Global, items: &[Looked]) -> Result<HashSet<(u64, u64)>, AllocError>
    ensures { IfOk result (λ set. (d n : ℕ) → contains_by (is_pair d n) set ≡ list_any (is_pair d n) (referred 0 (map shown_item items.now))) }
{
    let mut set = HashSet::new(alloc);
    let mut diagrams = 0u64;
    for item in items {
        if is_connection(item.fate) {
            note_pair(&mut set, diagrams, number_at(item.element, "refLocalId"))?;
        }
        diagrams = diagrams_with(item.fate, diagrams);
    }
    Ok(set)
}

fn is_left_out(set: &HashSet<(u64, u64)>, diagram: u64, fate: Fate, element: &Element) -> bool
    ensures { (all : List (ℕ × ℕ)) → ((d n : ℕ) → contains_by (is_pair d n) set.now ≡ list_any (is_pair d n) all) → result ≡ is_left_out all diagram fate element.now }
{
    match fate {
        Fate::Refused(_) => true,
        Fate::Skipped(Row::Vendor) => {
            has_point(element) || has_pair(set, diagram, number_at(element, "localId"))
        }
        _ => false,
    }
}

/// The first element that is left out, or of a vendor and takes part in a diagram.
fn left_out_in(set: &HashSet<(u64, u64)>, items: &[Looked]) -> Option<u64>
    requires { (d n : ℕ) → contains_by (is_pair d n) set.now ≡ list_any (is_pair d n) (referred 0 (map shown_item items.now)) }
    ensures { result ≡ option_map (place_of Constructs) (first_breaking (breaks_constructs (referred 0 (map shown_item items.now))) [] (map shown_item items.now)) }
{
    let mut diagrams = 0u64;
    for item in items {
        if is_left_out(set, diagrams, item.fate, item.element) {
            return Some(item.element.span.start);
        }
        diagrams = diagrams_with(item.fate, diagrams);
    }
    None
}

/// The first element that is left out, or of a vendor and takes part in a diagram.
pub fn first_left_out(alloc: Global, items: &[Looked]) -> Result<Option<u64>, AllocError>
    ensures { IfOk result (λ p. p ≡ option_map (place_of Constructs) (first_breaking (breaks_constructs (referred 0 (map shown_item items.now))) [] (map shown_item items.now))) }
{
    let set = references(alloc, items)?;
    Ok(left_out_in(&set, items))
}

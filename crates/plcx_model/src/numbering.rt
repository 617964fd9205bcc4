//! The graph of a body: elements in document order, connections by element, pin and place.
ghost use Rattle.std.specs.Prelude.{◌≡◌, ◌<◌, ◌≤◌, ◌+◌, ◌^◌, ◌++◌, map, take, drop, length, IfOk, OnOk};
ghost use Rattle.plcx_model.specs.Numbering.{key_of, kind_takes_part, pins_of, wires_at_pin, wires_at_pins, wires_from, pins_in, body_graph, HasGraph};
ghost use Rattle.plcx_model.specs.Shown.{graph_of};

use crate::body::{Body, BodyElement, Kind};
use crate::key::Key;
use crate::source::{Source, Wire};
use crate::wires::Wires;
use plcx_types::NoMemory;
use sqlite_items::Items;
use std::alloc::Global;

/// An order of 0 is none.
fn key_of(element: &BodyElement) -> Key
    ensures { result ≡ key_of element.now }
{
    let order = match element.order {
        Some(0) => None,
        order => order,
    };
    Key {
        order,
        y: element.y,
        x: element.x,
        local_id: element.local_id,
    }
}

fn takes_part(kind: &Kind) -> bool
    ensures { result ≡ kind_takes_part kind.now }
{
    !matches!(
        kind,
        Kind::Skipped | Kind::LeftRail | Kind::RightRail { .. }
    )
}

/// How many input pins an element has.
fn pins_of(kind: &Kind) -> usize
    requires { pins_of kind.now < 2 ^ 32 }
    ensures { result ≡ pins_of kind.now }
{
    match kind {
        Kind::Skipped | Kind::LeftRail | Kind::In { .. } | Kind::Label { .. } => 0,
        Kind::Block {
            inputs,
            in_outs,
            ..
        } => inputs.len() + in_outs.len(),
        _ => 1,
    }
}

fn keys_of(alloc: Global, elements: &[BodyElement]) -> Result<Vec<Key>, NoMemory>
    ensures { IfOk result (λ keys. keys.items ≡ map key_of elements.now) }
{
    let mut keys = Vec::new(alloc);
    for element in elements {
        keys.push(key_of(element))?;
    }
    Ok(keys)
}

fn parts_of(alloc: Global, elements: &[BodyElement]) -> Result<Vec<bool>, NoMemory>
    ensures { IfOk result (λ parts. parts.items ≡ map (λ e. kind_takes_part e.kind) elements.now) }
{
    let mut parts = Vec::new(alloc);
    for element in elements {
        parts.push(takes_part(&element.kind))?;
    }
    Ok(parts)
}

/// Adds the connections at one pin.
fn add_pin(
    wires: &mut Vec<Wire>,
    element: u32,
    pin: u32,
    sources: &[Source],
) -> Result<(), NoMemory>
    ensures { OnOk result (wires.new.items ≡ wires.old.items ++ wires_at_pin element pin sources.now) }
{
    for source in sources {
        wires.push(Wire {
            from: *source,
            to: Source { element, pin },
        })?;
    }
    Ok(())
}

/// Adds the connections at the pins of an element.
fn add_pins(wires: &mut Vec<Wire>, element: u32, pins: &[Items<Source>]) -> Result<(), NoMemory>
    requires { length pins.now < 2 ^ 32 }
    ensures { OnOk result (wires.new.items ≡ wires.old.items ++ wires_at_pins element 0 pins.now) }
{
    for pin in 0..pins.len() {
        add_pin(wires, element, pin as u32, pins[pin].as_slice())?;
    }
    Ok(())
}

/// Some of the lists, from a place on.
fn part(pins: &[Items<Source>], at: usize, count: usize) -> &[Items<Source>]
    requires { at + count ≤ length pins.now }
    ensures { result.now ≡ take count (drop at pins.now) }
{
    &pins[at..at + count]
}

/// All connections of a body.
fn wires_of(
    alloc: Global,
    elements: &[BodyElement],
    pins: &[Items<Source>],
) -> Result<Vec<Wire>, NoMemory>
    requires { HasGraph elements.now pins.now }
    ensures { IfOk result (λ wires. wires.items ≡ wires_from 0 elements.now pins.now) }
{
    let mut wires = Vec::new(alloc);
    let mut at = 0;
    for e in 0..elements.len() {
        let count = pins_of(&elements[e].kind);
        add_pins(&mut wires, e as u32, part(pins, at, count))?;
        at += count;
    }
    Ok(wires)
}

impl Wires {
    /// The elements, keys and connections of one body, with the sources of each of its input pins. Connections are
    /// numbered by the element that takes, then by its pin, then by the place in the list of sources.
    pub fn of(alloc: Global, body: &Body, sources: &[Items<Source>]) -> Result<Wires, NoMemory>
        requires { HasGraph body.now.elements sources.now }
        ensures { IfOk result (λ wires. graph_of wires ≡ body_graph body.now.elements sources.now) }
    {
        let elements = body.elements();
        let keys = keys_of(alloc, elements)?;
        let parts = parts_of(alloc, elements)?;
        let wires = wires_of(alloc, elements, sources)?;
        Ok(Wires { keys, parts, wires })
    }
}

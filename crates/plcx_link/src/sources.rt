//! The sources of the input pins of a body.
ghost use Rattle.std.specs.Prelude.{◌≡◌, ◌++◌, ◌||◌, Some, None, map, nat_eq, is_some, option_map, option_and_then, slice_get, IfOk, OnOk};
ghost use Rattle.std.specs.List.{filter, position_from};
ghost use Rattle.plcx_rules.specs.Texts.{same_name};
ghost use Rattle.plcx_rules.specs.Callees.{is_eno, result_count, output_name};
ghost use Rattle.plcx_rules.specs.Sources.{has_name, output_named, output_place, source_at, source_of, sources_at, continued, pins_with_sources, sources_in};
ghost use Rattle.plcx_link.specs.Outputs.{calls_function, output_place_by, output_at, is_only};
ghost use Rattle.plcx_model.specs.declared.body.PinIn.{PinIn};
ghost use Rattle.plcx_link.specs.InProject.{InProject};

use crate::body::ScopedBody;
use plcx_model::{Connection, Kind, PinIn, PinOut, Source};
use plcx_names::{is_eno, narrow, result_count, same_name};
use plcx_rules::Callee;
use sqlite_items::Items;
use std::alloc::{AllocError, Global};

/// Whether a block calls a function.
pub fn calls_function(callee: Option<Callee>) -> bool
    ensures { result ≡ calls_function callee }
{
    matches!(callee, Some(Callee::Function(_)))
}

/// Whether one output stands beside ENO.
pub fn is_only(outputs: &[PinOut]) -> bool
    ensures { result ≡ is_only outputs.now }
{
    result_count(outputs) == 1
}

/// The name that an output of a block stands for; at a function it may be the only one beside ENO.
pub fn output_name<'a>(function: bool, only: bool, output: &'a PinOut) -> &'a [u8]
    ensures { result.now ≡ output_name_by function only output.now }
{
    if function && !is_eno(output) && (only || output.formal.is_empty()) {
        b"OUT"
    } else {
        output.formal.as_slice()
    }
}

ghost use Rattle.plcx_link.specs.Outputs.{output_name_by, has_name_by};

fn has_name(function: bool, only: bool, name: &[u8], output: &PinOut) -> bool
    ensures { result ≡ has_name_by function only name.now output.now }
{
    same_name(name, output.formal.as_slice())
        || same_name(name, output_name(function, only, output))
}

/// The place of the first output of that name.
fn first_named(function: bool, outputs: &[PinOut], name: &[u8]) -> Option<usize>
    ensures { result ≡ position_from (has_name function outputs.now name.now) 0 outputs.now }
{
    let only = is_only(outputs);
    for i in 0..outputs.len() {
        if has_name(function, only, name, &outputs[i]) {
            return Some(i);
        }
    }
    None
}

/// The place of the output of a block that a connection names; where it names none, the block's only one.
fn output_named(function: bool, outputs: &[PinOut], name: &[u8]) -> Option<usize>
    ensures { result ≡ output_named function outputs.now name.now }
{
    match name {
        [] => only_output(outputs),
        [_, ..] => first_named(function, outputs, name),
    }
}

fn only_output(outputs: &[PinOut]) -> Option<usize>
    ensures { result ≡ (if nat_eq (length outputs.now) 1 then Some 0 else None) }
{
    if outputs.len() == 1 { Some(0) } else { None }
}

ghost use Rattle.std.specs.Prelude.{length, if◌then◌else◌};

/// The place of the output of an element that a connection names.
fn output_place(function: bool, kind: &Kind, name: &[u8]) -> Option<usize>
    ensures { result ≡ output_place_by function kind.now name.now }
{
    match kind {
        Kind::LeftRail
        | Kind::Contact { .. }
        | Kind::Coil { .. }
        | Kind::In { .. }
        | Kind::Continuation { .. } => Some(0),
        Kind::Block { outputs, .. } => output_named(function, outputs.as_slice(), name),
        Kind::Skipped
        | Kind::RightRail { .. }
        | Kind::Out { .. }
        | Kind::Connector { .. }
        | Kind::Label { .. }
        | Kind::Jump { .. }
        | Kind::Return { .. } => None,
    }
}

/// The place of the output that a connection names of the element at a place.
fn output_at(body: &ScopedBody, place: usize, name: &[u8]) -> Option<usize>
    ensures { result ≡ output_at body.now.owner.body.elements name.now place }
{
    match body.standing(place) {
        None => None,
        Some(one) => output_place(calls_function(one.resolved.callee), &one.element.kind, name),
    }
}

fn source_at(body: &ScopedBody, name: &[u8], place: usize) -> Result<Option<Source>, AllocError>
    ensures { IfOk result (λ source. source ≡ source_at body.now.owner.body.elements name.now place) }
{
    match output_at(body, place, name) {
        None => Ok(None),
        Some(pin) => Ok(Some(Source {
            element: narrow(place)?,
            pin: narrow(pin)?,
        })),
    }
}

/// The source of a connection.
#[tactic(auto, unfolding(plcx_rules::specs::Sources::source_of))]
fn source_of(body: &ScopedBody, connection: &Connection) -> Result<Option<Source>, AllocError>
    ensures { IfOk result (λ source. source ≡ source_of body.now.owner.body.elements connection.now) }
{
    match body.places().place_of_id(connection.element) {
        None => Ok(None),
        Some(place) => Ok(source_at(body, connection.formal.as_slice(), place)?),
    }
}

/// Whether a connection names no output of its producer.
#[tactic(auto, unfolding(plcx_rules::specs::Sources::source_of))]
pub fn has_no_source(body: &ScopedBody, connection: &Connection) -> bool
    ensures { result ≡ is_none (source_of body.now.owner.body.elements connection.now) }
{
    match body.places().place_of_id(connection.element) {
        None => true,
        Some(place) => output_at(body, place, connection.formal.as_slice()).is_none(),
    }
}

ghost use Rattle.std.specs.Prelude.{is_none};

/// The sources at a pin.
fn sources_at(
    alloc: Global,
    body: &ScopedBody,
    connections: &[Connection],
) -> Result<Items<Source>, AllocError>
    ensures { IfOk result (λ sources. sources ≡ sources_at body.now.owner.body.elements connections.now) }
{
    let mut sources = Items::new(alloc);
    for connection in connections {
        if let Some(source) = source_of(body, connection)? {
            sources.push(source)?;
        }
    }
    Ok(sources)
}

/// The source of a continuation.
fn continued(alloc: Global, body: &ScopedBody, name: &[u8]) -> Result<Items<Source>, AllocError>
    ensures { IfOk result (λ sources. sources ≡ continued body.now.owner.body.elements name.now) }
{
    let mut sources = Items::new(alloc);
    if let Some(place) = body.places().connector_place(alloc, name)? {
        sources.push(Source {
            element: narrow(place)?,
            pin: 0,
        })?;
    }
    Ok(sources)
}

/// Adds the sources at one pin.
fn add_pin(
    alloc: Global,
    body: &ScopedBody,
    all: &mut Items<Items<Source>>,
    pin: &[Connection],
) -> Result<(), AllocError>
    ensures { OnOk result (all.new ≡ all.old ++ sources_at body.now.owner.body.elements pin.now ∷ []) }
{
    all.push(sources_at(alloc, body, pin)?)?;
    Ok(())
}

ghost use Rattle.std.specs.Prelude.{◌∷◌, []};

/// Adds the sources at listed pins.
fn add_listed(
    alloc: Global,
    body: &ScopedBody,
    all: &mut Items<Items<Source>>,
    pins: &[PinIn],
) -> Result<(), AllocError>
    ensures { OnOk result (all.new ≡ all.old ++ map (λ (p : PinIn). sources_at body.now.owner.body.elements p.input) pins.now) }
{
    for pin in pins {
        add_pin(alloc, body, all, pin.input.as_slice())?;
    }
    Ok(())
}

/// Adds the sources at the pins of a block.
#[tactic(auto, using(crate::proofs::PinLists::block_pins))]
fn add_block(
    alloc: Global,
    body: &ScopedBody,
    all: &mut Items<Items<Source>>,
    inputs: &[PinIn],
    in_outs: &[PinIn],
) -> Result<(), AllocError>
    ensures { OnOk result (all.new ≡ all.old ++ map (sources_at body.now.owner.body.elements) (listed_pins inputs.now in_outs.now)) }
{
    add_listed(alloc, body, all, inputs)?;
    add_listed(alloc, body, all, in_outs)?;
    Ok(())
}

ghost use Rattle.plcx_link.specs.Outputs.{listed_pins};

/// Adds the sources of the input pins of an element.
#[tactic(auto, unfolding(plcx_rules::specs::Sources::pins_with_sources))]
fn add_element(
    alloc: Global,
    body: &ScopedBody,
    all: &mut Items<Items<Source>>,
    kind: &Kind,
) -> Result<(), AllocError>
    ensures { OnOk result (all.new ≡ all.old ++ pins_with_sources body.now.owner.body.elements kind.now) }
{
    match kind {
        Kind::RightRail { input }
        | Kind::Contact { input, .. }
        | Kind::Coil { input, .. }
        | Kind::Out { input, .. }
        | Kind::Connector { input, .. }
        | Kind::Jump { input, .. }
        | Kind::Return { input } => add_pin(alloc, body, all, input.as_slice())?,
        Kind::Block {
            inputs,
            in_outs,
            ..
        } => add_block(alloc, body, all, inputs.as_slice(), in_outs.as_slice())?,
        Kind::Continuation { name } => all.push(continued(alloc, body, name.as_slice())?)?,
        Kind::Skipped | Kind::LeftRail | Kind::In { .. } | Kind::Label { .. } => {}
    }
    Ok(())
}

/// The sources of each input pin of a body.
#[tactic(auto, unfolding(plcx_rules::specs::Sources::sources_in))]
fn sources_in(alloc: Global, body: &ScopedBody) -> Result<Items<Items<Source>>, AllocError>
    ensures { IfOk result (λ all. all ≡ sources_in body.now.owner.body.elements) }
{
    let mut all = Items::new(alloc);
    let elements = body.elements();
    for element in elements {
        add_element(alloc, body, &mut all, &element.kind)?;
    }
    Ok(all)
}

/// The sources of each input pin of each body.
pub fn sources_of(
    alloc: Global,
    bodies: &[ScopedBody],
) -> Result<Items<Items<Items<Source>>>, AllocError>
    ensures { IfOk result (λ all. all ≡ map (λ (b : InProject). sources_in b.owner.body.elements) bodies.now) }
{
    let mut all = Items::new(alloc);
    for body in bodies {
        all.push(sources_in(alloc, body)?)?;
    }
    Ok(all)
}

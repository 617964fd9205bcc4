//! The rules on localIds, references, outputs and connectors and labels.
ghost use Rattle.std.specs.Prelude.{◌≡◌, ◌<◌, Some, None, not, is_some, is_none, nat_eq, nat_lt, length, IfOk};
ghost use Rattle.std.specs.List.{list_any};
ghost use Rattle.plcx_model.specs.Sound.{connections_of};
ghost use Rattle.plcx_model.specs.declared.body.PinIn.{PinIn};
ghost use Rattle.plcx_model.specs.declared.body.Connection.{Connection};
ghost use Rattle.plcx_rules.specs.Sources.{place_of_id, source_of};
ghost use Rattle.plcx_link.specs.Faults.{pin_fails, stands_at, doubles_by, connector_by, label_by};
ghost use Rattle.plcx_link.specs.Outputs.{listed_pins};

use crate::body::ScopedBody;
use crate::sources::has_no_source;
use plcx_model::{BodyElement, Connection, Kind, PinIn};
use std::alloc::{AllocError, Global};

/// What is wrong with the connections at a pin.
#[derive(Clone, Copy, Debug, PartialEq, Eq)]
pub enum PinFault {
    /// One names no element of the body.
    NoElement,
    /// One names no output.
    NoOutput,
    /// There are several.
    Several,
}

fn names_no_element(body: &ScopedBody, connection: &Connection) -> bool
    ensures { result ≡ is_none (place_of_id body.now.owner.body.elements connection.now.element) }
{
    body.places().place_of_id(connection.element).is_none()
}

fn any_without_element(body: &ScopedBody, pin: &[Connection]) -> bool
    ensures { result ≡ list_any (λ (c : Connection). is_none (place_of_id body.now.owner.body.elements c.element)) pin.now }
{
    pin.iter().any(|one| names_no_element(body, one))
}

fn any_without_output(body: &ScopedBody, pin: &[Connection]) -> bool
    ensures { result ≡ list_any (λ (c : Connection). is_none (source_of body.now.owner.body.elements c)) pin.now }
{
    pin.iter().any(|one| has_no_source(body, one))
}

fn pin_fails(body: &ScopedBody, fault: PinFault, pin: &[Connection]) -> bool
    ensures { result ≡ pin_fails body.now.owner.body.elements fault pin.now }
{
    match fault {
        PinFault::NoElement => any_without_element(body, pin),
        PinFault::NoOutput => any_without_output(body, pin),
        PinFault::Several => pin.len() > 1,
    }
}

fn any_listed(body: &ScopedBody, fault: PinFault, pins: &[PinIn]) -> bool
    ensures { result ≡ list_any (λ (p : PinIn). pin_fails body.now.owner.body.elements fault p.input) pins.now }
{
    pins.iter()
        .any(|pin| pin_fails(body, fault, pin.input.as_slice()))
}

#[tactic(auto, using(crate::proofs::PinLists::any_listed))]
fn any_of_block(body: &ScopedBody, fault: PinFault, inputs: &[PinIn], in_outs: &[PinIn]) -> bool
    ensures { result ≡ list_any (pin_fails body.now.owner.body.elements fault) (listed_pins inputs.now in_outs.now) }
{
    any_listed(body, fault, inputs) || any_listed(body, fault, in_outs)
}

/// Whether a pin of an element has that fault.
pub fn any_pin_fails(body: &ScopedBody, fault: PinFault, kind: &Kind) -> bool
    ensures { result ≡ list_any (pin_fails body.now.owner.body.elements fault) (connections_of kind.now) }
{
    match kind {
        Kind::RightRail { input }
        | Kind::Contact { input, .. }
        | Kind::Coil { input, .. }
        | Kind::Out { input, .. }
        | Kind::Connector { input, .. }
        | Kind::Jump { input, .. }
        | Kind::Return { input } => pin_fails(body, fault, input.as_slice()),
        Kind::Block {
            inputs,
            in_outs,
            ..
        } => any_of_block(body, fault, inputs.as_slice(), in_outs.as_slice()),
        Kind::Skipped
        | Kind::LeftRail
        | Kind::In { .. }
        | Kind::Continuation { .. }
        | Kind::Label { .. } => false,
    }
}

fn stands_at(found: Option<usize>, place: usize) -> bool
    ensures { result ≡ stands_at found place }
{
    match found {
        None => false,
        Some(first) => first == place,
    }
}

/// Whether an earlier element of the body has the localId of the one at a place.
pub fn doubles_id(body: &ScopedBody, place: usize, element: &BodyElement) -> bool
    ensures { result ≡ doubles_by body.now.owner.body.elements place element.now.local_id }
{
    !stands_at(body.places().place_of_id(element.local_id), place)
}

/// Whether an element is a connector whose name an earlier one has, or a continuation without a connector.
pub fn breaks_connector(
    alloc: Global,
    body: &ScopedBody,
    place: usize,
    kind: &Kind,
) -> Result<bool, AllocError>
    ensures { IfOk result (λ b. b ≡ connector_by body.now.owner.body.elements place kind.now) }
{
    match kind {
        Kind::Connector { name, .. } => {
            let first = body.places().connector_place(alloc, name.as_slice())?;
            Ok(!stands_at(first, place))
        }
        Kind::Continuation { name } => {
            let first = body.places().connector_place(alloc, name.as_slice())?;
            Ok(first.is_none())
        }
        _ => Ok(false),
    }
}

/// Whether an element is a label whose name an earlier one has, or a jump without a label.
pub fn breaks_label(
    alloc: Global,
    body: &ScopedBody,
    place: usize,
    kind: &Kind,
) -> Result<bool, AllocError>
    ensures { IfOk result (λ b. b ≡ label_by body.now.owner.body.elements place kind.now) }
{
    match kind {
        Kind::Label { name } => {
            let first = body.places().label_place(alloc, name.as_slice())?;
            Ok(!stands_at(first, place))
        }
        Kind::Jump { label, .. } => {
            let first = body.places().label_place(alloc, label.as_slice())?;
            Ok(first.is_none())
        }
        _ => Ok(false),
    }
}

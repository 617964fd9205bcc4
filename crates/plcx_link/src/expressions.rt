//! The rules on expressions, targets, modifiers and elements of ladders.
ghost use Rattle.std.specs.Prelude.{◌≡◌, ◌&&◌, ◌||◌, not, option_map, option_and_then, slice_get};
ghost use Rattle.std.specs.List.{list_any};
ghost use Rattle.plcx_model.specs.declared.body.PinIn.{PinIn};
ghost use Rattle.plcx_model.specs.declared.body.PinOut.{PinOut};
ghost use Rattle.plcx_model.specs.declared.body.Connection.{Connection};
ghost use Rattle.plcx_rules.specs.Callees.{is_absent, present};
ghost use Rattle.plcx_rules.specs.LinkRules.{is_edge, is_stored, has_more, has_any, is_of_ladder};
ghost use Rattle.plcx_link.specs.Bodies.{standing};
ghost use Rattle.plcx_link.specs.Expressions.{lends_by, is_modified_by, lender_fails, fails_at, any_lender_by, expression_by, target_by, modifiers_by};

use crate::body::{ScopedBody, Standing};
use crate::formals::is_absent;
use plcx_model::{Connection, Edge, Kind, Mods, PinIn, PinOut, Storage};
use plcx_names::Holding;

/// Whether an expression isn't what may stand there, or its name is unknown.
pub fn breaks_expression(holding: Holding, kind: &Kind) -> bool
    ensures { result ≡ expression_by holding kind.now }
{
    match kind {
        Kind::In { .. } => !holding.value,
        Kind::Contact { .. } => !holding.operand,
        Kind::Coil { .. } | Kind::Out { .. } => !holding.known,
        _ => false,
    }
}

/// What is wrong with the element that an in-out pin is wired to.
#[derive(Clone, Copy, Debug, PartialEq, Eq)]
pub enum LenderFault {
    /// It is no inVariable that holds a variable which can be written.
    NoTarget,
    /// It is an inVariable with a modifier.
    Modified,
}

fn lends(holding: Holding, kind: &Kind) -> bool
    ensures { result ≡ lends_by holding kind.now }
{
    match kind {
        Kind::In { .. } => holding.target,
        _ => false,
    }
}

fn is_edge(edge: Edge) -> bool
    ensures { result ≡ is_edge edge }
{
    match edge {
        Edge::Plain => false,
        Edge::Rising | Edge::Falling => true,
    }
}

fn is_stored(storage: Storage) -> bool
    ensures { result ≡ is_stored storage }
{
    match storage {
        Storage::Plain => false,
        Storage::Set | Storage::Reset => true,
    }
}

/// Whether there is an edge or storage.
fn has_more(mods: &Mods) -> bool
    ensures { result ≡ has_more mods.now }
{
    is_edge(mods.edge) || is_stored(mods.storage)
}

/// Whether there is a modifier.
fn has_any(mods: &Mods) -> bool
    ensures { result ≡ has_any mods.now }
{
    mods.negated || has_more(mods)
}

fn is_modified_in(kind: &Kind) -> bool
    ensures { result ≡ is_modified_by kind.now }
{
    match kind {
        Kind::In { mods, .. } => has_any(mods),
        _ => false,
    }
}

fn lender_fails(fault: LenderFault, one: &Standing) -> bool
    ensures { result ≡ lender_fails fault (shown_standing one.now) }
{
    match fault {
        LenderFault::NoTarget => !lends(one.resolved.holding, &one.element.kind),
        LenderFault::Modified => is_modified_in(&one.element.kind),
    }
}

ghost use Rattle.plcx_link.specs.Bodies.{shown_standing};

fn fails_at(body: &ScopedBody, fault: LenderFault, place: Option<usize>) -> bool
    ensures { result ≡ fails_at fault (option_and_then (λ n. option_map (standing body.now.pous body.now.owner) (slice_get body.now.owner.body.elements n)) place) }
{
    match place {
        None => false,
        Some(place) => match body.standing(place) {
            None => false,
            Some(one) => lender_fails(fault, &one),
        },
    }
}

fn connection_fails(body: &ScopedBody, fault: LenderFault, connection: &Connection) -> bool
    ensures { result ≡ connection_by body.now fault connection.now }
{
    fails_at(body, fault, body.places().place_of_id(connection.element))
}

ghost use Rattle.plcx_link.specs.Expressions.{connection_by};

fn any_connection_fails(body: &ScopedBody, fault: LenderFault, pin: &[Connection]) -> bool
    ensures { result ≡ list_any (connection_by body.now fault) pin.now }
{
    pin.iter().any(|one| connection_fails(body, fault, one))
}

/// Whether an element that an in-out pin is wired to has that fault.
fn any_lender_fails(body: &ScopedBody, fault: LenderFault, in_outs: &[PinIn]) -> bool
    ensures { result ≡ any_lender_by body.now fault in_outs.now }
{
    in_outs.iter().any(|pin| any_connection_fails(body, fault, pin.input.as_slice()))
}

/// Whether a target can't be written, or an in-out has no variable that can be.
pub fn breaks_target(body: &ScopedBody, holding: Holding, kind: &Kind) -> bool
    ensures { result ≡ target_by body.now holding kind.now }
{
    match kind {
        Kind::Coil { .. } | Kind::Out { .. } => !holding.target,
        Kind::Block { in_outs, .. } => {
            any_lender_fails(body, LenderFault::NoTarget, in_outs.as_slice())
        }
        _ => false,
    }
}

fn is_more_modified(pin: &PinIn) -> bool
    ensures { result ≡ (not (is_absent pin.now) && has_more pin.now.mods) }
{
    !is_absent(pin) && has_more(&pin.mods)
}

fn any_input_modified(pins: &[PinIn]) -> bool
    ensures { result ≡ list_any (λ (p : PinIn). not (is_absent p) && has_more p.mods) pins.now }
{
    pins.iter().any(|pin| is_more_modified(pin))
}

fn any_output_modified(pins: &[PinOut]) -> bool
    ensures { result ≡ list_any (λ (o : PinOut). has_more o.mods) pins.now }
{
    pins.iter().any(|pin| has_more(&pin.mods))
}

fn any_in_out_modified(pins: &[PinIn]) -> bool
    ensures { result ≡ list_any (λ (p : PinIn). has_any p.mods) pins.now }
{
    pins.iter().any(|pin| has_any(&pin.mods))
}

fn any_pin_modified(inputs: &[PinIn], in_outs: &[PinIn], outputs: &[PinOut]) -> bool
    ensures { result ≡ pins_modified inputs.now in_outs.now outputs.now }
{
    any_input_modified(inputs) || any_output_modified(outputs) || any_in_out_modified(in_outs)
}

ghost use Rattle.plcx_link.specs.Expressions.{pins_modified};

/// Whether modifiers aren't allowed together or there.
pub fn breaks_modifiers(body: &ScopedBody, kind: &Kind) -> bool
    ensures { result ≡ modifiers_by body.now kind.now }
{
    match kind {
        Kind::Contact { mods, .. } => {
            is_stored(mods.storage) || (mods.negated && is_edge(mods.edge))
        }
        Kind::Coil { mods, .. } => {
            (mods.negated && has_more(mods)) || (is_edge(mods.edge) && is_stored(mods.storage))
        }
        Kind::In { mods, .. } => has_more(mods),
        Kind::Out { mods, .. } => {
            is_edge(mods.edge) || (mods.negated && is_stored(mods.storage))
        }
        Kind::Block {
            inputs,
            in_outs,
            outputs,
            ..
        } => {
            any_pin_modified(inputs.as_slice(), in_outs.as_slice(), outputs.as_slice())
                || any_lender_fails(body, LenderFault::Modified, in_outs.as_slice())
        }
        _ => false,
    }
}

/// Whether an element is a rail, contact or coil.
#[tactic(auto, unfolding(plcx_rules::specs::LinkRules::is_of_ladder))]
pub fn is_of_ladder(kind: &Kind) -> bool
    ensures { result ≡ is_of_ladder kind.now }
{
    match kind {
        Kind::LeftRail | Kind::RightRail { .. } | Kind::Contact { .. } | Kind::Coil { .. } => true,
        _ => false,
    }
}

//! The rule on formal parameters.
ghost use Rattle.std.specs.Prelude.{◌≡◌, ◌&&◌, ◌||◌, ◌≤◌, ◌<◌, ◌+◌, Some, None, not, is_none, map, drop, length, IfOk};
ghost use Rattle.std.specs.List.{list_any, filter};
ghost use Rattle.plcx_funcs.specs.Pins.{can_have};
ghost use Rattle.plcx_model.specs.declared.body.PinIn.{PinIn};
ghost use Rattle.plcx_model.specs.declared.body.PinOut.{PinOut};
ghost use Rattle.plcx_rules.specs.Texts.{same_name};
ghost use Rattle.plcx_rules.specs.Callees.{Formal, is_absent, present, input_count, formal_named, in_outs_of, is_function};
ghost use Rattle.plcx_rules.specs.LinkRules.{names_of, has_double, count_suits, is_listed, inputs_fail, in_outs_fail, outputs_fail, formals_fail};
ghost use Rattle.plcx_link.specs.Blocks.{formals_by};
ghost use Rattle.plcx_link.specs.Sides.{formals_on, side_fails, missing};
ghost use Rattle.plcx_link.specs.Outputs.{is_only, output_name_by};

use crate::sources::{is_only, output_name};
use plcx_funcs::{Class, signature};
use plcx_model::{Kind, PinIn, PinOut};
use plcx_names::{
    OwnPin, Scope, input_count, is_connected, is_enable, is_function, narrow, same_name,
};
use plcx_rules::Callee;
use std::alloc::{AllocError, Global};

/// A side of a block: its inputs, of which it lists so many beside EN, its in-outs, and its outputs.
#[derive(Clone, Copy, Debug, PartialEq, Eq)]
pub enum Side {
    Inputs(usize),
    InOuts,
    Outputs,
}

/// Whether a pin is an EN without a connection, which counts as absent.
pub fn is_absent(pin: &PinIn) -> bool
    ensures { result ≡ is_absent pin.now }
{
    is_enable(pin) && !is_connected(pin)
}

/// The names of the input pins that count.
fn present_names<'a>(alloc: Global, inputs: &'a [PinIn]) -> Result<Vec<&'a [u8]>, AllocError>
    ensures { IfOk result (λ names. map (λ n. n.now) names.items ≡ names_of (present inputs.now)) }
{
    let mut names = Vec::new(alloc);
    for pin in inputs {
        if !is_absent(pin) {
            names.push(pin.formal.as_slice())?;
        }
    }
    Ok(names)
}

/// The names of all pins.
fn names_of<'a>(alloc: Global, pins: &'a [PinIn]) -> Result<Vec<&'a [u8]>, AllocError>
    ensures { IfOk result (λ names. map (λ n. n.now) names.items ≡ names_of pins.now) }
{
    let mut names = Vec::new(alloc);
    for pin in pins {
        names.push(pin.formal.as_slice())?;
    }
    Ok(names)
}

/// The names that the outputs stand for.
fn output_names<'a>(
    alloc: Global,
    function: bool,
    outputs: &'a [PinOut],
) -> Result<Vec<&'a [u8]>, AllocError>
    ensures { IfOk result (λ names. map (λ n. n.now) names.items ≡ map (output_name_by function (is_only outputs.now)) outputs.now) }
{
    let only = is_only(outputs);
    let mut names = Vec::new(alloc);
    for output in outputs {
        names.push(output_name(function, only, output))?;
    }
    Ok(names)
}

fn is_among(name: &[u8], names: &[&[u8]]) -> bool
    ensures { result ≡ list_any (λ n. same_name name.now n.now) names.now }
{
    names.iter().any(|other| same_name(name, other))
}

/// Whether the name at a place stands behind it too.
fn stands_behind(names: &[&[u8]], place: usize) -> bool
    ensures { result ≡ twice_at (drop place names.now) }
{
    match names.get(place) {
        None => false,
        Some(name) => is_among(name, &names[place + 1..]),
    }
}

ghost use Rattle.plcx_link.specs.Sides.{twice_at};

/// Whether a name stands twice.
fn has_double(names: &[&[u8]]) -> bool
    ensures { result ≡ has_double (map (λ n. n.now) names.now) }
{
    for place in 0..names.len() {
        if stands_behind(names, place) {
            return true;
        }
    }
    false
}

/// What is known of the formal parameter of a name, if there is one.
fn class_on(
    alloc: Global,
    scope: &Scope,
    callee: Callee,
    side: Side,
    name: &[u8],
) -> Result<Option<Class>, AllocError>
    ensures { IfOk result (λ class. is_none class ≡ is_none (formal_named name.now (formals_on scope.now callee side))) }
{
    match side {
        Side::Inputs(count) => Ok(scope.input_class(alloc, callee, count, name)?),
        Side::InOuts => Ok(scope.in_out_class(alloc, callee, name)?),
        Side::Outputs => Ok(scope.output_class(alloc, callee, name)?),
    }
}

/// Whether one of the names is unknown.
fn any_unknown(
    alloc: Global,
    scope: &Scope,
    callee: Callee,
    side: Side,
    names: &[&[u8]],
) -> Result<bool, AllocError>
    ensures { IfOk result (λ b. b ≡ list_any (λ n. is_none (formal_named n (formals_on scope.now callee side))) (map (λ n. n.now) names.now)) }
{
    for name in names {
        if class_on(alloc, scope, callee, side, name)?.is_none() {
            return Ok(true);
        }
    }
    Ok(false)
}

/// Whether one of the names is unknown or stands twice.
fn side_fails(
    alloc: Global,
    scope: &Scope,
    callee: Callee,
    side: Side,
    names: &[&[u8]],
) -> Result<bool, AllocError>
    ensures { IfOk result (λ b. b ≡ side_fails scope.now callee side (map (λ n. n.now) names.now)) }
{
    Ok(any_unknown(alloc, scope, callee, side, names)? || has_double(names))
}

/// Whether a block of that callee can list so many inputs.
fn count_suits(callee: Callee, count: usize) -> Result<bool, AllocError>
    ensures { IfOk result (λ b. b ≡ count_suits callee count) }
{
    match callee {
        Callee::Function(func) => Ok(signature(func, narrow(count)?).is_some()),
        Callee::Standard(_) | Callee::Block(_) => Ok(true),
    }
}

#[tactic(auto, using(crate::proofs::SideNames::inputs_are), unfolding(plcx_rules::specs::LinkRules::inputs_fail))]
fn inputs_fail(
    alloc: Global,
    scope: &Scope,
    callee: Callee,
    inputs: &[PinIn],
) -> Result<bool, AllocError>
    ensures { IfOk result (λ b. b ≡ inputs_fail scope.now callee inputs.now) }
{
    let count = input_count(inputs);
    if !count_suits(callee, count)? {
        return Ok(true);
    }
    let names = present_names(alloc, inputs)?;
    Ok(side_fails(alloc, scope, callee, Side::Inputs(count), &names)?)
}

fn is_listed(in_outs: &[PinIn], name: &[u8]) -> bool
    ensures { result ≡ list_any (λ (p : PinIn). same_name name.now p.formal) in_outs.now }
{
    in_outs
        .iter()
        .any(|pin| same_name(name, pin.formal.as_slice()))
}

fn any_missing(in_outs: &[PinIn], own: &[OwnPin]) -> bool
    ensures { result ≡ list_any (λ (p : OwnPin). not (list_any (λ (q : PinIn). same_name (shown_pin p).name q.formal) in_outs.now)) own.now }
{
    own.iter().any(|pin| !is_listed(in_outs, pin.name))
}

ghost use Rattle.plcx_names.specs.declared.pins.OwnPin.{OwnPin};
ghost use Rattle.plcx_names.specs.Seen.{shown_pin};

/// Whether an in-out of the function block at a place isn't listed.
fn block_missing(scope: &Scope, place: u32, in_outs: &[PinIn]) -> bool
    ensures { result ≡ block_missing scope.now place in_outs.now }
{
    match scope.owner(place as usize) {
        None => false,
        Some(owner) => any_missing(in_outs, owner.in_outs()),
    }
}

ghost use Rattle.plcx_link.specs.Sides.{block_missing};

/// Whether an in-out of the callee isn't listed.
#[tactic(auto, unfolding(plcx_rules::specs::Callees::in_outs_of))]
fn missing(scope: &Scope, callee: Callee, in_outs: &[PinIn]) -> bool
    ensures { result ≡ missing scope.now callee in_outs.now }
{
    match callee {
        Callee::Function(_) | Callee::Standard(_) => false,
        Callee::Block(place) => block_missing(scope, place, in_outs),
    }
}

#[tactic(auto, using(crate::proofs::SideNames::in_outs_are), unfolding(plcx_rules::specs::LinkRules::in_outs_fail))]
fn in_outs_fail(
    alloc: Global,
    scope: &Scope,
    callee: Callee,
    in_outs: &[PinIn],
) -> Result<bool, AllocError>
    ensures { IfOk result (λ b. b ≡ in_outs_fail scope.now callee in_outs.now) }
{
    let names = names_of(alloc, in_outs)?;
    Ok(side_fails(alloc, scope, callee, Side::InOuts, &names)? || missing(scope, callee, in_outs))
}

#[tactic(auto, using(crate::proofs::SideNames::outputs_are), unfolding(plcx_rules::specs::LinkRules::outputs_fail))]
fn outputs_fail(
    alloc: Global,
    scope: &Scope,
    callee: Callee,
    outputs: &[PinOut],
) -> Result<bool, AllocError>
    ensures { IfOk result (λ b. b ≡ outputs_fail scope.now callee outputs.now) }
{
    let names = output_names(alloc, is_function(callee), outputs)?;
    Ok(side_fails(alloc, scope, callee, Side::Outputs, &names)?)
}

fn any_side_fails(
    alloc: Global,
    scope: &Scope,
    callee: Callee,
    inputs: &[PinIn],
    in_outs: &[PinIn],
    outputs: &[PinOut],
) -> Result<bool, AllocError>
    ensures { IfOk result (λ b. b ≡ formals_fail scope.now (Some callee) inputs.now in_outs.now outputs.now) }
{
    Ok(
        inputs_fail(alloc, scope, callee, inputs)?
            || in_outs_fail(alloc, scope, callee, in_outs)?
            || outputs_fail(alloc, scope, callee, outputs)?,
    )
}

/// Whether a formal parameter of a block is unknown, doubled or missing.
pub fn breaks_formals(
    alloc: Global,
    scope: &Scope,
    callee: Option<Callee>,
    kind: &Kind,
) -> Result<bool, AllocError>
    ensures { IfOk result (λ b. b ≡ formals_by scope.now callee kind.now) }
{
    match (callee, kind) {
        (
            Some(callee),
            Kind::Block {
                inputs,
                in_outs,
                outputs,
                ..
            },
        ) => Ok(any_side_fails(
            alloc,
            scope,
            callee,
            inputs.as_slice(),
            in_outs.as_slice(),
            outputs.as_slice(),
        )?),
        _ => Ok(false),
    }
}

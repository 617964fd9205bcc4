//! The rules on what blocks are of, on their instances, and on inputs without a source.
ghost use Rattle.std.specs.Prelude.{◌≡◌, ◌&&◌, ◌||◌, Some, None, not, is_none, is_some, nat_eq, length, map, option_map, IfOk};
ghost use Rattle.std.specs.List.{list_any};
ghost use Rattle.plcx_types.specs.Name.{in_lower_case};
ghost use Rattle.plcx_model.specs.declared.body.PinIn.{PinIn};
ghost use Rattle.plcx_rules.specs.Declarations.{kind_place, same_kind, declaration_named};
ghost use Rattle.plcx_rules.specs.Callees.{is_instance_of};
ghost use Rattle.plcx_rules.specs.LinkRules.{is_unconnected, has_one, lacks_source, has_no_callee, leads_to, instance_suits, instance_fails, breaks_instance};
ghost use Rattle.plcx_link.specs.Bodies.{callee_in};
ghost use Rattle.plcx_link.specs.Blocks.{lacks_by, leads_by};
ghost use Rattle.plcx_names.specs.Seen.{declared_as};

use crate::sources::calls_function;
use plcx_model::{Kind, PinIn, VarTy};
use plcx_names::{Declared, Owner, in_lower_case, is_connected, is_enable};
use plcx_rules::Callee;
use plcx_std::StdKind;
use sqlite_items::Items;
use std::alloc::{AllocError, Global};

fn is_unconnected(pin: &PinIn) -> bool
    ensures { result ≡ is_unconnected pin.now }
{
    !is_enable(pin) && !is_connected(pin)
}

fn any_unconnected(pins: &[PinIn]) -> bool
    ensures { result ≡ list_any is_unconnected pins.now }
{
    pins.iter().any(is_unconnected)
}

fn has_several_or_none(pin: &PinIn) -> bool
    ensures { result ≡ not (has_one pin.now) }
{
    pin.input.len() != 1
}

fn any_not_one(pins: &[PinIn]) -> bool
    ensures { result ≡ list_any (λ (p : PinIn). not (has_one p)) pins.now }
{
    pins.iter().any(|pin| has_several_or_none(pin))
}

/// Whether an input that takes a connection has none, or an in-out pin not exactly one.
pub fn lacks_source(function: bool, kind: &Kind) -> bool
    ensures { result ≡ lacks_by function kind.now }
{
    match kind {
        Kind::Contact { input, .. }
        | Kind::Coil { input, .. }
        | Kind::Out { input, .. }
        | Kind::Connector { input, .. }
        | Kind::Jump { input, .. }
        | Kind::Return { input } => input.len() == 0,
        Kind::Block {
            inputs,
            in_outs,
            ..
        } => { (function && any_unconnected(inputs.as_slice())) || any_not_one(in_outs.as_slice()) }
        Kind::Skipped
        | Kind::LeftRail
        | Kind::RightRail { .. }
        | Kind::In { .. }
        | Kind::Continuation { .. }
        | Kind::Label { .. } => false,
    }
}

/// Whether a block's type is unknown.
pub fn has_no_callee(callee: Option<Callee>, kind: &Kind) -> bool
    ensures { result ≡ no_callee_by callee kind.now }
{
    match kind {
        Kind::Block { .. } => callee.is_none(),
        _ => false,
    }
}

ghost use Rattle.plcx_link.specs.Blocks.{no_callee_by, instance_by};

fn kind_place(kind: StdKind) -> u8
    ensures { result ≡ kind_place kind }
{
    match kind {
        StdKind::Ton => 0,
        StdKind::Tof => 1,
        StdKind::Tp => 2,
        StdKind::Ctu => 3,
        StdKind::Ctd => 4,
        StdKind::Ctud => 5,
        StdKind::Sr => 6,
        StdKind::Rs => 7,
        StdKind::RTrig => 8,
        StdKind::FTrig => 9,
    }
}

fn same_kind(left: StdKind, right: StdKind) -> bool
    ensures { result ≡ same_kind left right }
{
    kind_place(left) == kind_place(right)
}

#[tactic(auto, unfolding(plcx_rules::specs::Callees::is_instance_of))]
fn is_instance_of(callee: Callee, ty: VarTy) -> bool
    ensures { result ≡ is_instance_of callee ty }
{
    match (callee, ty) {
        (Callee::Standard(kind), VarTy::Std(own)) => same_kind(kind, own),
        (Callee::Block(place), VarTy::Block(own)) => place == own,
        _ => false,
    }
}

fn leads_to(callee: Callee, one: Option<Declared>) -> bool
    ensures { result ≡ leads_by callee one }
{
    match one {
        None => false,
        Some(one) => is_instance_of(callee, one.ty),
    }
}

fn names_instance(
    alloc: Global,
    owner: &Owner,
    callee: Callee,
    name: &[u8],
) -> Result<bool, AllocError>
    ensures { IfOk result (λ b. b ≡ leads_by callee (declared_as owner.now (in_lower_case name.now))) }
{
    let key = in_lower_case(alloc, name)?;
    Ok(leads_to(callee, owner.variable(key.as_slice())))
}

fn block_suits(
    alloc: Global,
    owner: &Owner,
    callee: Callee,
    instance: &Option<Items<u8>>,
) -> Result<bool, AllocError>
    ensures { IfOk result (λ b. b ≡ named_by owner.now callee instance.now) }
{
    match instance {
        None => Ok(false),
        Some(name) => Ok(names_instance(alloc, owner, callee, name.as_slice())?),
    }
}

ghost use Rattle.plcx_link.specs.Blocks.{named_by, suits_by};

/// Whether a function has no instance, and a function block one of its type.
fn instance_suits(
    alloc: Global,
    owner: &Owner,
    callee: Callee,
    instance: &Option<Items<u8>>,
) -> Result<bool, AllocError>
    ensures { IfOk result (λ b. b ≡ suits_by owner.now callee instance.now) }
{
    match callee {
        Callee::Function(_) => Ok(instance.is_none()),
        Callee::Standard(_) | Callee::Block(_) => {
            Ok(block_suits(alloc, owner, callee, instance)?)
        }
    }
}

/// Whether a block's instance doesn't suit what it calls.
pub fn breaks_instance(
    alloc: Global,
    owner: &Owner,
    callee: Option<Callee>,
    kind: &Kind,
) -> Result<bool, AllocError>
    ensures { IfOk result (λ b. b ≡ instance_by owner.now callee kind.now) }
{
    match (callee, kind) {
        (Some(callee), Kind::Block { instance, .. }) => {
            Ok(!instance_suits(alloc, owner, callee, instance)?)
        }
        _ => Ok(false),
    }
}

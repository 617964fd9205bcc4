//! The rules from 20 to 33, each on an element of a body.
ghost use Rattle.std.specs.Prelude.{◌≡◌, ◌&&◌, ℕ, not, option_map, slice_get, IfOk};
ghost use Rattle.plcx_rules.specs.LinkRules.{breaks, is_of_ladder};
ghost use Rattle.plcx_link.specs.Bodies.{shown_standing};
ghost use Rattle.plcx_link.specs.Breaking.{breaks_by, broken_there};

use crate::blocks::{breaks_instance, has_no_callee, lacks_source};
use crate::body::{ScopedBody, Standing};
use crate::expressions::{breaks_expression, breaks_modifiers, breaks_target, is_of_ladder};
use crate::formals::breaks_formals;
use crate::references::{PinFault, any_pin_fails, breaks_connector, breaks_label, doubles_id};
use crate::sources::calls_function;
use plcx_rules::LinkRule;
use std::alloc::{AllocError, Global};

/// Whether an element, which stands at that place of the body, breaks a rule.
fn breaks(
    alloc: Global,
    body: &ScopedBody,
    rule: LinkRule,
    place: usize,
    one: &Standing,
) -> Result<bool, AllocError>
    ensures { IfOk result (λ b. b ≡ breaks_by body.now rule place (shown_standing one.now)) }
{
    let kind = &one.element.kind;
    let callee = one.resolved.callee;
    let holding = one.resolved.holding;
    let ladder = body.owner().pou().body.ladder;
    match rule {
        LinkRule::LocalIds => Ok(doubles_id(body, place, one.element)),
        LinkRule::References => Ok(any_pin_fails(body, PinFault::NoElement, kind)),
        LinkRule::Outputs => Ok(any_pin_fails(body, PinFault::NoOutput, kind)),
        LinkRule::Several => Ok(!ladder && any_pin_fails(body, PinFault::Several, kind)),
        LinkRule::Missing => Ok(lacks_source(calls_function(callee), kind)),
        LinkRule::BlockTypes => Ok(has_no_callee(callee, kind)),
        LinkRule::Instances => Ok(breaks_instance(alloc, body.owner(), callee, kind)?),
        LinkRule::Formals => Ok(breaks_formals(alloc, body.scope(), callee, kind)?),
        LinkRule::Expressions => Ok(breaks_expression(holding, kind)),
        LinkRule::Targets => Ok(breaks_target(body, holding, kind)),
        LinkRule::Connectors => Ok(breaks_connector(alloc, body, place, kind)?),
        LinkRule::Labels => Ok(breaks_label(alloc, body, place, kind)?),
        LinkRule::Modifiers => Ok(breaks_modifiers(body, kind)),
        LinkRule::Ladders => Ok(!ladder && is_of_ladder(kind)),
    }
}

/// The localId of the element at a place of a body, if it breaks a rule.
pub fn broken_at(
    alloc: Global,
    body: &ScopedBody,
    rule: LinkRule,
    place: usize,
) -> Result<Option<u64>, AllocError>
    ensures { IfOk result (λ id. (pou : ℕ) → id ≡ broken_there body.now.pous rule pou body.now.owner place (slice_get body.now.owner.body.elements place)) }
{
    match body.standing(place) {
        None => Ok(None),
        Some(one) => {
            if breaks(alloc, body, rule, place, &one)? {
                Ok(Some(one.element.local_id))
            } else {
                Ok(None)
            }
        }
    }
}

//! The first rule that the bodies of a project break.
ghost use Rattle.std.specs.Prelude.{◌≡◌, ℕ, List, option_map, IfOk};
ghost use Rattle.std.specs.List.{find};
ghost use Rattle.plcx_model.specs.Verdict.{Verdict};
ghost use Rattle.plcx_model.specs.declared.project.Pou.{Pou};
ghost use Rattle.plcx_rules.specs.Items.{items_of};
ghost use Rattle.plcx_rules.specs.LinkRules.{breaks, BreaksLink, link_place, link_rules};
ghost use Rattle.plcx_link.specs.Judged.{shown_place, shown_broken, bodies_of, first_from, place_in};

use crate::body::ScopedBody;
use crate::rules::broken_at;
use plcx_rules::LinkRule;
use plcx_types::Ident;
use std::alloc::{AllocError, Global};

/// The rules, as they are tested.
pub const ORDER: [LinkRule; 14] = [
    LinkRule::LocalIds,
    LinkRule::References,
    LinkRule::Outputs,
    LinkRule::Several,
    LinkRule::Missing,
    LinkRule::BlockTypes,
    LinkRule::Instances,
    LinkRule::Formals,
    LinkRule::Expressions,
    LinkRule::Targets,
    LinkRule::Connectors,
    LinkRule::Labels,
    LinkRule::Modifiers,
    LinkRule::Ladders,
];

/// An element of a POU's body, by the POU's name and the element's localId.
#[derive(Clone, Copy)]
pub struct ElementPlace<'a> {
    pub pou: &'a Ident,
    pub local_id: u64,
}

/// The localId of the first element of a body that breaks a rule.
fn first_in_body(
    alloc: Global,
    body: &ScopedBody,
    rule: LinkRule,
) -> Result<Option<u64>, AllocError>
    ensures { IfOk result (λ id. (pou : ℕ) → id ≡ first_from body.now rule pou 0) }
{
    for place in 0..body.elements().len() {
        match broken_at(alloc, body, rule, place)? {
            Some(id) => return Ok(Some(id)),
            None => {}
        }
    }
    Ok(None)
}

/// The first element of a body that breaks a rule.
fn first_place<'b>(
    alloc: Global,
    body: &'b ScopedBody,
    rule: LinkRule,
) -> Result<Option<ElementPlace<'b>>, AllocError>
    ensures { IfOk result (λ found. (pou : ℕ) → option_map shown_place found ≡ place_in body.now rule pou) }
{
    match first_in_body(alloc, body, rule)? {
        None => Ok(None),
        Some(local_id) => Ok(Some(ElementPlace {
            pou: &body.owner().pou().name,
            local_id,
        })),
    }
}

/// The first element of all bodies that breaks a rule.
fn first_breaking<'b>(
    alloc: Global,
    bodies: &'b [ScopedBody],
    rule: LinkRule,
) -> Result<Option<ElementPlace<'b>>, AllocError>
    ensures { IfOk result (λ found. (pous : List Pou) → bodies.now ≡ bodies_of pous pous → option_map shown_place found ≡ option_map (link_place rule) (find (breaks pous rule) (items_of pous))) }
{
    for body in bodies {
        match first_place(alloc, body, rule)? {
            Some(found) => return Ok(Some(found)),
            None => {}
        }
    }
    Ok(None)
}

/// The first of these rules that is broken, and where.
fn first_broken<'b>(
    alloc: Global,
    bodies: &'b [ScopedBody],
    order: &[LinkRule],
) -> Result<Option<(LinkRule, ElementPlace<'b>)>, AllocError>
    ensures { IfOk result (λ v. (pous : List Pou) → bodies.now ≡ bodies_of pous pous → Verdict (BreaksLink pous) link_place (items_of pous) order.now (option_map shown_broken v)) }
{
    for rule in order {
        match first_breaking(alloc, bodies, *rule)? {
            Some(place) => return Ok(Some((*rule, place))),
            None => {}
        }
    }
    Ok(None)
}

/// The first rule that the bodies of a project break, and the element that breaks it first.
pub fn verdict<'b>(
    alloc: Global,
    bodies: &'b [ScopedBody],
) -> Result<Option<(LinkRule, ElementPlace<'b>)>, AllocError>
    ensures { IfOk result (λ v. (pous : List Pou) → bodies.now ≡ bodies_of pous pous → Verdict (BreaksLink pous) link_place (items_of pous) link_rules (option_map shown_broken v)) }
{
    Ok(first_broken(alloc, bodies, &ORDER)?)
}

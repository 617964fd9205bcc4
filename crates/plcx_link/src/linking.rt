//! The links of a project, or the first rule that it breaks.
ghost use Rattle.std.specs.Prelude.{◌≡◌, IfOk, MatchResult};
ghost use Rattle.plcx_model.specs.declared.project.Project.{Project};
ghost use Rattle.plcx_rules.specs.CheckVerdict.{broken_at};
ghost use Rattle.plcx_rules.specs.LinkRules.{number};
ghost use Rattle.plcx_link.specs.Judged.{bodies_of, shown_place};
ghost use Rattle.plcx_link.specs.Linked.{IsLinked, Refuses};

use crate::body::ScopedBody;
use crate::error::LinkError;
use crate::judging::{ElementPlace, verdict};
use crate::sources::sources_of;
use plcx_model::{Broken, Links, Place, Project, Rule};
use plcx_names::{Owner, Scope};
use plcx_rules::LinkRule;
use plcx_types::NoMemory;
use std::alloc::{AllocError, Global};

fn bodies_of<'b>(
    alloc: Global,
    scope: &'b Scope<'b>,
    owners: &'b [Owner<'b>],
) -> Result<Vec<ScopedBody<'b>>, AllocError>
    ensures { IfOk result (λ bodies. bodies.items ≡ bodies_of scope.now owners.now) }
{
    let mut bodies = Vec::new(alloc);
    for owner in owners {
        bodies.push(ScopedBody::of(alloc, scope, owner)?)?;
    }
    Ok(bodies)
}

/// A broken rule, with a copy of the POU's name.
fn broken_at(alloc: Global, rule: LinkRule, place: &ElementPlace) -> Result<Broken, NoMemory>
    ensures { IfOk result (λ b. b ≡ broken_at (number rule) (shown_place place.now)) }
{
    let pou = place.pou.copy(alloc)?;
    let local_id = place.local_id;
    Ok(Broken {
        rule: Rule(rule.number()),
        place: Place::Element { pou, local_id },
    })
}

/// The links of a project of these bodies, or the first rule that it breaks.
fn linked(alloc: Global, bodies: &[ScopedBody]) -> Result<Links, LinkError>
    ensures { (project : Project) → bodies.now ≡ bodies_of project.pous project.pous → MatchResult result (IsLinked project) (Refuses project) }
{
    match verdict(alloc, bodies)? {
        Some((rule, place)) => Err(LinkError::Broken(broken_at(alloc, rule, &place)?)),
        None => Ok(Links {
            bodies: sources_of(alloc, bodies)?,
        }),
    }
}

/// The links of a project of these POUs, or the first rule that it breaks.
fn linked_in(alloc: Global, scope: &Scope) -> Result<Links, LinkError>
    ensures { (project : Project) → scope.now ≡ project.pous → MatchResult result (IsLinked project) (Refuses project) }
{
    let bodies = bodies_of(alloc, scope, scope.owners())?;
    Ok(linked(alloc, &bodies)?)
}

/// The sources of each input pin of each body, or the first rule from 20 to 33 that the project breaks, and the first
/// element that breaks it.
pub fn link(alloc: Global, project: &Project) -> Result<Links, LinkError>
    ensures { MatchResult result (IsLinked project.now) (Refuses project.now) }
{
    let scope = Scope::of(alloc, project.pous())?;
    Ok(linked_in(alloc, &scope)?)
}

//! The types of a project, or the first rule from 34 to 36 that it breaks.
ghost use Rattle.std.specs.Prelude.{◌≡◌, ◌<◌, ℕ, Some, None, [], length, get_or, slice_get, map, IfOk, IfSome, IfNone, MatchResult};
ghost use Rattle.plcx_model.specs.declared.broken.Place.TheVariants.{Element};
ghost use Rattle.plcx_model.specs.declared.body.BodyElement.{BodyElement};
ghost use Rattle.plcx_model.specs.declared.project.Pou.{Pou};
ghost use Rattle.plcx_rules.specs.declared.form.TypeRule.{TypeRule};
ghost use Rattle.plcx_rules.specs.TypingRules.{TypingVerdict};
ghost use Rattle.plcx_rules.specs.Typed.{HaveTypes};
ghost use Rattle.plcx_typing.specs.Judgings.{flags_of, AreJudged, IsFirstFlag, NoFlag, IsSpot, NoSpot, IsFirstFault, judged_at};
ghost use Rattle.plcx_typing.specs.Answers.{RefusesTypes, GivesTypes};

use crate::body::{Judged, judge};
use crate::error::TypingError;
use plcx_model::{Broken, Links, Place, Pou, Project, Rule, Source, Types};
use plcx_names::Scope;
use plcx_rules::TypeRule;
use plcx_types::NoMemory;
use sqlite_items::Items;
use std::alloc::Global;

fn flags_of(rule: TypeRule, judged: &Judged) -> &[bool]
    ensures { result.now ≡ flags_of rule judged.now }
{
    match rule {
        TypeRule::NoType => judged.untyped.as_slice(),
        TypeRule::Disagreement => judged.disagreeing.as_slice(),
        TypeRule::Range => judged.outside.as_slice(),
    }
}

fn first_flag(flags: &[bool]) -> Option<usize>
    ensures some { IfSome result (IsFirstFlag flags.now) }
    ensures none { IfNone result (NoFlag flags.now) }
{
    for place in 0..flags.len() {
        if flags[place] {
            return Some(place);
        }
    }
    None
}

/// The first POU and element that break a rule.
fn first_spot(rule: TypeRule, judged: &[Judged]) -> Option<(usize, usize)>
    ensures some { IfSome result (IsSpot rule judged.now) }
    ensures none { IfNone result (NoSpot rule judged.now) }
{
    for pou in 0..judged.len() {
        if let Some(element) = first_flag(flags_of(rule, &judged[pou])) {
            return Some((pou, element));
        }
    }
    None
}

/// The first rule that is broken, with the first POU and element that break it.
fn first_fault(judged: &[Judged]) -> Option<(TypeRule, usize, usize)>
    ensures some { IfSome result (IsFirstFault judged.now) }
    ensures none { IfNone result ((r : TypeRule) → NoSpot r judged.now) }
{
    if let Some((pou, element)) = first_spot(TypeRule::NoType, judged) {
        return Some((TypeRule::NoType, pou, element));
    }
    if let Some((pou, element)) = first_spot(TypeRule::Disagreement, judged) {
        return Some((TypeRule::Disagreement, pou, element));
    }
    if let Some((pou, element)) = first_spot(TypeRule::Range, judged) {
        return Some((TypeRule::Range, pou, element));
    }
    None
}

/// The place of an element.
fn place_at(alloc: Global, pous: &[Pou], pou: usize, element: usize) -> Result<Place, NoMemory>
    requires pou { pou < length pous.now }
    requires element { (p : Pou) → slice_get pous.now pou ≡ Some p → element < length p.body.elements }
    ensures { IfOk result (λ place. (p : Pou) (x : BodyElement) → slice_get pous.now pou ≡ Some p → slice_get p.body.elements element ≡ Some x → place ≡ Element p.name x.local_id) }
{
    let owner = &pous[pou];
    let local_id = owner.body.elements()[element].local_id;
    let pou = owner.name.copy(alloc)?;
    Ok(Place::Element { pou, local_id })
}

/// The links of the body at a place.
fn links_at(links: &[Items<Items<Source>>], pou: usize) -> &[Items<Source>]
    ensures { result.now ≡ get_or links.now pou [] }
{
    match links.get(pou) {
        Some(pins) => pins.as_slice(),
        None => &[],
    }
}

/// What is found of each body.
fn judge_all(
    alloc: Global,
    scope: &Scope,
    pous: &[Pou],
    links: &[Items<Items<Source>>],
) -> Result<Vec<Judged>, NoMemory>
    requires { scope.now ≡ pous.now }
    ensures { IfOk result (λ judged. AreJudged pous.now links.now judged.items) }
{
    let owners = scope.owners();
    let mut judged = Vec::new(alloc);
    for pou in 0..owners.len() {
        let owner = &owners[pou];
        let elements = owner.pou().body.elements();
        judged.push(judge(alloc, scope, owner, elements, links_at(links, pou))?)?;
    }
    Ok(judged)
}

/// The types of all bodies.
fn types_of(alloc: Global, judged: Vec<Judged>) -> Result<Types, NoMemory>
    ensures inputs { IfOk result (λ types. types.inputs ≡ map (λ (j : Judged). j.inputs) judged.items) }
    ensures wires { IfOk result (λ types. types.wires ≡ map (λ (j : Judged). j.wires) judged.items) }
{
    let mut inputs = Vec::new(alloc);
    let mut wires = Vec::new(alloc);
    for one in judged {
        inputs.push(one.inputs)?;
        wires.push(one.wires)?;
    }
    Ok(Types {
        inputs: Items::from_vec(inputs),
        wires: Items::from_vec(wires),
    })
}

/// The types of a project with these links, of its input pins and of its wires. Links may be any.
pub fn typing(alloc: Global, project: &Project, links: &Links) -> Result<Types, TypingError>
    ensures { MatchResult result (GivesTypes project.now links.now.bodies) (RefusesTypes project.now links.now.bodies) }
{
    let scope = Scope::of(alloc, project.pous())?;
    let judged = judge_all(alloc, &scope, project.pous(), links.bodies())?;
    match first_fault(&judged) {
        Some((rule, pou, element)) => Err(TypingError::Broken(Broken {
            rule: Rule(rule.number()),
            place: place_at(alloc, project.pous(), pou, element)?,
        })),
        None => Ok(types_of(alloc, judged)?),
    }
}

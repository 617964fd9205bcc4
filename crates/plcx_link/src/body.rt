//! A body with its names in tables, and with what its blocks call and its expressions hold.
ghost use Rattle.std.specs.Prelude.{◌≡◌, ◌++◌, Some, None, map, option_map, slice_get, is_some, IfOk};
ghost use Rattle.plcx_rules.specs.Callees.{names_function};
ghost use Rattle.plcx_link.specs.Bodies.{callee_in, holding_in, resolved, both, shown_standing, standing};

use plcx_model::{BodyElement, Kind, Pou};
use plcx_names::{Holding, NOTHING, Owner, Places, Scope, text_holding};
use plcx_rules::Callee;
use std::alloc::{AllocError, Global};
use std::marker::Model;

/// What a block calls, and what an element holds.
#[derive(Clone, Copy, Debug, PartialEq, Eq)]
pub struct Resolved {
    pub callee: Option<Callee>,
    pub holding: Holding,
}

/// An element of a body, with what it calls and holds.
#[derive(Clone, Copy)]
pub struct Standing<'a> {
    pub element: &'a BodyElement,
    pub resolved: Resolved,
}

fn element_at(elements: &[BodyElement], place: usize) -> Option<&BodyElement>
    ensures { option_map (λ e. e.now) result ≡ slice_get elements.now place }
{
    elements.get(place)
}

fn resolved_at(all: &[Resolved], place: usize) -> Option<Resolved>
    ensures { result ≡ slice_get all.now place }
{
    all.get(place).copied()
}

fn joined<'a>(element: Option<&'a BodyElement>, resolved: Option<Resolved>) -> Option<Standing<'a>>
    ensures { option_map shown_standing result ≡ both (option_map (λ e. e.now) element.entry) resolved }
{
    match (element, resolved) {
        (Some(element), Some(resolved)) => Some(Standing { element, resolved }),
        _ => None,
    }
}

#[tactic(auto, unfolding(crate::specs::Bodies::callee_in))]
fn callee_in(alloc: Global, scope: &Scope, kind: &Kind) -> Result<Option<Callee>, AllocError>
    ensures { IfOk result (λ callee. callee ≡ callee_in scope.now kind.now) }
{
    match kind {
        Kind::Block { type_name, .. } => Ok(scope.callee(alloc, type_name.as_slice())?),
        _ => Ok(None),
    }
}

#[tactic(auto, unfolding(crate::specs::Bodies::holding_in))]
fn holding_in(
    alloc: Global,
    scope: &Scope,
    owner: &Owner,
    kind: &Kind,
) -> Result<Holding, AllocError>
    ensures { IfOk result (λ h. h ≡ holding_in scope.now owner.now kind.now) }
{
    match kind {
        Kind::Contact { text, .. }
        | Kind::Coil { text, .. }
        | Kind::In { text, .. }
        | Kind::Out { text, .. } => Ok(text_holding(alloc, scope, owner, text.as_slice())?),
        _ => Ok(NOTHING),
    }
}

fn resolve(
    alloc: Global,
    scope: &Scope,
    owner: &Owner,
    element: &BodyElement,
) -> Result<Resolved, AllocError>
    ensures { IfOk result (λ r. r ≡ resolved scope.now owner.now element.now) }
{
    Ok(Resolved {
        callee: callee_in(alloc, scope, &element.kind)?,
        holding: holding_in(alloc, scope, owner, &element.kind)?,
    })
}

fn all_resolved(
    alloc: Global,
    scope: &Scope,
    owner: &Owner,
    elements: &[BodyElement],
) -> Result<Vec<Resolved>, AllocError>
    ensures { IfOk result (λ all. all.items ≡ map (resolved scope.now owner.now) elements.now) }
{
    let mut all = Vec::new(alloc);
    for element in elements {
        all.push(resolve(alloc, scope, owner, element)?)?;
    }
    Ok(all)
}

/// The body of a POU in a project.
#[derive(Drop)]
pub struct ScopedBody<'a> {
    scope: &'a Scope<'a>,
    owner: &'a Owner<'a>,
    places: Places<'a>,
    all: Vec<Resolved>,
}

impl<'a> Model for ScopedBody<'a> {
    ghost use Rattle.std.specs.Prelude.{◌≡◌, map};
    ghost use Rattle.plcx_link.specs.InProject.{InProject};
    ghost use Rattle.plcx_link.specs.Bodies.{resolved};

    ghost Value = { InProject };

    ghost view = { λ b. record { pous = b.scope.now; owner = b.owner.now } };

    ghost invariant = { λ b. (b.places ≡ b.owner.now.body.elements) × (b.all.items ≡ map (resolved b.scope.now b.owner.now) b.owner.now.body.elements) };
}

impl<'a> ScopedBody<'a> {
    /// The body of a POU, which is one of the scope's.
    pub fn of(
        alloc: Global,
        scope: &'a Scope<'a>,
        owner: &'a Owner<'a>,
    ) -> Result<ScopedBody<'a>, AllocError>
        ensures { IfOk result (λ body. body ≡ record { pous = scope.now; owner = owner.now }) }
    {
        let elements = owner.pou().body.elements();
        let places = Places::of(alloc, elements)?;
        let all = all_resolved(alloc, scope, owner, elements)?;
        Ok(ScopedBody {
            scope,
            owner,
            places,
            all,
        })
    }

    /// All POUs.
    pub fn scope(&self) -> &'a Scope<'a>
        ensures { result.now ≡ self.now.pous }
    {
        self.scope
    }

    /// The POU.
    pub fn owner(&self) -> &'a Owner<'a>
        ensures { result.now ≡ self.now.owner }
    {
        self.owner
    }

    /// The elements of the body, found by their localIds and names.
    pub fn places(&self) -> &Places<'a>
        ensures { result.now ≡ self.now.owner.body.elements }
    {
        &self.places
    }

    /// The elements of the body.
    pub fn elements(&self) -> &'a [BodyElement]
        ensures { result.now ≡ self.now.owner.body.elements }
    {
        self.places.elements()
    }

    /// The element at a place, with what it calls and holds.
    pub fn standing(&self, place: usize) -> Option<Standing<'a>>
        ensures { option_map shown_standing result ≡ option_map (standing self.now.pous self.now.owner) (slice_get self.now.owner.body.elements place) }
    {
        let element = element_at(self.elements(), place);
        let resolved = resolved_at(&self.all, place);
        joined(element, resolved)
    }
}

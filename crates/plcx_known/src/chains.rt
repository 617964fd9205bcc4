//! Where chains of instances of function blocks are too long.
ghost use Rattle.std.specs.Prelude.{◌≡◌, ◌+◌, List, true, map, get_or, replicate, length, IfOk};
ghost use Rattle.std.specs.List.{list_any};
ghost use Rattle.plcx_types.specs.Limits.{max_instance_chain};
ghost use Rattle.plcx_conditions.specs.Placed.{Declared, bare_variable};
ghost use Rattle.plcx_conditions.specs.Declarations.{starts_chain, has_chain};
ghost use Rattle.plcx_known.specs.Types.{type_of};
ghost use Rattle.plcx_known.specs.Unit.{bare_of};
ghost use Rattle.plcx_known.specs.Owned.{Typed, shown_own};
ghost use Rattle.plcx_known.specs.Chains.{leads_on, one_leads_on, next_level, levels};

use crate::owner::{Own, Owner};
use crate::scope::Scope;
use crate::types::VarType;
use plcx_types::NoMemory;
use plcx_types::limits::MAX_INSTANCE_CHAIN;
use std::alloc::Global;

/// Whether an instance of a type is one of a POU that has the mark.
fn leads_on(level: &[bool], ty: VarType) -> bool
    ensures { result ≡ leads_on level.now ty }
{
    match ty {
        VarType::Block(place) => match level.get(place) {
            None => false,
            Some(mark) => *mark,
        },
        _ => false,
    }
}

fn any_leads_on(level: &[bool], variables: &[Own]) -> bool
    ensures { result ≡ list_any (λ (v : Own). leads_on level.now v.ty) variables.now }
{
    variables.iter().any(|own| leads_on(level, own.ty))
}

ghost use Rattle.plcx_known.specs.declared.owner.Own.{Own};

fn one_leads_on(level: &[bool], owner: &Owner) -> bool
    ensures { result ≡ one_leads_on level.now owner.now }
{
    any_leads_on(level, owner.variables())
}

/// A mark at each POU that has an instance of a POU with a mark.
fn next_level(alloc: Global, owners: &[Owner], level: &[bool]) -> Result<Vec<bool>, NoMemory>
    ensures { IfOk result (λ next. next.items ≡ next_level owners.now level.now) }
{
    let mut next = Vec::new(alloc);
    for owner in owners {
        next.push(one_leads_on(level, owner))?;
    }
    Ok(next)
}

#[tactic(auto, using(crate::proofs::LongChains::all_alike))]
fn all_marked(alloc: Global, owners: &[Owner]) -> Result<Vec<bool>, NoMemory>
    ensures { IfOk result (λ level. level.items ≡ levels 0 owners.now) }
{
    Ok(vec![in alloc; true; owners.len()]?)
}

/// A mark at each POU from which so many instances stand in one another.
fn level(alloc: Global, owners: &[Owner], depth: usize) -> Result<Vec<bool>, NoMemory>
    ensures { IfOk result (λ level. level.items ≡ levels depth owners.now) }
{
    let mut level = all_marked(alloc, owners)?;
    for _depth in 0..depth {
        level = next_level(alloc, owners, &level)?;
    }
    Ok(level)
}

fn any_marked(level: &[bool]) -> bool
    ensures { result ≡ list_any (λ b. b) level.now }
{
    level.iter().any(|mark| *mark)
}

/// Where chains of instances are too long: a mark at each POU behind whose instances one is, and whether there is any.
#[derive(Debug, Drop)]
pub struct Chains {
    pub behind: Vec<bool>,
    pub any: bool,
}

impl Chains {
    /// Whether a chain that is too long starts at a variable of this type.
    pub fn starts(&self, ty: VarType) -> bool
        ensures { result ≡ leads_on self.now.behind.items ty }
    {
        leads_on(&self.behind, ty)
    }
}

impl<'a> Scope<'a> {
    /// Where chains of instances are too long.
    pub fn chains(&self, alloc: Global) -> Result<Chains, NoMemory>
        ensures starts { IfOk result (λ c. (v : Declared)
            → leads_on c.behind.items (type_of (bare_of self.now) v.declaration.ty.name) ≡ starts_chain max_instance_chain (bare_of self.now) (bare_variable v)) }
        ensures any { IfOk result (λ c. c.any ≡ has_chain (bare_of self.now)) }
    {
        let owners = self.owners();
        let behind = level(alloc, owners, MAX_INSTANCE_CHAIN)?;
        let any = any_marked(&next_level(alloc, owners, &behind)?);
        Ok(Chains { behind, any })
    }
}

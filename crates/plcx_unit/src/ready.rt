//! A unit that is ready to run.
ghost use Rattle.std.specs.Prelude.{◌≡◌, IfOk, IfErr, MatchResult};
ghost use Rattle.plcx_meaning.specs.Ready.{IsReady};
ghost use Rattle.plcx_st.specs.Meant.{meant};
ghost use Rattle.plcx_conditions.specs.First.{first_of};
ghost use Rattle.plcx_conditions.specs.Places.{placed};
ghost use Rattle.plcx_conditions.specs.Declarations.{broken_in};
ghost use Rattle.plcx_unit.specs.Refused.{fault_of, Refuses};

use crate::declarations::Judge;
use crate::error::{UnitError, UnitFault};
use plcx_conditions::{Broken, Condition};
use plcx_known::Scope;
use plcx_st::Unit;
use plcx_types::NoMemory;
use std::alloc::Global;
use std::marker::Model;

/// A unit that breaks no condition.
#[derive(Debug, Drop)]
pub struct Ready {
    unit: Unit,
}

impl Model for Ready {
    ghost use Rattle.std.specs.Coded.{codes};
    ghost use Rattle.plcx_meaning.specs.Ready.{IsReady};
    ghost use Rattle.plcx_st.specs.contracts.tree.Unit as u;
    ghost use Rattle.plcx_st.specs.declared.tree.Unit as tree;
    ghost use Rattle.plcx_st.specs.Meant.{meant};

    ghost Value = { tree.Unit };

    ghost coded = { Prim.hlevel (codes, u.the_row.coded) };

    ghost view = { λ r. r.unit };

    ghost invariant = { λ r. IsReady (meant r.unit) };
}

impl Ready {
    /// The unit.
    pub fn unit(&self) -> &Unit
        ensures unit { result.now ≡ self.now }
        ensures ready { IsReady (meant self.now) }
    {
        &self.unit
    }
}

/// What comes first of all that a unit breaks.
fn first_broken(alloc: Global, unit: &Unit) -> Result<Option<Broken>, NoMemory>
    ensures { IfOk result (λ b. b ≡ first_of (broken_in (placed unit.now))) }
{
    let scope = Scope::of(alloc, unit.pous.as_slice())?;
    let judge = Judge::of(alloc, &scope)?;
    Ok(judge.unit_broken(alloc)?)
}

fn fault_of(broken: Broken) -> UnitFault
    ensures { result ≡ fault_of broken }
{
    let at = broken.at;
    match broken.condition {
        Condition::Name => UnitFault::Name { at },
        Condition::Types => UnitFault::WrongType { at },
        Condition::Recursion => UnitFault::Recursion { at },
        Condition::Literal => UnitFault::Literal { at },
    }
}

/// The unit as one that is ready, or the condition with the least place that it breaks, at one place in the order of
/// names, types, recursion and literals. The unit comes back as it was given.
pub fn resolve(alloc: Global, unit: Unit) -> Result<Ready, UnitError>
    ensures unit { MatchResult result (λ ready. ready ≡ unit) (λ error. error.unit ≡ unit) }
    ensures ready { IfOk result (λ _. IsReady (meant unit)) }
    ensures refused { IfErr result (λ error. Refuses unit error.fault) }
{
    match first_broken(alloc, &unit) {
        Err(_) => Err(UnitError {
            unit,
            fault: UnitFault::NoMemory,
        }),
        Ok(Some(broken)) => Err(UnitError {
            unit,
            fault: fault_of(broken),
        }),
        Ok(None) => Ok(Ready { unit }),
    }
}

//! What comes first of all that is broken.
ghost use Rattle.std.specs.Prelude.{◌≡◌};
ghost use Rattle.plcx_conditions.specs.Broken.{rank, broken_if};
ghost use Rattle.plcx_conditions.specs.First.{comes_first, sooner, first_of};

use plcx_conditions::{Broken, Condition};

fn rank(condition: Condition) -> u8
    ensures { result ≡ rank condition }
{
    match condition {
        Condition::Name => 0,
        Condition::Types => 1,
        Condition::Recursion => 2,
        Condition::Literal => 3,
    }
}

fn comes_first(one: Broken, other: Broken) -> bool
    ensures { result ≡ comes_first one other }
{
    one.at < other.at || one.at == other.at && rank(one.condition) <= rank(other.condition)
}

/// The one of both that comes first.
#[tactic(auto, unfolding(plcx_conditions::specs::First::sooner))]
pub(crate) fn sooner(left: Option<Broken>, right: Option<Broken>) -> Option<Broken>
    ensures { result ≡ sooner left right }
{
    match (left, right) {
        (None, other) => other,
        (one, None) => one,
        (Some(one), Some(other)) => {
            if comes_first(one, other) {
                Some(one)
            } else {
                Some(other)
            }
        }
    }
}

/// The condition at a place, where it is broken there.
#[tactic(auto, unfolding(plcx_conditions::specs::First::sooner, plcx_conditions::specs::First::first_of))]
pub(crate) fn broken_if(test: bool, condition: Condition, at: u64) -> Option<Broken>
    ensures { result ≡ first_of (broken_if test condition at) }
{
    if test {
        Some(Broken { condition, at })
    } else {
        None
    }
}

/// The condition at a place.
#[tactic(auto, unfolding(plcx_conditions::specs::First::sooner, plcx_conditions::specs::First::first_of))]
pub(crate) fn broken(condition: Condition, at: u64) -> Option<Broken>
    ensures { result ≡ first_of (broken condition at ∷ []) }
{
    Some(Broken { condition, at })
}

ghost use Rattle.std.specs.Prelude.{[], ◌∷◌};
ghost use Rattle.plcx_conditions.specs.Broken.{broken};

//! Laws of the conditions, each on a function of its own.
ghost use Rattle.std.specs.Prelude.{◌≡◌, ◌⊎◌, List, []};
ghost use Rattle.plcx_meaning.specs.Ready.{IsReady};
ghost use Rattle.plcx_st.specs.declared.tree.Unit.{Unit};
ghost use Rattle.plcx_st.specs.Meant.{meant};
ghost use Rattle.plcx_conditions.specs.Places.{placed};
ghost use Rattle.plcx_conditions.specs.declared.broken.Broken.{Broken};
ghost use Rattle.plcx_conditions.specs.Broken.{IsFirst};
ghost use Rattle.plcx_conditions.specs.Placed.{Pou, bare};
ghost use Rattle.plcx_conditions.specs.Declarations.{broken_in};

/// A unit breaks nothing exactly where it is ready to run.
#[tactic(auto, using(crate::proofs::Units::ready_none, crate::proofs::Units::none_ready))]
pub fn ready_units_break_nothing()
    ensures ready { (unit : List Pou) → IsReady (bare unit) → broken_in unit ≡ [] }
    ensures nothing { (unit : List Pou) → broken_in unit ≡ [] → IsReady (bare unit) }
{}

/// A unit of places without its places is what the text means.
#[tactic(auto, using(crate::proofs::Views::unit_bare))]
pub fn places_are_added()
    ensures bare { (unit : Unit) → bare (placed unit) ≡ meant unit }
{}

/// Of what is broken, if anything is, exactly one comes first.
pub fn one_comes_first()
    ensures some { (all : List Broken) → (all ≡ []) ⊎ ((b : Broken) × IsFirst all b) }
    ensures one { (all : List Broken) (b c : Broken) → IsFirst all b → IsFirst all c → b ≡ c }
{}

//! The law of places.
ghost use Rattle.std.specs.Prelude.{ℕ};
ghost use Rattle.plcx_st.specs.Place.{HasOnePlace, FineHasNone};

/// Tokens have one place of a fault at most, and none where they are a unit within the bound.
#[tactic(auto, using(crate::proofs::OnePlace::one_place, crate::proofs::OnePlace::no_place))]
pub fn one_place()
    ensures one { (bound : ℕ) → HasOnePlace bound }
    ensures none { (bound : ℕ) → FineHasNone bound }
{}

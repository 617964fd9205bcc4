//! The law of printing.
ghost use Rattle.std.specs.Prelude.{◌≡◌, ◌≤◌, ℕ, List};
ghost use Rattle.plcx_meaning.specs.Tree.{PouText};
ghost use Rattle.plcx_st.specs.declared.tree.Unit.{Unit};
ghost use Rattle.plcx_st.specs.Meant.{meant};
ghost use Rattle.plcx_st.specs.Print.{printed};
ghost use Rattle.plcx_st.specs.InRange.{UnitInRange};
ghost use Rattle.plcx_st.specs.Fitting.{UnitFits};
ghost use Rattle.plcx_st.specs.Grammar.{limit};
ghost use Rattle.plcx_st.specs.Stands.{StandsForUnit};

/// The printed form of a unit in range stands for that unit, but for the places of its words.
#[tactic(auto, using(crate::proofs::ReadAgain::printed_again))]
pub fn read_again()
    ensures { (unit : List PouText) → UnitInRange unit → UnitFits unit → (v : Unit) × (d : ℕ) × (d ≤ limit) × StandsForUnit (printed unit) v d × (meant v ≡ unit) }
{}

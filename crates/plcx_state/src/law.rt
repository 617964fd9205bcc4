//! Laws of the definitions, each on a function of its own.
ghost use Rattle.std.specs.Prelude.{List};
ghost use Rattle.plcx_types.specs.Lists.{Each};
ghost use Rattle.plcx_state.specs.Layouts.{Laid, IsLaid};
ghost use Rattle.plcx_state.specs.Tables.{HasPlainNames};
ghost use Rattle.plcx_state.specs.Meanings.{AgreesAt, SetsAs, KeepsAs, IsReadAgain};

/// Values by number are a store of the meaning: a value that is set is put at the path of its leaf.
#[tactic(auto, using(crate::proofs::Meaning::agrees_at, crate::proofs::Meaning::sets_as))]
pub fn values_are_stores()
    ensures at { (l : Laid) → IsLaid l → AgreesAt l }
    ensures set { (l : Laid) → IsLaid l → SetsAs l }
{}

/// Retained states are those of the meaning.
#[tactic(auto, using(crate::proofs::Meaning::keeps_as))]
pub fn states_are_retained()
    ensures { (l : Laid) → IsLaid l → KeepsAs l }
{}

/// Printed lines are read as the values that were printed.
#[tactic(auto, using(crate::proofs::Again::is_read_again))]
pub fn lines_are_read_again()
    ensures { (l : Laid) → IsLaid l → Each HasPlainNames l.leaves → IsReadAgain l }
{}

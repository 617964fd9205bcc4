//! What holds of the definitions.
ghost use Rattle.std.specs.Prelude.{◌≡◌, ◌≢◌, ℕ, List, Option, Result, Err};
ghost use Rattle.plcx_meaning.specs.Tree.{PouText};
ghost use Rattle.plcx_words.specs.Command.{Run};
ghost use Rattle.plcx_traced.specs.Programs.{IsMissing};
ghost use Rattle.plcx_traced.specs.Runs.{AreTold, ComesTo};
ghost use Rattle.plcx_traced.specs.declared.error.RunError.{RunError};
ghost use Rattle.plcx_traced.specs.declared.error.RunError.TheVariants.{NoProgram, NoMemory};
ghost use Rattle.plcx_execute.specs.Programs.{programs_of};

/// A run of a text comes to one thing, where its files are told, nothing fails and there is memory; and where its
/// program is missing, to nothing but that.
#[tactic(auto, using(crate::proofs::OneOutcome::one_outcome, crate::proofs::OneOutcome::missing_alone))]
pub fn one_outcome()
    ensures one { (unit : List PouText) (told : List ℕ → Option (List ℕ)) (r : Run) → AreTold told r → (x y : Result (List ℕ) RunError) → x ≢ Err NoMemory → y ≢ Err NoMemory
        → ComesTo told (λ _. ⊥) (programs_of unit) r x → ComesTo told (λ _. ⊥) (programs_of unit) r y → x ≡ y }
    ensures missing { (unit : List PouText) (told : List ℕ → Option (List ℕ)) (r : Run) (x : Result (List ℕ) RunError) → x ≢ Err NoMemory → ComesTo told (λ _. ⊥) (programs_of unit) r x
        → IsMissing (programs_of unit) r.program → (programs : ℕ) × (x ≡ Err (NoProgram programs)) }
{}

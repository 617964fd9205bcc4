//! What holds of the definitions.
ghost use Rattle.std.specs.Prelude.{◌≡◌, ◌≢◌, ℕ, List, Option, Result, Err};
ghost use Rattle.plcx_meaning.specs.Diagram.{Project};
ghost use Rattle.plcx_words.specs.Command.{Run};
ghost use Rattle.plcx_traced.specs.Programs.{IsMissing};
ghost use Rattle.plcx_traced.specs.Runs.{AreTold};
ghost use Rattle.plcx_traced.specs.declared.error.RunError.{RunError};
ghost use Rattle.plcx_traced.specs.declared.error.RunError.TheVariants.{NoProgram, NoMemory};
ghost use Rattle.plcx_simulate.specs.Programs.{programs_of};
ghost use Rattle.plcx_coverage.specs.Coverage.{CoversTo};

/// What a run covers comes to one thing, where its files are told, nothing fails and there is memory; and where its program
/// is missing, to nothing but that.
#[tactic(auto, using(crate::proofs::OneCoverage::one_coverage, crate::proofs::OneCoverage::missing_alone))]
pub fn one_coverage()
    ensures one { (project : Project) (told : List ℕ → Option (List ℕ)) (r : Run) → AreTold told r → (x y : Result (List ℕ) RunError) → x ≢ Err NoMemory → y ≢ Err NoMemory
        → CoversTo told (λ _. ⊥) project r x → CoversTo told (λ _. ⊥) project r y → x ≡ y }
    ensures missing { (project : Project) (told : List ℕ → Option (List ℕ)) (r : Run) (x : Result (List ℕ) RunError) → x ≢ Err NoMemory → CoversTo told (λ _. ⊥) project r x
        → IsMissing (programs_of project) r.program → (programs : ℕ) × (x ≡ Err (NoProgram programs)) }
{}

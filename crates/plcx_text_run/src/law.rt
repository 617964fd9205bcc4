//! What holds of the definitions.
ghost use Rattle.std.specs.Prelude.{◌≡◌, ◌≢◌, ℕ, List, Option, Some, Result, Err};
ghost use Rattle.plcx_st.specs.Meant.{meant};
ghost use Rattle.plcx_words.specs.Command.{Run};
ghost use Rattle.plcx_traced.specs.Programs.{IsMissing};
ghost use Rattle.plcx_traced.specs.Runs.{AreTold};
ghost use Rattle.plcx_traced.specs.declared.error.RunError.TheVariants as run;
ghost use Rattle.plcx_execute.specs.Programs.{programs_of};
ghost use Rattle.plcx_text_file.specs.Files.{IsBrokenFile};
ghost use Rattle.plcx_text_file.specs.declared.broken.BrokenText.{BrokenText};
ghost use Rattle.plcx_text_run.specs.TextRuns.{TextOf, ComesTo, Never};
ghost use Rattle.plcx_text_run.specs.declared.running.TextRunError.{TextRunError};
ghost use Rattle.plcx_text_run.specs.declared.running.TextRunError.TheVariants.{TextBroken, NotRun, NoMemory};

use plcx_text_file::one_text_verdict;

/// A run comes to one thing, where its files are told, nothing fails and there is memory: where its text breaks
/// something, to that, and where its program is missing, to that, whatever is told of the other files.
pub fn one_outcome()
    ensures one { (told : List ℕ → Option (List ℕ)) (r : Run) (bytes : List ℕ) → told r.file ≡ Some bytes → AreTold told r → (x y : Result (List ℕ) TextRunError)
        → x ≢ Err NoMemory → y ≢ Err NoMemory → ComesTo told Never r x → ComesTo told Never r y → x ≡ y }
    ensures broken { (told : List ℕ → Option (List ℕ)) (r : Run) (bytes : List ℕ) → told r.file ≡ Some bytes → (b : BrokenText) → IsBrokenFile (told r.file) b
        → (x : Result (List ℕ) TextRunError) → x ≢ Err NoMemory → ComesTo told Never r x → x ≡ Err (TextBroken b) }
    ensures missing { (told : List ℕ → Option (List ℕ)) (r : Run) (bytes : List ℕ) → told r.file ≡ Some bytes → (t : TextOf told r) → IsMissing (programs_of (meant t.unit)) r.program
        → (x : Result (List ℕ) TextRunError) → x ≢ Err NoMemory → ComesTo told Never r x → (programs : ℕ) × (x ≡ Err (NotRun (run.NoProgram programs))) }
{
    one_text_verdict();
    plcx_execute::one_outcome();
}

//! Laws of the definitions that the top call's clauses cite.
ghost use Rattle.std.specs.Prelude.{◌≡◌, ℕ, List};
ghost use Rattle.plcx_meaning.specs.Diagram.{Project};
ghost use Rattle.plcx_command.specs.Compiled.{HasDiagrams, IsCompiled};
ghost use Rattle.plcx_command.specs.Verdict.{Verdict, FileVerdict};

use plcx_fits::one_diagram;
use plcx_profile::one_profile_verdict;
use plcx_rules::one_check_verdict;
use plcx_xml::{no_tree, one_fault, one_tree};

/// A file has one verdict.
pub fn one_verdict()
    ensures { (bytes : List ℕ) (v w : Verdict) → FileVerdict bytes v → FileVerdict bytes w → v ≡ w }
{
    one_tree();
    one_fault();
    no_tree();
    one_profile_verdict();
    one_check_verdict();
}

/// A file has one list of diagrams at most.
pub fn one_list_of_diagrams()
    ensures { (bytes : List ℕ) (a b : Project) → HasDiagrams bytes a → HasDiagrams bytes b → a ≡ b }
{
    one_tree();
    one_diagram();
}

/// A file has one text at most.
pub fn one_text()
    ensures { (bytes a b : List ℕ) → IsCompiled bytes a → IsCompiled bytes b → a ≡ b }
{
    one_list_of_diagrams();
}

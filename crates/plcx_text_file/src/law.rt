//! What holds of the definitions.
ghost use Rattle.std.specs.Prelude.{◌≡◌, ℕ, List};
ghost use Rattle.plcx_st.specs.declared.tree.Unit as tree;
ghost use Rattle.plcx_text_file.specs.Texts.{IsReadyText, TextBreaks};
ghost use Rattle.plcx_text_file.specs.declared.broken.BrokenText.{BrokenText};

use plcx_conditions::{one_comes_first, places_are_added, ready_units_break_nothing};
use plcx_lex::one_list;
use plcx_read::{one_place, one_unit};

/// A text is one unit that is ready, or breaks one thing first, and never both.
pub fn one_text_verdict()
    ensures unit { (bytes : List ℕ) (u v : tree.Unit) → IsReadyText bytes u → IsReadyText bytes v → u ≡ v }
    ensures broken { (bytes : List ℕ) (b c : BrokenText) → TextBreaks bytes b → TextBreaks bytes c → b ≡ c }
    ensures apart { (bytes : List ℕ) (u : tree.Unit) (b : BrokenText) → IsReadyText bytes u → TextBreaks bytes b → ⊥ }
{
    one_list();
    one_place();
    one_unit();
    one_comes_first();
    places_are_added();
    ready_units_break_nothing();
}

//! Which words a text may not declare.
ghost use Rattle.std.specs.Prelude.{◌≡◌, ◌↔◌, ℕ, List, true};
ghost use Rattle.plcx_types.specs.Reserved.{is_listed};
ghost use Rattle.plcx_meaning.specs.Taken.{IsTaken};

/// A word is listed exactly where it is a keyword, EN or ENO, or names a type, a function, a conversion or a standard block.
pub fn listed_words()
    ensures { (word : List ℕ) → (is_listed word ≡ true) ↔ IsTaken word }
{}

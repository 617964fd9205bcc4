//! What holds of the definitions, each on a function of its own.
ghost use Rattle.std.specs.Prelude.{◌≡◌, ℕ, Option};
ghost use Rattle.plcx_xml.specs.declared.tree.Element.{Element};
ghost use Rattle.plcx_profile.specs.Profile.{ProfileVerdict};

/// A file has one verdict.
pub fn one_profile_verdict()
    ensures { (root : Element) (v w : Option (ℕ × ℕ)) → ProfileVerdict root v → ProfileVerdict root w → v ≡ w }
{}

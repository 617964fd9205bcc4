//! What holds of the definitions, each on a function of its own.
ghost use Rattle.std.specs.Prelude.{◌≡◌, ℕ, Option};
ghost use Rattle.plcx_xml.specs.declared.tree.Element.{Element};
ghost use Rattle.plcx_table.specs.Format.{FormatVerdict};
ghost use Rattle.plcx_table.specs.declared.row.FormatRule.{FormatRule};

/// A file has one verdict on its form.
pub fn one_format_verdict()
    ensures { (root : Element) (v w : Option (FormatRule × ℕ)) → FormatVerdict root v → FormatVerdict root w → v ≡ w }
{}

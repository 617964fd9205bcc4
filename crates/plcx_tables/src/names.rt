//! Names as keys.
ghost use Rattle.std.specs.Prelude.{◌≡◌, IsTrue};
ghost use Rattle.std.specs.Hash as fed;
ghost use Rattle.std.specs.List.{flat_map};
ghost use Rattle.plcx_types.specs.Name.{in_lower_case};
ghost use Rattle.plcx_rules.specs.Texts.{same_name};
ghost use Rattle.plcx_tables.specs.Alike.{names_alike, names_partly_alike, fed_alike};

use plcx_names::same_name;
use std::hash::{Hash, Hasher};

/// A name, compared and hashed without the case of its letters.
#[derive(Clone, Copy, Debug)]
pub struct Name<'a> {
    pub text: &'a [u8],
}

impl<'a> PartialEq for Name<'a> {
    ghost eq = { λ a b. same_name a.text.now b.text.now };

    ghost laws = { names_partly_alike (λ n. n.text.now) };

    fn eq(&self, other: &Name<'a>) -> bool {
        same_name(self.text, other.text)
    }
}

impl<'a> Eq for Name<'a> {
    ghost laws = { names_alike (λ n. n.text.now) };
}

impl<'a> Hash for Name<'a> {
    ghost hash_input = { λ n. flat_map fed.u8 (in_lower_case n.text.now) };

    ghost respects_eq = { λ a b. fed_alike a.text.now b.text.now };

    fn hash<H: Hasher>(&self, state: &mut H) {
        for byte in self.text {
            state.write_u8(byte.to_ascii_lowercase());
        }
    }
}

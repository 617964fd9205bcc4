//! Names, as they stand in the file.
ghost use Rattle.std.specs.Prelude.{◌≡◌};

use std::marker::Model;

/// A name that stands in the bytes of a file. It takes no memory of its own.
#[derive(Drop)]
pub struct Name<'a> {
    spelled: &'a [u8],
}

impl<'a> Model for Name<'a> {
    ghost use Rattle.std.specs.Prelude.{List, ℕ};

    ghost Value = { List ℕ };

    ghost view = { λ name. name.spelled.now };
}

impl<'a> Name<'a> {
    /// The name that these bytes spell.
    pub fn spelled(spelled: &'a [u8]) -> Name<'a>
        ensures { result ≡ spelled.now }
    {
        Name { spelled }
    }

    /// Its bytes.
    pub fn bytes(&self) -> &'a [u8]
        ensures { result.now ≡ self.now }
    {
        self.spelled
    }
}

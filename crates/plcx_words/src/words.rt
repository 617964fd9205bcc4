//! The words after the program's name.
ghost use Rattle.std.specs.Prelude.{◌≡◌, [], ◌∷◌, ◌++◌, IfOk, OnErr};

use plcx_types::NoMemory;
use std::alloc::Global;
use std::marker::Model;

/// The words after the program's name, in order.
#[derive(Drop)]
pub struct Words {
    alloc: Global,
    items: Vec<String>,
}

impl Model for Words {
    ghost use Rattle.std.specs.Prelude.{ℕ, List, map, string_bytes};

    ghost Value = { List (List ℕ) };

    ghost view = { λ words. map string_bytes words.items.items };
}

impl Words {
    /// No word. Takes no memory.
    pub fn new(alloc: Global) -> Words
        ensures { result ≡ [] }
    {
        Words {
            alloc,
            items: Vec::new(alloc),
        }
    }

    /// Adds a word at the end.
    pub fn push(&mut self, word: &str) -> Result<(), NoMemory>
        ensures ok { IfOk result (λ _. self.new ≡ self.old ++ word.now ∷ []) }
        ensures err { OnErr result (self.new ≡ self.old) }
    {
        let word = String::from_str(self.alloc, word)?;
        self.items.push(word)?;
        Ok(())
    }

    /// The words themselves.
    pub fn as_slice(&self) -> &[String]
        ensures { map string_bytes result.now ≡ self.now }
    {
        self.items.as_slice()
    }
}

ghost use Rattle.std.specs.Prelude.{map, string_bytes};

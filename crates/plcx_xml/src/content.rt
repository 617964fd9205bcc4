//! What stands in a value or a text, in which each reference has become its character.
ghost use Rattle.std.specs.Prelude.{◌≡◌, ◌++◌, IfOk};

use std::alloc::{AllocError, Global};
use std::marker::Model;

/// Bytes of the file, or a copy where they aren't what stands there.
#[derive(Drop)]
pub enum Held<'a> {
    Spelled(&'a [u8]),
    Made(Vec<u8>),
}

/// The characters of a value or a text. They are copied out of the file only where they hold a reference.
#[derive(Drop)]
pub struct Content<'a> {
    held: Held<'a>,
}

impl<'a> Model for Content<'a> {
    ghost use Rattle.std.specs.Prelude.{List, ℕ};
    ghost use Rattle.plcx_xml.specs.Held.{held_bytes};

    ghost Value = { List ℕ };

    ghost view = { λ content. held_bytes content.held };
}

impl<'a> Content<'a> {
    /// These bytes, as they stand in the file.
    pub fn spelled(bytes: &'a [u8]) -> Content<'a>
        ensures { result ≡ bytes.now }
    {
        Content {
            held: Held::Spelled(bytes),
        }
    }

    /// These bytes, which the file spells otherwise.
    pub fn made(bytes: Vec<u8>) -> Content<'a>
        ensures { result ≡ bytes.items }
    {
        Content {
            held: Held::Made(bytes),
        }
    }

    /// Its bytes.
    pub fn bytes(&self) -> &[u8]
        ensures { result.now ≡ self.now }
    {
        match &self.held {
            Held::Spelled(bytes) => bytes,
            Held::Made(bytes) => bytes.as_slice(),
        }
    }

    /// These characters with more behind them.
    pub fn followed_by(self, alloc: Global, more: &[u8]) -> Result<Content<'a>, AllocError>
        ensures { IfOk result (λ both. both ≡ self.entry ++ more.now) }
    {
        let mut bytes = match self.held {
            Held::Spelled(bytes) => Vec::from_slice(alloc, bytes)?,
            Held::Made(bytes) => bytes,
        };
        bytes.extend_from_slice(more)?;
        Ok(Content::made(bytes))
    }
}

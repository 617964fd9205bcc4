//! Layouts: the leaves of a program and what its elements remember, each with a number.
ghost use Rattle.std.specs.Prelude.{◌≡◌, ◌<◌, IfSome, length};
ghost use Rattle.plcx_state.specs.Layouts.{laid, IsLaid, is_kept, leaf_at, meant_path};

use crate::path::Path;
use plcx_types::{Ty, Val};
use std::marker::Model;

/// A variable of an elementary type, in the program itself or in an instance within it.
#[derive(Debug, Drop)]
pub struct Leaf {
    pub path: Path,
    pub ty: Ty,
    pub initial: Val,
    pub retained: bool,
    /// It may be an input of a scan.
    pub settable: bool,
    /// It is among the outputs of a scan.
    pub shown: bool,
}

/// What an element remembers from one scan to the next; its default is the number 0.
#[derive(Clone, Copy, Debug, PartialEq, Eq)]
pub struct Memory {
    pub ty: Ty,
    /// It stands in a retained instance.
    pub retained: bool,
}

/// The leaves and memories of a program. Numbers count from 0.
#[derive(Debug, Drop)]
pub struct Layout {
    leaves: Vec<Leaf>,
    memories: Vec<Memory>,
}

impl Model for Layout {
    ghost use Rattle.plcx_state.specs.Layouts.{Laid, laid, IsLaid};

    ghost Value = { Laid };

    ghost view = { λ l. laid l.leaves.items l.memories.items };

    ghost invariant = { λ l. IsLaid (laid l.leaves.items l.memories.items) };
}

impl Leaf {
    /// Whether its value is part of a retained state.
    pub fn is_kept(&self) -> bool
        ensures { result ≡ is_kept self.now }
    {
        self.retained && self.path.is_declared()
    }
}

#[tactic(auto, unfolding(crate::specs::Layouts::leaf_at))]
fn leaf_at(path: &Path, leaves: &[Leaf]) -> Option<usize>
    ensures value { result ≡ leaf_at (meant_path path.now) leaves.now }
    ensures within { IfSome result (λ number. number < length leaves.now) }
{
    leaves.iter().position(|leaf| leaf.path.same(path))
}

impl Layout {
    /// The layout of these leaves and memories.
    pub fn new(leaves: Vec<Leaf>, memories: Vec<Memory>) -> Layout
        requires { IsLaid (laid leaves.items memories.items) }
        ensures { result ≡ laid leaves.items memories.items }
    {
        Layout { leaves, memories }
    }

    /// Its leaves, by number.
    pub fn leaves(&self) -> &[Leaf]
        ensures leaves { result.now ≡ self.now.leaves }
        ensures laid { IsLaid self.now }
    {
        self.leaves.as_slice()
    }

    /// Its memories, by number.
    pub fn memories(&self) -> &[Memory]
        ensures { result.now ≡ self.now.memories }
    {
        self.memories.as_slice()
    }

    /// The number of the leaf at a path, whatever the case of its letters. It takes no memory, and looks at one leaf
    /// after another: where many paths are looked up, make a `PathTable`.
    pub fn find(&self, path: &Path) -> Option<u32>
        ensures { result ≡ leaf_at (meant_path path.now) self.now.leaves }
    {
        let number = leaf_at(path, self.leaves())?;
        Some(number as u32)
    }
}

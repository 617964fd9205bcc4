//! Variables by their numbers, and the tables of POUs.
ghost use Rattle.std.specs.Prelude.{◌≡◌, ◌≤◌, ℕ, Some, slice_get};
ghost use Rattle.plcx_tables.specs.declared.placed.Placed.{Placed};

use crate::own::Own;
use crate::variables::Declared;

/// A variable with the offset of its first leaf and of its first memory, and its number among the in-outs, if it is one.
#[derive(Clone, Copy, Debug)]
pub struct Placed<'a> {
    pub variable: Declared<'a>,
    pub leaf: u32,
    pub memory: u32,
    pub in_out: usize,
}

/// A POU, with the numbers of its variables in their order, how many leaves and memories an instance has, and how many
/// levels of blocks are below it.
#[derive(Drop)]
pub struct Table<'a> {
    pub own: &'a Own<'a>,
    pub(crate) placed: Vec<Placed<'a>>,
    pub leaves: u32,
    pub memories: u32,
    pub level: usize,
    ghost within: { (i : ℕ) (p : Placed) → slice_get placed.items i ≡ Some p → p.leaf ≤ leaves },
}

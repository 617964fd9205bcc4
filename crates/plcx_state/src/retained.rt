//! Retained states: a value for each retained leaf that a declaration made.
ghost use Rattle.std.specs.Prelude.{◌≡◌, Some, IfOk, slice_get, slice_set};
ghost use Rattle.plcx_types.specs.Range.{InRange};
ghost use Rattle.plcx_types.specs.declared.ty.Ty.{Ty};
ghost use Rattle.plcx_state.specs.Retains.{HasKept, IsRetainedOf, kept_of, initially_kept};

use crate::layout::{Layout, Leaf};
use plcx_types::{NoMemory, Val};
use std::alloc::{AllocError, Global};
use std::marker::Model;

/// A value by the number of each leaf of a layout that is part of a retained state; the others have none.
#[derive(Debug, Drop)]
pub struct Retained {
    kept: Vec<Option<Val>>,
}

impl Model for Retained {
    ghost use Rattle.std.specs.Prelude.{List, Option};
    ghost use Rattle.plcx_types.specs.Value.{Value as Number};

    ghost Value = { List (Option Number) };

    ghost view = { λ r. r.kept.items };
}

/// A value, or else the initial one, where the leaf's value is part of a retained state.
pub(crate) fn kept_of(leaf: &Leaf, value: Option<Val>) -> Option<Val>
    ensures { result ≡ kept_of leaf.now value }
{
    if leaf.is_kept() {
        match value {
            Some(value) => Some(value),
            None => Some(leaf.initial),
        }
    } else {
        None
    }
}

fn initially_kept(alloc: Global, leaves: &[Leaf]) -> Result<Vec<Option<Val>>, AllocError>
    ensures { IfOk result (λ kept. kept.items ≡ initially_kept leaves.now) }
{
    leaves.iter().map(|leaf| kept_of(leaf, None)).collect(alloc)
}

/// The retained state with the initial values.
#[tactic(auto, using(crate::proofs::Keeping::initially_suits))]
pub fn initial(alloc: Global, layout: &Layout) -> Result<Retained, NoMemory>
    ensures value { IfOk result (λ kept. kept ≡ initially_kept layout.now.leaves) }
    ensures state { IfOk result (λ kept. IsRetainedOf layout.now.leaves kept) }
{
    let kept = initially_kept(alloc, layout.leaves())?;
    Ok(Retained { kept })
}

impl Retained {
    pub(crate) fn of(kept: Vec<Option<Val>>) -> Retained
        ensures { result ≡ kept.items }
    {
        Retained { kept }
    }

    pub(crate) fn kept(&self) -> &[Option<Val>]
        ensures { result.now ≡ self.now }
    {
        self.kept.as_slice()
    }

    /// The value of a leaf.
    pub fn get(&self, leaf: u32) -> Val
        requires { (t : Ty) × HasKept self.now leaf t }
        ensures value { slice_get self.now leaf ≡ Some (Some result) }
        ensures range { InRange result.ty result.n }
    {
        let value = self.kept[leaf as usize].unwrap();
        let _ = value.n();
        value
    }

    /// Changes the value of a leaf.
    pub fn set(&mut self, leaf: u32, v: Val)
        requires { HasKept self.old leaf v.ty }
        ensures value { self.new ≡ slice_set self.old leaf (Some v) }
        ensures range { InRange v.ty v.n }
    {
        let _ = v.n();
        self.kept[leaf as usize] = Some(v);
    }
}

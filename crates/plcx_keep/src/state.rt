//! The retained state that a new version of a program begins with.
ghost use Rattle.std.specs.Prelude.{IfOk};
ghost use Rattle.plcx_keep.specs.States.{AreRowsOf, IsCarried};

use crate::carry::Carry;
use plcx_state::{Layout, Retained, initial};
use plcx_types::NoMemory;
use std::alloc::Global;

/// The retained state of the layout `after` that has the value of each row at the row's leaf.
pub fn carried(alloc: Global, after: &Layout, carry: &Carry) -> Result<Retained, NoMemory>
    requires { AreRowsOf after.now.leaves carry.now.rows }
    ensures { IfOk result (λ kept. IsCarried after.now.leaves carry.now.rows kept) }
{
    let mut state = initial(alloc, after)?;
    for row in carry.rows.as_slice() {
        state.set(row.leaf, row.value);
    }
    Ok(state)
}

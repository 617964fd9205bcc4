//! A cover of a project, before anything is run.
ghost use Rattle.std.specs.Prelude.{◌≡◌, IfOk, map};
ghost use Rattle.plcx_view.specs.Diagrams.{diagrams_of};
ghost use Rattle.plcx_cover.specs.Counts.{fresh, rows_of};
ghost use Rattle.plcx_cover.specs.Listed.{shown_wire};

use crate::counting::{Cover, CoverRow};
use crate::listing::{Wire, wires_of};
use plcx_check::Checked;
use plcx_fits::checked_fits;
use plcx_opening::drawings;
use plcx_types::NoMemory;
use std::alloc::Global;

/// The row of a wire, before anything is heard.
fn fresh(wire: &Wire<'_>) -> CoverRow
    ensures { result ≡ fresh (shown_wire wire.now) }
{
    CoverRow {
        pou: wire.pou,
        local_id: wire.local_id,
        pin: wire.number,
        ty: wire.ty,
        evaluated: 0,
        trues: 0,
    }
}

fn rows_of(alloc: Global, wires: &[Wire<'_>]) -> Result<Vec<CoverRow>, NoMemory>
    ensures { IfOk result (λ rows. rows.items ≡ map fresh (map shown_wire wires.now)) }
{
    let mut rows = Vec::new(alloc);
    for wire in wires {
        rows.push(fresh(wire))?;
    }
    Ok(rows)
}

impl Cover {
    /// A row for each wire of a project, in the order of POUs, elements and wires, with no count.
    pub fn open(alloc: Global, checked: &Checked) -> Result<Cover, NoMemory>
        ensures { IfOk result (λ cover. cover
            ≡ rows_of (diagrams_of checked.now.project checked.now.links checked.now.types checked.now.plan)) }
    {
        checked_fits();
        let drawings = drawings(alloc, checked)?;
        let wires = wires_of(alloc, &drawings)?;
        let rows = rows_of(alloc, &wires)?;
        Cover::of(alloc, rows)
    }
}

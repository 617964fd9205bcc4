//! The bodies of POUs, before they have their places.
ghost use Rattle.std.specs.Prelude.{◌≡◌, ◌<◌, Some, IfOk, length, map, slice_get};
ghost use Rattle.plcx_meaning.specs.Ready.{IsReady};
ghost use Rattle.plcx_st.specs.declared.tree.PouText.{PouText};
ghost use Rattle.plcx_st.specs.Meant.{pou_meant};
ghost use Rattle.plcx_text_order.specs.Laws.{IsBare, AreBare};

use plcx_steps::Body;
use plcx_text_steps::Entry;
use plcx_text_tables::Tables;
use plcx_types::NoMemory;
use std::alloc::Global;

/// The body of the POU at a place, which begins with the wires of its entry.
fn bare(alloc: Global, tables: &Tables, place: usize, entry: &Entry) -> Body
    requires ready { IsReady (map pou_meant tables.now) }
    requires place { place < length tables.now }
    ensures { (p : PouText) → slice_get tables.now place ≡ Some p → IsBare (map pou_meant tables.now) (pou_meant p) entry.now result }
{
    let table = tables.table_there(place);
    Body {
        level: tables.level(place),
        leaves: table.leaves,
        memories: 0,
        in_outs: table.in_outs.len(),
        first_wire: 0,
        first_in_out: 0,
        width: entry.wires.len(),
        jumps: false,
        networks: Vec::new(alloc),
    }
}

/// The bodies of all POUs, by where these begin.
pub(crate) fn bodies_of(
    alloc: Global,
    tables: &Tables,
    entries: &[Entry],
) -> Result<Vec<Body>, NoMemory>
    requires ready { IsReady (map pou_meant tables.now) }
    requires count { length entries.now ≡ length tables.now }
    ensures { IfOk result (λ bodies. AreBare (map pou_meant tables.now) entries.now bodies.items) }
{
    let mut bodies = Vec::new(alloc);
    for (place, entry) in entries.iter().enumerate() {
        bodies.push(bare(alloc, tables, place, entry))?;
    }
    Ok(bodies)
}

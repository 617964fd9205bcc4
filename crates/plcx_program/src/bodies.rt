//! The bodies of all POUs, one after another, before they have their places.
ghost use Rattle.std.specs.Prelude.{◌≡◌, List, IfOk, map};
ghost use Rattle.plcx_types.specs.Lists.{Each};
ghost use Rattle.plcx_model.specs.declared.project.Pou.{Pou};
ghost use Rattle.plcx_meaning.specs.Diagram as diagram;
ghost use Rattle.plcx_drawn.specs.Shown.{shown_networks};
ghost use Rattle.plcx_drawn.specs.Pous.{shown_pou};
ghost use Rattle.plcx_prepare.specs.Literals.{ElementHasLiterals};
ghost use Rattle.plcx_program.specs.Bodies.{HaveLiterals, AreTablesOf, IsDrawn, AddsBody, HasBodies};

use crate::networks::networks_of;
use plcx_bodies::{Shared, width};
use plcx_drawn::Drawing;
use plcx_steps::Body;
use plcx_tables::Tables;
use plcx_targets::has_jump;
use plcx_types::NoMemory;
use std::alloc::Global;

/// The bodies so far, and what is shared behind them.
#[derive(Drop)]
pub(crate) struct Bodies {
    pub(crate) items: Vec<Body>,
    pub(crate) shared: Shared,
}

/// The body of a drawing more.
fn with_body(
    alloc: Global,
    tables: &Tables,
    place: usize,
    drawing: &Drawing,
    before: Bodies,
) -> Result<Bodies, NoMemory>
    requires { Each (Each ElementHasLiterals) (shown_networks drawing.now) }
    ensures { IfOk result (λ after. (project : diagram.Project) (p : diagram.Pou) → IsDrawn project tables.now.tables.now place drawing.now p → AddsBody project p before after) }
{
    let Bodies { mut items, shared } = before;
    let made = networks_of(alloc, tables, place, drawing, shared)?;
    match tables.table(place) {
        None => Err(NoMemory),
        Some(table) => {
            items.push(Body {
                level: table.level,
                leaves: table.leaves,
                memories: table.memories,
                in_outs: table.in_outs(),
                first_wire: 0,
                first_in_out: 0,
                width: width(&made.items),
                jumps: has_jump(drawing),
                networks: made.items,
            })?;
            Ok(Bodies {
                items,
                shared: made.shared,
            })
        }
    }
}

/// The bodies of all drawings.
pub(crate) fn bodies_of(
    alloc: Global,
    tables: &Tables,
    drawings: &[Drawing],
) -> Result<Bodies, NoMemory>
    requires { Each HaveLiterals drawings.now }
    ensures { IfOk result (λ all. (pous : List Pou) → AreTablesOf (map (shown_pou pous) drawings.now) tables.now.tables.now
        → HasBodies (map (shown_pou pous) drawings.now) (map (shown_pou pous) drawings.now) all) }
{
    let mut all = Bodies {
        items: Vec::new(alloc),
        shared: Shared {
            bindings: Vec::new(alloc),
            arguments: Vec::new(alloc),
        },
    };
    for (place, drawing) in drawings.iter().enumerate() {
        all = with_body(alloc, tables, place, drawing, all)?;
    }
    Ok(all)
}

//! The drawings of all POUs of a checked project.
ghost use Rattle.std.specs.Prelude.{◌≡◌, map, IfOk};
ghost use Rattle.plcx_view.specs.Diagrams.{diagrams_of};
ghost use Rattle.plcx_drawn.specs.Pous.{shown_pou};

use plcx_check::Checked;
use plcx_draw::drawing;
use plcx_drawn::Drawing;
use plcx_names::Scope;
use plcx_types::NoMemory;
use std::alloc::Global;

/// A drawing for each POU, in the order of the project.
pub fn drawings<'a>(alloc: Global, checked: &'a Checked) -> Result<Vec<Drawing<'a>>, NoMemory>
    ensures { IfOk result (λ drawings. map (shown_pou checked.entry.now.project.pous) drawings.items
        ≡ diagrams_of checked.entry.now.project checked.entry.now.links checked.entry.now.types checked.entry.now.plan) }
{
    let pous = checked.project().pous();
    let scope = Scope::of(alloc, pous)?;
    let mut drawings = Vec::new(alloc);
    for place in 0..pous.len() {
        let drawing = drawing(
            alloc,
            &scope,
            checked.links(),
            checked.types(),
            checked.plan(),
            place,
        )?;
        drawings.push(drawing)?;
    }
    Ok(drawings)
}

//! The layouts and the sides of a plan's instances.
ghost use Rattle.std.specs.Prelude.{◌≡◌, Some, IfOk, length};
ghost use Rattle.plcx_types.specs.Lists.{Each};
ghost use Rattle.plcx_meaning.specs.Diagram.{program_named};
ghost use Rattle.plcx_meaning.specs.Diagram.{Pou as Meant};
ghost use Rattle.plcx_state.specs.Retains.{Pairwise, initially_kept};
ghost use Rattle.plcx_opening.specs.Opening.{IsLaidAs};
ghost use Rattle.plcx_eval.specs.Sides.{IsOpened};
ghost use Rattle.plcx_simulate.specs.Programs.{diagrams_in};
ghost use Rattle.plcx_cycle.specs.Sides.{HasDiagram, IsLaidOut, AreOpened};

use plcx_check::Checked;
use plcx_eval::DiagramSide;
use plcx_scan::OpenError;
use plcx_simulate::layout_of;
use plcx_state::{Layout, initial};
use plcx_tasks::Instance;
use plcx_types::{Ident, NoMemory};
use std::alloc::Global;

/// The layouts of the programs of instances, in order.
pub(crate) fn layouts_of(
    alloc: Global,
    checked: &Checked,
    instances: &[Instance],
) -> Result<Vec<Layout>, NoMemory>
    requires { Each (HasDiagram (diagrams_in checked.now)) instances.now }
    ensures { IfOk result (λ layouts. Pairwise (IsLaidOut (diagrams_in checked.now)) instances.now layouts.items) }
{
    let mut layouts = Vec::new(alloc);
    for instance in instances {
        layouts.push(layout_of(alloc, checked, &instance.program)?)?;
    }
    Ok(layouts)
}

/// The side of a program that there is, with initial values.
fn opened<'a>(
    alloc: Global,
    checked: &'a Checked,
    program: &Ident,
    layout: &Layout,
) -> Result<DiagramSide<'a>, NoMemory>
    requires there { (p : Meant) × (program_named program.now (diagrams_in checked.now) ≡ Some p) }
    requires laid { IsLaidAs (diagrams_in checked.now) program.now layout.now }
    ensures { IfOk result (IsOpened (diagrams_in checked.entry.now) program.now (initially_kept layout.now.leaves)) }
{
    let kept = initial(alloc, layout)?;
    match DiagramSide::open(alloc, checked, program, &kept) {
        Ok(side) => Ok(side),
        Err(OpenError::NoProgram) => unreachable!(),
        Err(OpenError::NoMemory) => Err(NoMemory),
    }
}

/// The sides of instances, in order, each with initial values.
pub(crate) fn sides_of<'a>(
    alloc: Global,
    checked: &'a Checked,
    instances: &[Instance],
    layouts: &[Layout],
) -> Result<Vec<DiagramSide<'a>>, NoMemory>
    requires there { Each (HasDiagram (diagrams_in checked.now)) instances.now }
    requires laid { Pairwise (IsLaidOut (diagrams_in checked.now)) instances.now layouts.now }
    ensures { IfOk result (λ sides. AreOpened (diagrams_in checked.entry.now) instances.now layouts.now sides.items) }
{
    let mut sides = Vec::new(alloc);
    for i in 0..instances.len() {
        sides.push(opened(alloc, checked, &instances[i].program, &layouts[i])?)?;
    }
    Ok(sides)
}

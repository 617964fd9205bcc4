//! The wires of an element, as they are before its first step.
ghost use Rattle.std.specs.Prelude.{◌≡◌, ◌++◌, IfOk, map, pos, replicate};
ghost use Rattle.plcx_funcs.specs.Applied.{value};
ghost use Rattle.plcx_steps.specs.Numbered.{bit};
ghost use Rattle.plcx_meaning.specs.Diagram.{ports};
ghost use Rattle.plcx_drawn.specs.Shown.{shown_kind, shown_port};
ghost use Rattle.plcx_numbered.specs.Prepared.{spares};
ghost use Rattle.plcx_bodies.specs.Parts.{defaults};

use crate::counting::sum;
use plcx_drawn::{ElementKind, Port, ports};
use plcx_types::{NoMemory, Ty, Val, default_of};
use std::alloc::Global;

/// The default of a type.
fn default(ty: Ty) -> Val
    ensures { result ≡ value ty (pos 0) }
{
    default_of(ty)
}

fn with_ports(wires: Vec<Val>, ports: &[Port]) -> Result<Vec<Val>, NoMemory>
    ensures { IfOk result (λ more. more.items ≡ wires.items ++ defaults (map shown_port ports.now)) }
{
    let mut all = wires;
    for port in ports {
        all.push(default(port.ty))?;
    }
    Ok(all)
}

/// The outputs of an element more, at their defaults.
pub(crate) fn with_outputs(
    alloc: Global,
    wires: Vec<Val>,
    kind: &ElementKind,
) -> Result<Vec<Val>, NoMemory>
    ensures { IfOk result (λ more. more.items ≡ wires.items ++ defaults (ports (shown_kind kind.now))) }
{
    let ports = ports(alloc, kind)?;
    Ok(with_ports(wires, &ports)?)
}

/// How many spare wires an element takes.
pub(crate) fn spares(kind: &ElementKind) -> Result<usize, NoMemory>
    ensures { IfOk result (λ count. count ≡ spares (shown_kind kind.now)) }
{
    match kind {
        ElementKind::Still | ElementKind::In { .. } | ElementKind::Label(_) => Ok(0),
        ElementKind::Pass(_) | ElementKind::Jump { .. } | ElementKind::Return(_) => Ok(1),
        ElementKind::Out { .. } | ElementKind::Coil { .. } | ElementKind::Call { .. } => Ok(2),
        ElementKind::Contact { .. } => Ok(3),
        ElementKind::Function { inputs, .. } => Ok(sum(inputs.len(), 1)?),
    }
}

/// So many truth values more.
pub(crate) fn with_spares(mut wires: Vec<Val>, spare: usize) -> Result<Vec<Val>, NoMemory>
    ensures { IfOk result (λ more. more.items ≡ wires.items ++ replicate spare (bit (pos 0))) }
{
    let count = sum(wires.len(), spare)?;
    wires.resize(count, default(Ty::Bool))?;
    Ok(wires)
}

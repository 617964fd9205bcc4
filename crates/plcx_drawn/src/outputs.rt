//! The outputs of an element.
ghost use Rattle.std.specs.Prelude.{◌≡◌, map, IfOk, [], ◌∷◌, ◌++◌};
ghost use Rattle.plcx_meaning.specs.Functions.{out_type};
ghost use Rattle.plcx_meaning.specs.Diagram.{has_edge, has_eno, eno_ports, output_ports, ports, port};
ghost use Rattle.plcx_drawn.specs.Shown.{shown_enable, shown_output_pin, shown_kind, shown_port};

use crate::element::{Coiling, Contacting, ElementKind, Enable, OutputPin, Port};
use plcx_funcs::{Allowed, Class, Func, FuncPins};
use plcx_types::{NoMemory, Ty};
use std::alloc::Global;

/// The type of OUT where the group has this type.
pub fn out_type(func: Func, ty: Ty) -> Ty
    ensures { result ≡ out_type func ty }
{
    let pins = FuncPins {
        func,
        inputs: 0,
        allowed: Allowed::Nothing,
    };
    match pins.out() {
        Class::Group | Class::Lone => ty,
        Class::Fixed(ty) => ty,
    }
}

/// The one output of an element that is no block.
fn only<'a>(alloc: Global, ty: Ty) -> Result<Vec<Port<'a>>, NoMemory>
    ensures { IfOk result (λ all. map shown_port all.items ≡ port [] ty ∷ []) }
{
    let mut all = Vec::new(alloc);
    all.push(Port { pin: b"", ty })?;
    Ok(all)
}

/// ENO, where a block has it.
fn eno_ports<'a>(alloc: Global, enable: &Enable<'a>) -> Result<Vec<Port<'a>>, NoMemory>
    ensures { IfOk result (λ all. map shown_port all.items ≡ eno_ports (shown_enable enable.now)) }
{
    let mut all = Vec::new(alloc);
    if enable.en.is_some() || enable.eno.is_some() {
        all.push(Port {
            pin: b"ENO",
            ty: Ty::Bool,
        })?;
    }
    Ok(all)
}

/// The listed outputs of an instance, behind ENO.
fn with_outputs<'a>(
    mut all: Vec<Port<'a>>,
    outputs: &[OutputPin<'a>],
) -> Result<Vec<Port<'a>>, NoMemory>
    ensures { IfOk result (λ more. map shown_port more.items ≡ map shown_port all.entry.items ++ output_ports (map shown_output_pin outputs.now)) }
{
    for output in outputs {
        all.push(Port {
            pin: output.name,
            ty: output.ty,
        })?;
    }
    Ok(all)
}

/// The outputs of an element, in their order.
pub fn ports<'a>(alloc: Global, kind: &ElementKind<'a>) -> Result<Vec<Port<'a>>, NoMemory>
    ensures { IfOk result (λ all. map shown_port all.items ≡ ports (shown_kind kind.now)) }
{
    match kind {
        ElementKind::Still | ElementKind::Out { .. } | ElementKind::Label(_) => {
            Ok(Vec::new(alloc))
        }
        ElementKind::In { ty, .. } => Ok(only(alloc, *ty)?),
        ElementKind::Pass(link) => Ok(only(alloc, link.ty)?),
        ElementKind::Contact { .. }
        | ElementKind::Coil { .. }
        | ElementKind::Jump { .. }
        | ElementKind::Return(_) => Ok(only(alloc, Ty::Bool)?),
        ElementKind::Function {
            func,
            ty,
            enable,
            ..
        } => {
            let mut all = eno_ports(alloc, enable)?;
            all.push(Port {
                pin: b"OUT",
                ty: out_type(*func, *ty),
            })?;
            Ok(all)
        }
        ElementKind::Call {
            enable,
            outputs,
            ..
        } => {
            let all = eno_ports(alloc, enable)?;
            Ok(with_outputs(all, outputs.as_slice())?)
        }
    }
}

/// Whether an element remembers a value at its edge.
pub fn has_edge(kind: &ElementKind) -> bool
    ensures { result ≡ has_edge (shown_kind kind.now) }
{
    match kind {
        ElementKind::Contact { how, .. } => {
            matches!(how, Contacting::Rising | Contacting::Falling)
        }
        ElementKind::Coil { how, .. } => matches!(how, Coiling::Rising | Coiling::Falling),
        _ => false,
    }
}

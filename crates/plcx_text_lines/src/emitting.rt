//! What is prepared, one thing behind another.
ghost use Rattle.std.specs.Prelude.{◌≡◌, ◌∷◌, ◌++◌, [], IfOk};
ghost use Rattle.plcx_text_pieces.specs.Pieces.{nothing, one_line, fixed_piece, wire_value};
ghost use Rattle.plcx_text_lines.specs.Added.{start_of, Adds, Opens, Closes};

use plcx_steps::{Action, Argument, Operand, Source};
use plcx_text_steps::{Arm, Line, Section};
use plcx_types::{NoMemory, Ty, Val, default_of};
use std::alloc::Global;

/// What is prepared of bodies: the lines of one, and what stands beside them: the inputs of functions, what in-outs are
/// bound to, sections, the arms of choices, and the wires of the body as they begin.
#[derive(Debug, Drop)]
pub struct Prepared {
    pub lines: Vec<Line>,
    pub arguments: Vec<Argument>,
    pub bindings: Vec<Operand>,
    pub sections: Vec<Section>,
    pub arms: Vec<Arm>,
    pub wires: Vec<Val>,
}

/// One more.
pub(crate) fn put<T: Drop>(mut items: Vec<T>, item: T) -> Result<Vec<T>, NoMemory>
    ensures { IfOk result (λ more. more.items ≡ items.items ++ item ∷ []) }
{
    items.push(item)?;
    Ok(items)
}

/// Lines more.
pub(crate) fn with_lines(before: Prepared, more: &[Line]) -> Result<Prepared, NoMemory>
    ensures { IfOk result (λ behind. Adds (record nothing { lines = more.now }) before behind) }
{
    let Prepared {
        mut lines,
        arguments,
        bindings,
        sections,
        arms,
        wires,
    } = before;
    lines.extend_from_slice(more)?;
    Ok(Prepared {
        lines,
        arguments,
        bindings,
        sections,
        arms,
        wires,
    })
}

/// One line more.
pub(crate) fn with_line(before: Prepared, line: Line) -> Result<Prepared, NoMemory>
    ensures { IfOk result (λ behind. Adds (one_line line) before behind) }
{
    let Prepared {
        lines,
        arguments,
        bindings,
        sections,
        arms,
        wires,
    } = before;
    let _no_action: Option<Action> = None;
    let _no_source: Option<Source> = None;
    let lines = put(lines, line)?;
    Ok(Prepared {
        lines,
        arguments,
        bindings,
        sections,
        arms,
        wires,
    })
}

/// What a wire for a value of a type begins with.
fn wire_value(ty: Ty) -> Val
    ensures { result ≡ wire_value ty }
{
    default_of(ty)
}

/// A wire of a type more.
pub(crate) fn with_wire(before: Prepared, ty: Ty) -> Result<Prepared, NoMemory>
    ensures { IfOk result (λ behind. Adds (record nothing { wires = wire_value ty ∷ [] }) before behind) }
{
    let Prepared {
        lines,
        arguments,
        bindings,
        sections,
        arms,
        wires,
    } = before;
    let wires = put(wires, wire_value(ty))?;
    Ok(Prepared {
        lines,
        arguments,
        bindings,
        sections,
        arms,
        wires,
    })
}

/// A value is brought into a wire of its own.
#[tactic(auto, using(crate::proofs::Adding::adds_then))]
pub(crate) fn fixed(before: Prepared, source: Source, ty: Ty) -> Result<Prepared, NoMemory>
    ensures { IfOk result (λ behind. Adds (fixed_piece (start_of before) source ty) before behind) }
{
    let wire = before.wires.len();
    let behind = with_line(before, Line::Act(Action::Fix { source, wire }))?;
    Ok(with_wire(behind, ty)?)
}

/// The inputs of a function more.
pub(crate) fn with_arguments(before: Prepared, more: &[Argument]) -> Result<Prepared, NoMemory>
    ensures { IfOk result (λ behind. Adds (record nothing { arguments = more.now }) before behind) }
{
    let Prepared {
        lines,
        mut arguments,
        bindings,
        sections,
        arms,
        wires,
    } = before;
    arguments.extend_from_slice(more)?;
    Ok(Prepared {
        lines,
        arguments,
        bindings,
        sections,
        arms,
        wires,
    })
}

/// Bindings more.
pub(crate) fn with_bindings(before: Prepared, more: &[Operand]) -> Result<Prepared, NoMemory>
    ensures { IfOk result (λ behind. Adds (record nothing { bindings = more.now }) before behind) }
{
    let Prepared {
        lines,
        arguments,
        mut bindings,
        sections,
        arms,
        wires,
    } = before;
    bindings.extend_from_slice(more)?;
    Ok(Prepared {
        lines,
        arguments,
        bindings,
        sections,
        arms,
        wires,
    })
}

/// The arms of a choice more.
pub(crate) fn with_arms(before: Prepared, more: &[Arm]) -> Result<Prepared, NoMemory>
    ensures { IfOk result (λ behind. Adds (record nothing { arms = more.now }) before behind) }
{
    let Prepared {
        lines,
        arguments,
        bindings,
        sections,
        mut arms,
        wires,
    } = before;
    arms.extend_from_slice(more)?;
    Ok(Prepared {
        lines,
        arguments,
        bindings,
        sections,
        arms,
        wires,
    })
}

/// The same without lines, and the lines.
pub(crate) fn opened(alloc: Global, before: Prepared) -> (Prepared, Vec<Line>)
    ensures { Opens before result.0 result.1.items }
{
    let Prepared {
        lines,
        arguments,
        bindings,
        sections,
        arms,
        wires,
    } = before;
    let inner = Prepared {
        lines: Vec::new(alloc),
        arguments,
        bindings,
        sections,
        arms,
        wires,
    };
    (inner, lines)
}

/// The lines as a section of a POU, and its number; these lines stand in their place.
pub(crate) fn closed(
    pou: u32,
    inner: Prepared,
    outer: Vec<Line>,
) -> Result<(Prepared, usize), NoMemory>
    ensures { IfOk result (λ r. Closes pou inner outer.items r.0 r.1) }
{
    let Prepared {
        lines,
        arguments,
        bindings,
        sections,
        arms,
        wires,
    } = inner;
    let number = sections.len();
    let sections = put(sections, Section { pou, lines })?;
    let behind = Prepared {
        lines: outer,
        arguments,
        bindings,
        sections,
        arms,
        wires,
    };
    Ok((behind, number))
}

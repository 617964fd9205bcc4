//! Calls of functions.
ghost use Rattle.std.specs.Prelude.{◌≡◌, map, length, Some, IfOk};
ghost use Rattle.plcx_types.specs.declared.ty.Ty.{Ty};
ghost use Rattle.plcx_steps.specs.declared.program.Argument.{Argument};
ghost use Rattle.plcx_steps.specs.declared.program.Source.TheVariants.{Wire};
ghost use Rattle.plcx_text_numbered.specs.Prepared.{or_bool, group, named_lines};
ghost use Rattle.plcx_text_pieces.specs.Pieces.{nothing, applied_piece};
ghost use Rattle.plcx_text_lines.specs.Added.{start_of, Adds};

use crate::emitting::{Prepared, with_arguments, with_line, with_wire};
use plcx_funcs::Func;
use plcx_signatures::group_index;
use plcx_steps::{Action, Argument, Source};
use plcx_text_steps::Line;
use plcx_types::{NoMemory, Ty};
use std::alloc::Global;

/// The types of inputs.
pub(crate) fn types_of(alloc: Global, inputs: &[Argument]) -> Result<Vec<Ty>, NoMemory>
    ensures { IfOk result (λ types. types.items ≡ map (λ (a : Argument). a.ty) inputs.now) }
{
    let mut types = Vec::new(alloc);
    for input in inputs {
        types.push(input.ty)?;
    }
    Ok(types)
}

/// The type, BOOL where there is none.
pub(crate) fn or_bool(ty: Option<Ty>) -> Ty
    ensures { result ≡ or_bool ty }
{
    ty.unwrap_or(Ty::Bool)
}

/// The type of the group of a function with these inputs.
#[tactic(auto, using(crate::proofs::Types::group_is, crate::proofs::Types::no_group))]
fn group(func: Func, inputs: &[Argument]) -> Ty
    ensures { result ≡ group func inputs.now }
{
    match inputs.get(group_index(func)) {
        None => Ty::Bool,
        Some(input) => input.ty,
    }
}

/// The call of a function, if there is one, for these inputs, which are the next of the program's.
fn with_call(
    before: Prepared,
    func: Option<Func>,
    inputs: &[Argument],
) -> Result<Prepared, NoMemory>
    ensures { IfOk result (λ behind. Adds (record nothing { lines = named_lines func inputs.now (length before.arguments.items) (length before.wires.items) }) before behind) }
{
    match func {
        None => Ok(before),
        Some(func) => {
            let action = Action::Apply {
                func,
                ty: group(func, inputs),
                first: before.arguments.len(),
                count: inputs.len(),
                wire: before.wires.len(),
            };
            Ok(with_line(before, Line::Act(action))?)
        }
    }
}

/// A call of a function, if there is one, for these inputs and with a result of this type: its line, its inputs, and the
/// wire that gets its value.
#[tactic(auto, using(crate::proofs::Adding::adds_three))]
pub(crate) fn applied(
    before: Prepared,
    func: Option<Func>,
    inputs: &[Argument],
    ty: Ty,
) -> Result<(Prepared, Argument), NoMemory>
    ensures added { IfOk result (λ r. Adds (applied_piece (start_of before) func inputs.now ty) before r.0) }
    ensures value { IfOk result (λ r. r.1 ≡ record { ty = ty; source = Wire (length before.wires.items) }) }
{
    let source = Source::Wire(before.wires.len());
    let called = with_call(before, func, inputs)?;
    let given = with_arguments(called, inputs)?;
    let behind = with_wire(given, ty)?;
    Ok((behind, Argument { ty, source }))
}

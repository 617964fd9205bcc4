//! Assignments, and calls of instances.
ghost use Rattle.std.specs.Prelude.{◌≡◌, ◌++◌, ◌∷◌, ℕ, List, [], map, length, IfOk};
ghost use Rattle.plcx_types.specs.Lists.{Each};
ghost use Rattle.plcx_meaning.specs.Tree as tree;
ghost use Rattle.plcx_meaning.specs.Execute.{formal};
ghost use Rattle.plcx_meaning.specs.Typed.{part_in};
ghost use Rattle.plcx_st.specs.Meant.{expr_meant, arg_meant};
ghost use Rattle.plcx_text_numbered.specs.Numbers.{operand_at, operand_in, bound_operand, bound_operands};
ghost use Rattle.plcx_text_numbered.specs.Statements.{store_line};
ghost use Rattle.plcx_text_pieces.specs.Pieces.{nothing, assign_piece, bindings_for, called_lines, call_piece};
ghost use Rattle.plcx_text_lines.specs.Shown.{shown_place, shown_callee};
ghost use Rattle.plcx_text_lines.specs.Added.{start_of, Adds, HasValue, Suits, TakesOne, Takes, formals};

use crate::emitting::{Prepared, fixed, put, with_bindings, with_line, with_lines};
use crate::expressions::expression;
use crate::numbers::{Callee, Formal, Numbers, Place};
use plcx_known::Names;
use plcx_st::{Arg, Expr, Word};
use plcx_steps::{Action, Operand, Source};
use plcx_text_steps::Line;
use plcx_types::NoMemory;
use std::alloc::Global;

/// A value goes to the place of a variable.
fn store_line(place: Place, source: Source) -> Line
    ensures { result ≡ store_line (shown_place place) source }
{
    match place {
        Place::Held(wire) => Line::Act(Action::Fix { source, wire }),
        Place::Stored(to) => Line::Act(Action::Write { to, source }),
    }
}

/// An assignment.
#[tactic(auto, using(crate::proofs::Calling::assigns))]
pub(crate) fn assign<N: Numbers>(
    numbers: &N,
    alloc: Global,
    before: Prepared,
    target: &Word,
    value: &Expr,
) -> Result<Prepared, NoMemory>
    ensures { IfOk result (λ behind. HasValue (N.numbers numbers.now).names.scope (expr_meant value.now)
        → Adds (assign_piece (N.numbers numbers.now).names (start_of before) target.now.name (expr_meant value.now)) before behind) }
{
    let named = numbers.named(alloc, target.name.text())?;
    let (valued, value) = expression(numbers, alloc, before, value)?;
    Ok(with_line(valued, store_line(named.place, value.source))?)
}

/// The value of an argument, brought into a wire where it is an input, and the lines that store the values more.
#[tactic(auto, using(crate::proofs::Calling::takes_input, crate::proofs::Calling::takes_binding, crate::proofs::Calling::takes_nothing))]
fn taken<N: Numbers>(
    numbers: &N,
    alloc: Global,
    before: Prepared,
    stores: Vec<Line>,
    instance: &[u8],
    arg: &Arg,
) -> Result<(Prepared, Vec<Line>), NoMemory>
    ensures { IfOk result (λ r. Suits (N.numbers numbers.now).names.scope instance.now (arg_meant arg.now)
        → TakesOne (N.numbers numbers.now).names instance.now (arg_meant arg.now) before r.0 stores.items r.1.items) }
{
    let part = numbers.part(alloc, instance, arg.formal.name.text())?;
    match part.formal {
        Formal::Takes(ty) => {
            let (valued, value) = expression(numbers, alloc, before, &arg.value)?;
            let wire = valued.wires.len();
            let behind = fixed(valued, value.source, ty)?;
            let to = Operand::Leaf(part.leaf);
            let source = Source::Wire(wire);
            let more = put(stores, Line::Act(Action::Write { to, source }))?;
            Ok((behind, more))
        }
        Formal::Binds(_) | Formal::NoFormal => Ok((before, stores)),
    }
}

/// The arguments of a call: the values of its inputs, brought into wires, and the lines that store them.
fn all_taken<N: Numbers>(
    numbers: &N,
    alloc: Global,
    before: Prepared,
    instance: &[u8],
    args: &[Arg],
) -> Result<(Prepared, Vec<Line>), NoMemory>
    ensures { IfOk result (λ r. Each (Suits (N.numbers numbers.now).names.scope instance.now) (map arg_meant args.now)
        → Takes (N.numbers numbers.now).names instance.now (map arg_meant args.now) before r.0 r.1.items) }
{
    let mut all = before;
    let mut stores = Vec::new(alloc);
    for arg in args {
        let (next, more) = taken(numbers, alloc, all, stores, instance, arg)?;
        all = next;
        stores = more;
    }
    Ok((all, stores))
}

/// The leaf or in-out at a place; a temporary is none.
fn operand_at(place: Place) -> Operand
    ensures { result ≡ operand_at (shown_place place) }
{
    match place {
        Place::Held(_) => Operand::Leaf(0),
        Place::Stored(operand) => operand,
    }
}

/// The variable that an expression names.
fn operand_in<N: Numbers>(numbers: &N, alloc: Global, x: &Expr) -> Result<Operand, NoMemory>
    ensures { IfOk result (λ o. o ≡ operand_in (N.numbers numbers.now).names (expr_meant x.now)) }
{
    match x {
        Expr::Name(name) => {
            let named = numbers.named(alloc, name.name.text())?;
            Ok(operand_at(named.place))
        }
        Expr::Number(_) => Ok(Operand::Leaf(0)),
        Expr::Member { .. } => Ok(Operand::Leaf(0)),
        Expr::Call { .. } => Ok(Operand::Leaf(0)),
        Expr::Not { .. } => Ok(Operand::Leaf(0)),
        Expr::Binary { .. } => Ok(Operand::Leaf(0)),
    }
}

/// The formal names of arguments.
fn formals_of<'a>(alloc: Global, args: &'a [Arg]) -> Result<Vec<&'a [u8]>, NoMemory>
    ensures { IfOk result (λ names. map (λ s. s.now) names.items ≡ formals args.now) }
{
    let mut names = Vec::new(alloc);
    for arg in args {
        names.push(arg.formal.name.text())?;
    }
    Ok(names)
}

/// The first argument of a name.
fn argument_for<'a>(
    alloc: Global,
    args: &'a [Arg],
    names: &Names,
    name: &[u8],
) -> Result<Option<&'a Arg>, NoMemory>
    ensures { IfOk result (λ arg. option_copied arg ≡ option_and_then (slice_get args.entry.now) (first_place name.now names.now)) }
{
    match names.place(alloc, name)? {
        None => Ok(None),
        Some(place) => Ok(args.get(place)),
    }
}

ghost use Rattle.std.specs.Prelude.{option_copied, option_and_then, slice_get};
ghost use Rattle.plcx_known.specs.Names.{first_place};

/// What an in-out is bound to.
#[tactic(auto, using(crate::proofs::Bindings::bound_none, crate::proofs::Bindings::bound_here))]
fn bound_operand<N: Numbers>(
    numbers: &N,
    alloc: Global,
    args: &[Arg],
    names: &Names,
    name: &[u8],
) -> Result<Operand, NoMemory>
    requires { names.now ≡ formals args.now }
    ensures { IfOk result (λ o. o ≡ bound_operand (N.numbers numbers.now).names (map arg_meant args.now) (in_lower_case name.now)) }
{
    match argument_for(alloc, args, names, name)? {
        None => Ok(Operand::Leaf(0)),
        Some(arg) => Ok(operand_in(numbers, alloc, &arg.value)?),
    }
}

ghost use Rattle.plcx_types.specs.Name.{in_lower_case};

/// What in-outs of these names are bound to.
fn bound_operands<N: Numbers>(
    numbers: &N,
    alloc: Global,
    args: &[Arg],
    in_outs: &[&[u8]],
) -> Result<Vec<Operand>, NoMemory>
    ensures { IfOk result (λ operands. operands.items ≡ bound_operands (N.numbers numbers.now).names (map arg_meant args.now) (map (λ n. in_lower_case n.now) in_outs.now)) }
{
    let formals = Names::of(alloc, formals_of(alloc, args)?)?;
    let mut operands = Vec::new(alloc);
    for name in in_outs {
        operands.push(bound_operand(numbers, alloc, args, &formals, *name)?)?;
    }
    Ok(operands)
}

/// The call itself.
#[tactic(auto, using(crate::proofs::Calling::runs_block, crate::proofs::Calling::runs_user))]
fn run<N: Numbers>(
    numbers: &N,
    alloc: Global,
    before: Prepared,
    callee: Callee,
    args: &[Arg],
) -> Result<Prepared, NoMemory>
    ensures { IfOk result (λ behind. Adds (record nothing {
      lines = called_lines (shown_callee callee.entry) (length before.bindings.items);
      bindings = bindings_for (N.numbers numbers.now).names (shown_callee callee.entry) (map arg_meant args.now);
    }) before behind) }
{
    match callee {
        Callee::Block { kind, leaf } => {
            Ok(with_line(before, Line::Act(Action::Standard { kind, leaves: leaf }))?)
        }
        Callee::User {
            pou,
            leaves,
            in_outs,
        } => {
            let first = before.bindings.len();
            let count = in_outs.len();
            let line = Line::Call {
                pou,
                leaves,
                first,
                count,
            };
            let called = with_line(before, line)?;
            let operands = bound_operands(numbers, alloc, args, in_outs)?;
            Ok(with_bindings(called, &operands)?)
        }
    }
}

/// A call of an instance.
#[tactic(auto, using(crate::proofs::Calling::calls))]
pub(crate) fn call<N: Numbers>(
    numbers: &N,
    alloc: Global,
    before: Prepared,
    instance: &Word,
    args: &[Arg],
) -> Result<Prepared, NoMemory>
    ensures { IfOk result (λ behind. Each (Suits (N.numbers numbers.now).names.scope instance.now.name) (map arg_meant args.now)
        → Adds (call_piece (N.numbers numbers.now) (start_of before) instance.now.name (map arg_meant args.now)) before behind) }
{
    let name = instance.name.text();
    let (taken, stores) = all_taken(numbers, alloc, before, name, args)?;
    let stored = with_lines(taken, &stores)?;
    let callee = numbers.callee(alloc, name)?;
    Ok(run(numbers, alloc, stored, callee, args)?)
}

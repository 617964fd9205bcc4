//! Expressions.
ghost use Rattle.std.specs.Prelude.{◌≡◌, ℕ, map, IfOk};
ghost use Rattle.plcx_types.specs.Lists.{Each};
ghost use Rattle.plcx_types.specs.Range.{InRange};
ghost use Rattle.plcx_meaning.specs.Tree as tree;
ghost use Rattle.plcx_st.specs.Meant.{number_meant, expr_meant};
ghost use Rattle.plcx_text_numbered.specs.Prepared.{Numbering, argument, place_source};
ghost use Rattle.plcx_text_lines.specs.Shown.{shown_place};
ghost use Rattle.plcx_text_lines.specs.Added.{HasValue, Brings, BringsAll};

use crate::emitting::{Prepared, put};
use crate::functions::{applied, or_bool, types_of};
use crate::numbers::{Numbers, Place};
use plcx_funcs::{Func, lookup};
use plcx_signatures::{call_type, function_of, result_type};
use plcx_st::{Expr, Number, Op, Word};
use plcx_steps::{Argument, Operand, Source};
use plcx_types::{NoMemory, Val, default_of};
use std::alloc::Global;

/// A literal.
fn number(n: &Number) -> Argument
    ensures { (c : Numbering) (w : ℕ) → InRange n.now.ty n.now.n → result ≡ argument c w (tree.Number (number_meant n.now)) }
{
    let value = Val::new(n.ty, n.n).unwrap_or(default_of(n.ty));
    Argument {
        ty: n.ty,
        source: Source::Constant(value),
    }
}

/// What has the value of a variable.
fn place_source(place: Place) -> Source
    ensures { result ≡ place_source (shown_place place) }
{
    match place {
        Place::Held(wire) => Source::Wire(wire),
        Place::Stored(operand) => Source::Variable(operand),
    }
}

/// A variable.
fn name<N: Numbers>(numbers: &N, alloc: Global, name: &Word) -> Result<Argument, NoMemory>
    ensures { IfOk result (λ a. (w : ℕ) → a ≡ argument (N.numbers numbers.now).names w (tree.Name name.now.name)) }
{
    let named = numbers.named(alloc, name.name.text())?;
    Ok(Argument {
        ty: named.ty,
        source: place_source(named.place),
    })
}

/// An output of an instance.
fn member<N: Numbers>(
    numbers: &N,
    alloc: Global,
    instance: &Word,
    output: &Word,
) -> Result<Argument, NoMemory>
    ensures { IfOk result (λ a. (w : ℕ) → a ≡ argument (N.numbers numbers.now).names w (tree.Member instance.now.name output.now.name)) }
{
    let part = numbers.part(alloc, instance.name.text(), output.name.text())?;
    let operand = Operand::Leaf(part.leaf);
    Ok(Argument {
        ty: part.ty,
        source: Source::Variable(operand),
    })
}

/// NOT of what is prepared.
fn negated(before: Prepared, operand: Argument) -> Result<(Prepared, Argument), NoMemory>
    ensures added { IfOk result (λ r. Adds (applied_piece (start_of before) (Some Not) (operand ∷ []) (or_bool (result_type Not (operand.ty ∷ [])))) before r.0) }
    ensures value { IfOk result (λ r. r.1 ≡ record { ty = or_bool (result_type Not (operand.ty ∷ [])); source = Wire (length before.wires.items) }) }
{
    let types = [operand.ty];
    let ty = or_bool(result_type(Func::Not, types.as_slice()));
    let inputs = [operand];
    Ok(applied(before, Some(Func::Not), inputs.as_slice(), ty)?)
}

/// An operator between what is prepared.
fn joined(
    before: Prepared,
    op: Op,
    left: Argument,
    right: Argument,
) -> Result<(Prepared, Argument), NoMemory>
    ensures added { IfOk result (λ r. let f = function_of (op_meant op) in
        Adds (applied_piece (start_of before) (Some f) (left ∷ right ∷ []) (or_bool (result_type f (left.ty ∷ right.ty ∷ [])))) before r.0) }
    ensures value { IfOk result (λ r. let f = function_of (op_meant op) in r.1 ≡ record { ty = or_bool (result_type f (left.ty ∷ right.ty ∷ [])); source = Wire (length before.wires.items) }) }
{
    let func = function_of(op);
    let types = [left.ty, right.ty];
    let ty = or_bool(result_type(func, types.as_slice()));
    let inputs = [left, right];
    Ok(applied(before, Some(func), inputs.as_slice(), ty)?)
}

/// A call of the function of a name.
fn called(
    alloc: Global,
    before: Prepared,
    function: &Word,
    inputs: &[Argument],
) -> Result<(Prepared, Argument), NoMemory>
    ensures added { IfOk result (λ r. let f = function_named function.now.name in
        Adds (applied_piece (start_of before) f inputs.now (or_bool (call_type f (map (λ (a : Input). a.ty) inputs.now)))) before r.0) }
    ensures value { IfOk result (λ r. r.1 ≡ record {
      ty = or_bool (call_type (function_named function.now.name) (map (λ (a : Input). a.ty) inputs.now));
      source = Wire (length before.wires.items);
    }) }
{
    let func = lookup(function.name.text());
    let types = types_of(alloc, inputs)?;
    let ty = or_bool(call_type(func, Some(types.as_slice())));
    Ok(applied(before, func, inputs, ty)?)
}

ghost use Rattle.std.specs.Prelude.{◌∷◌, [], Some, length};
ghost use Rattle.plcx_funcs.specs.declared.func.Func.TheVariants.{Not};
ghost use Rattle.plcx_funcs.specs.Names.{function_named};
ghost use Rattle.plcx_meaning.specs.Execute.{function_of};
ghost use Rattle.plcx_meaning.specs.Typed.{result_type, call_type};
ghost use Rattle.plcx_st.specs.Meant.{op_meant};
ghost use Rattle.plcx_steps.specs.declared.program.Argument as input;
ghost use Rattle.plcx_steps.specs.declared.program.Argument.{Argument as Input};
ghost use Rattle.plcx_steps.specs.declared.program.Source.TheVariants.{Wire};
ghost use Rattle.plcx_text_numbered.specs.Prepared.{or_bool};
ghost use Rattle.plcx_text_pieces.specs.Pieces.{applied_piece};
ghost use Rattle.plcx_text_lines.specs.Added.{start_of, Adds};

/// An expression.
#[cycle(expression)]
pub(crate) fn expression<N: Numbers>(
    numbers: &N,
    alloc: Global,
    before: Prepared,
    x: &Expr,
) -> Result<(Prepared, Argument), NoMemory>
    ensures { IfOk result (λ r. HasValue (N.numbers numbers.now).names.scope (expr_meant x.now) → Brings (N.numbers numbers.now).names (expr_meant x.now) before r.0 r.1) }
{
    match x {
        Expr::Number(n) => Ok((before, number(n))),
        Expr::Name(word) => {
            let argument = name(numbers, alloc, word)?;
            Ok((before, argument))
        }
        Expr::Member { instance, output } => {
            let argument = member(numbers, alloc, instance, output)?;
            Ok((before, argument))
        }
        Expr::Call { function, args } => {
            let (given, inputs) = expressions(numbers, alloc, before, args.as_slice())?;
            Ok(called(alloc, given, function, &inputs)?)
        }
        Expr::Not { operand, .. } => {
            let (given, operand) = expression(numbers, alloc, before, operand.get())?;
            Ok(negated(given, operand)?)
        }
        Expr::Binary { op, left, right } => {
            let (first, left) = expression(numbers, alloc, before, left.get())?;
            let (second, right) = expression(numbers, alloc, first, right.get())?;
            Ok(joined(second, *op, left, right)?)
        }
    }
}

/// The inputs of a function.
#[cycle(expression)]
fn expressions<N: Numbers>(
    numbers: &N,
    alloc: Global,
    before: Prepared,
    args: &[Expr],
) -> Result<(Prepared, Vec<Argument>), NoMemory>
    ensures { IfOk result (λ r. Each (HasValue (N.numbers numbers.now).names.scope) (map expr_meant args.now)
        → BringsAll (N.numbers numbers.now).names (map expr_meant args.now) before r.0 r.1.items) }
{
    let mut all = before;
    let mut inputs = Vec::new(alloc);
    for x in args {
        let (next, input) = expression(numbers, alloc, all, x)?;
        inputs = put(inputs, input)?;
        all = next;
    }
    Ok((all, inputs))
}

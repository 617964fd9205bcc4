//! Calls of functions as expressions: with an operator of their own, or by their names.
ghost use Rattle.std.specs.Prelude.{◌≡◌, map, IfOk};
ghost use Rattle.plcx_types.specs.Lists.{Each};
ghost use Rattle.plcx_meaning.specs.Tree.{Binary, Apply, expressions};
ghost use Rattle.plcx_meaning.specs.Templates.{link_text, chain, compared, neighbours, negation, function_text};
ghost use Rattle.plcx_funcs.specs.Names.{function_name};
ghost use Rattle.plcx_st.specs.Meant.{expr_meant, op_meant};
ghost use Rattle.plcx_st.specs.InRange.{ExpressionInRange};
ghost use Rattle.plcx_drawn.specs.Shown.{shown_link};

use crate::expressions::{binary, link_value, truth, turned};
use crate::words::function_word;
use plcx_drawn::Link;
use plcx_funcs::Func;
use plcx_st::{Expr, Op};
use plcx_types::NoMemory;
use sqlite_items::Items;
use std::alloc::Global;

/// What stands at each pin, in their order.
fn link_values(alloc: Global, links: &[Link]) -> Result<Vec<Expr>, NoMemory>
    requires { Each ExpressionInRange (map link_text (map shown_link links.now)) }
    ensures { IfOk result (λ values. map expr_meant values.items ≡ map link_text (map shown_link links.now)) }
{
    let mut values = Vec::with_capacity(alloc, links.len())?;
    for link in links {
        values.push(link_value(alloc, link)?)?;
    }
    Ok(values)
}

/// An expression and inputs joined by an operator, from the left.
fn folded(alloc: Global, op: Op, first: Expr, inputs: &[Link]) -> Result<Expr, NoMemory>
    requires { Each ExpressionInRange (map link_text (map shown_link inputs.now)) }
    ensures { IfOk result (λ e. expr_meant e ≡ fold (Binary (op_meant op)) (expr_meant first) (map link_text (map shown_link inputs.now))) }
{
    let mut value = first;
    for input in inputs {
        value = binary(alloc, op, value, link_value(alloc, input)?)?;
    }
    Ok(value)
}

ghost use Rattle.std.specs.List.{fold};

/// The inputs joined by an operator, from the left.
fn chained(alloc: Global, op: Op, inputs: &[Link]) -> Result<Expr, NoMemory>
    requires { ExpressionInRange (chain (op_meant op) (map link_text (map shown_link inputs.now))) }
    ensures { IfOk result (λ e. expr_meant e ≡ chain (op_meant op) (map link_text (map shown_link inputs.now))) }
{
    match inputs {
        [] => Ok(truth(true)),
        [first, others @ ..] => folded(alloc, op, link_value(alloc, first)?, others),
    }
}

/// Two inputs compared.
fn comparison(alloc: Global, op: Op, left: &Link, right: &Link) -> Result<Expr, NoMemory>
    requires left { ExpressionInRange (link_text (shown_link left.now)) }
    requires right { ExpressionInRange (link_text (shown_link right.now)) }
    ensures { IfOk result (λ e. expr_meant e ≡ Binary (op_meant op) (link_text (shown_link left.now)) (link_text (shown_link right.now))) }
{
    let left = link_value(alloc, left)?;
    binary(alloc, op, left, link_value(alloc, right)?)
}

/// An expression, and behind it by AND each further input compared with the one before it.
fn compared<'a>(
    alloc: Global,
    op: Op,
    so_far: Expr,
    before: &'a Link<'a>,
    inputs: &'a [Link<'a>],
) -> Result<Expr, NoMemory>
    requires before { ExpressionInRange (link_text (shown_link before.now)) }
    requires inputs { Each ExpressionInRange (map link_text (map shown_link inputs.now)) }
    ensures { IfOk result (λ e. expr_meant e
        ≡ compared (op_meant op) (expr_meant so_far) (link_text (shown_link before.now)) (map link_text (map shown_link inputs.now))) }
{
    let mut value = so_far;
    let mut last = before;
    for input in inputs {
        value = binary(alloc, Op::And, value, comparison(alloc, op, last, input)?)?;
        last = input;
    }
    Ok(value)
}

/// Each input compared with the next one, joined by AND.
fn neighbours(alloc: Global, op: Op, inputs: &[Link]) -> Result<Expr, NoMemory>
    requires { ExpressionInRange (neighbours (op_meant op) (map link_text (map shown_link inputs.now))) }
    ensures { IfOk result (λ e. expr_meant e ≡ neighbours (op_meant op) (map link_text (map shown_link inputs.now))) }
{
    match inputs {
        [] | [_] => Ok(truth(true)),
        [first, second, others @ ..] => {
            let value = comparison(alloc, op, first, second)?;
            compared(alloc, op, value, second, others)
        }
    }
}

/// The one input under NOT.
fn negation(alloc: Global, inputs: &[Link]) -> Result<Expr, NoMemory>
    requires { ExpressionInRange (negation (map link_text (map shown_link inputs.now))) }
    ensures { IfOk result (λ e. expr_meant e ≡ negation (map link_text (map shown_link inputs.now))) }
{
    match inputs {
        [] => Ok(truth(true)),
        [input, ..] => turned(alloc, link_value(alloc, input)?),
    }
}

/// A function called by its name.
fn called(alloc: Global, func: Func, inputs: &[Link]) -> Result<Expr, NoMemory>
    requires { ExpressionInRange (Apply (function_name func) (expressions (map link_text (map shown_link inputs.now)))) }
    ensures { IfOk result (λ e. expr_meant e ≡ Apply (function_name func) (expressions (map link_text (map shown_link inputs.now)))) }
{
    let args = link_values(alloc, inputs)?;
    Ok(Expr::Call {
        function: function_word(alloc, func)?,
        args: Items::from_vec(args),
    })
}

/// A function of its inputs.
pub fn function_value(alloc: Global, func: Func, inputs: &[Link]) -> Result<Expr, NoMemory>
    requires { ExpressionInRange (function_text func (map link_text (map shown_link inputs.now))) }
    ensures { IfOk result (λ e. expr_meant e ≡ function_text func (map link_text (map shown_link inputs.now))) }
{
    match func {
        Func::Add => chained(alloc, Op::Plus, inputs),
        Func::Mul => chained(alloc, Op::Times, inputs),
        Func::Sub => chained(alloc, Op::Minus, inputs),
        Func::Div => chained(alloc, Op::Divide, inputs),
        Func::Mod => chained(alloc, Op::Mod, inputs),
        Func::And => chained(alloc, Op::And, inputs),
        Func::Or => chained(alloc, Op::Or, inputs),
        Func::Xor => chained(alloc, Op::Xor, inputs),
        Func::Not => negation(alloc, inputs),
        Func::Gt => neighbours(alloc, Op::Greater, inputs),
        Func::Ge => neighbours(alloc, Op::GreaterOrEqual, inputs),
        Func::Eq => neighbours(alloc, Op::Equal, inputs),
        Func::Le => neighbours(alloc, Op::LessOrEqual, inputs),
        Func::Lt => neighbours(alloc, Op::Less, inputs),
        Func::Ne => chained(alloc, Op::NotEqual, inputs),
        _ => called(alloc, func, inputs),
    }
}

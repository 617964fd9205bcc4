//! Statements.
ghost use Rattle.std.specs.Prelude.{◌≡◌, ◌++◌, map, length, IfOk};
ghost use Rattle.plcx_types.specs.Lists.{Each};
ghost use Rattle.plcx_meaning.specs.Tree as tree;
ghost use Rattle.plcx_meaning.specs.Ready.{StatementIsReady};
ghost use Rattle.plcx_st.specs.Meant.{expr_meant, stmt_meant};
ghost use Rattle.plcx_st.specs.Printer.{arm_meant};
ghost use Rattle.plcx_text_pieces.specs.Pieces.{statement_piece, statements_piece, value_piece};
ghost use Rattle.plcx_text_lines.specs.Added.{start_of, Adds, HasValue, AddsBoxed, AddsArms, ArmIsReady};

use crate::calls::{assign, call};
use crate::emitting::{Prepared, closed, opened, put, with_arms, with_line};
use crate::expressions::expression;
use crate::numbers::Numbers;
use plcx_st::{Expr, Stmt};
use plcx_steps::Source;
use plcx_text_steps::{Arm, Line};
use plcx_types::NoMemory;
use std::alloc::Global;

/// What is evaluated before each turn of a loop, as a section of its own: its number, and what has the value.
fn test<N: Numbers>(
    numbers: &N,
    alloc: Global,
    before: Prepared,
    cond: &Expr,
) -> Result<(Prepared, usize, Source), NoMemory>
    ensures added { IfOk result (λ r. HasValue (N.numbers numbers.now).names.scope (expr_meant cond.now)
        → AddsBoxed (N.numbers numbers.now).pou (value_piece (N.numbers numbers.now).names (start_of before) (expr_meant cond.now)) before r.0 r.1) }
    ensures source { IfOk result (λ r. HasValue (N.numbers numbers.now).names.scope (expr_meant cond.now)
        → r.2 ≡ source_of (N.numbers numbers.now).names (length before.wires.items) (expr_meant cond.now)) }
{
    let (inner, outer) = opened(alloc, before);
    let (tested, value) = expression(numbers, alloc, inner, cond)?;
    let (behind, number) = closed(numbers.pou(), tested, outer)?;
    Ok((behind, number, value.source))
}

ghost use Rattle.plcx_text_numbered.specs.Prepared.{source_of};

/// The choice of a CASE, by what is prepared before it.
fn choice(before: Prepared, source: Source, arms: &[Arm]) -> Result<Prepared, NoMemory>
    ensures { IfOk result (λ behind. Adds (chosen_piece (start_of before) source arms.now) before behind) }
{
    let first = before.arms.len();
    let count = arms.len();
    let line = Line::Case {
        source,
        first,
        count,
    };
    let chosen = with_line(before, line)?;
    Ok(with_arms(chosen, arms)?)
}

ghost use Rattle.plcx_text_pieces.specs.Pieces.{chosen_piece};

/// A statement.
#[cycle(statement)]
fn statement<N: Numbers>(
    numbers: &N,
    alloc: Global,
    before: Prepared,
    s: &Stmt,
) -> Result<Prepared, NoMemory>
    ensures { IfOk result (λ behind. StatementIsReady (N.numbers numbers.now).names.scope (stmt_meant s.now)
        → Adds (statement_piece (N.numbers numbers.now) (stmt_meant s.now) (start_of before)) before behind) }
{
    match s {
        Stmt::Assign { target, value } => Ok(assign(numbers, alloc, before, target, value)?),
        Stmt::Call { instance, args } => {
            Ok(call(numbers, alloc, before, instance, args.as_slice())?)
        }
        Stmt::If { cond, body } => {
            let (tested, test) = expression(numbers, alloc, before, cond)?;
            let (inner, section) = section(numbers, alloc, tested, body.as_slice())?;
            let line = Line::If {
                test: test.source,
                section,
            };
            Ok(with_line(inner, line)?)
        }
        Stmt::While { cond, body } => {
            let (tested, before, test) = test(numbers, alloc, before, cond)?;
            let (inner, section) = section(numbers, alloc, tested, body.as_slice())?;
            let line = Line::While {
                before,
                test,
                section,
            };
            Ok(with_line(inner, line)?)
        }
        Stmt::Case { value, arms } => {
            let (valued, value) = expression(numbers, alloc, before, value)?;
            let (inner, choices) = sections(numbers, alloc, valued, arms.as_slice())?;
            Ok(choice(inner, value.source, &choices)?)
        }
    }
}

/// Statements one after another.
#[cycle(statement)]
fn statements<N: Numbers>(
    numbers: &N,
    alloc: Global,
    before: Prepared,
    body: &[Stmt],
) -> Result<Prepared, NoMemory>
    ensures { IfOk result (λ behind. Each (StatementIsReady (N.numbers numbers.now).names.scope) (map stmt_meant body.now)
        → Adds (statements_piece (N.numbers numbers.now) (tree.statements (map stmt_meant body.now)) (start_of before)) before behind) }
{
    let mut all = before;
    for s in body {
        all = statement(numbers, alloc, all, s)?;
    }
    Ok(all)
}

/// Statements as a section of their own, and its number.
#[cycle(statement)]
fn section<N: Numbers>(
    numbers: &N,
    alloc: Global,
    before: Prepared,
    body: &[Stmt],
) -> Result<(Prepared, usize), NoMemory>
    ensures { IfOk result (λ r. Each (StatementIsReady (N.numbers numbers.now).names.scope) (map stmt_meant body.now) → AddsBoxed (N.numbers numbers.now).pou
        (statements_piece (N.numbers numbers.now) (tree.statements (map stmt_meant body.now)) (start_of before)) before r.0 r.1) }
{
    let (inner, outer) = opened(alloc, before);
    let done = statements(numbers, alloc, inner, body)?;
    Ok(closed(numbers.pou(), done, outer)?)
}

/// The sections of arms, and the arms by their labels.
#[cycle(statement)]
fn sections<N: Numbers>(
    numbers: &N,
    alloc: Global,
    before: Prepared,
    arms: &[plcx_st::Arm],
) -> Result<(Prepared, Vec<Arm>), NoMemory>
    ensures { IfOk result (λ r. Each (ArmIsReady (N.numbers numbers.now).names.scope) (map arm_meant arms.now)
        → AddsArms (N.numbers numbers.now) (tree.arms (map arm_meant arms.now)) before r.0 r.1.items) }
{
    let mut all = before;
    let mut choices = Vec::new(alloc);
    for arm in arms {
        let (next, section) = section(numbers, alloc, all, arm.body.as_slice())?;
        choices = put(
            choices,
            Arm {
                label: arm.label,
                section,
            },
        )?;
        all = next;
    }
    Ok((all, choices))
}

/// The statements of a body as a section, and its number.
pub fn with_body<N: Numbers>(
    numbers: &N,
    alloc: Global,
    before: Prepared,
    body: &[Stmt],
) -> Result<(Prepared, usize), NoMemory>
    requires { Each (StatementIsReady (N.numbers numbers.now).names.scope) (map stmt_meant body.now) }
    ensures { IfOk result (λ r. AddsBoxed (N.numbers numbers.now).pou
        (statements_piece (N.numbers numbers.now) (tree.statements (map stmt_meant body.now)) (start_of before)) before r.0 r.1) }
{
    Ok(section(numbers, alloc, before, body)?)
}

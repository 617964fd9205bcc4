ghost use Rattle.std.specs.Prelude.{◌≡◌, ◌≤◌, ◌<◌, ◌+◌, IfOk};
ghost use Rattle.plcx_read.specs.Reading as spec;
ghost use Rattle.plcx_read.specs.Gives.{Gives};

use crate::expression::expr;
use crate::lexeme::Lexeme;
use crate::lexemes::Lexemes;
use crate::lists::{parted, several};
use crate::token::{Read, behind, expect, next, room, same, sees, too_deep, unexpected};
use plcx_lex::TextError;
use plcx_st::{Arg, Arm, Expr, Stmt, Terminal};
use sqlite_items::Items;
use std::alloc::Global;

#[tactic(auto, unfolding(crate::specs::Reading::assigned, crate::specs::Reading::room_told))]
fn assigned<'t>(
    alloc: Global,
    end: u64,
    allowance: usize,
    name: &Lexeme<'t>,
    tokens: &Lexemes<'t>,
) -> Read<'t, Stmt>
    requires { allowance < 1000 }
    ensures gives { Gives end (λ x. (x.0, x.1, x.2)) result (spec.assigned allowance name.now tokens.now) }
    ensures within { IfOk result (λ x. x.1 ≤ allowance + 1) }
{
    if allowance == 0 {
        return Err(TextError::TooDeep {
            at: name.span().start,
        });
    }
    let (value, depth, rest) = expr(alloc, end, allowance, 0, &behind(tokens))?;
    let rest = expect(end, Terminal::Semicolon, &rest)?;
    let target = name.word(alloc)?;
    Ok((Stmt::Assign { target, value }, depth + 1, rest))
}

#[tactic(auto, unfolding(crate::specs::Reading::argument))]
fn argument<'t>(alloc: Global, end: u64, allowance: usize, tokens: &Lexemes<'t>) -> Read<'t, Arg>
    requires { allowance < 1000 }
    ensures gives { Gives end (λ x. (x.0, x.1, x.2)) result (spec.argument allowance tokens.now) }
    ensures within { IfOk result (λ x. x.1 ≤ allowance) }
{
    match tokens.split() {
        None => Err(unexpected(end, tokens)),
        Some((x, rest)) => {
            if !same(x.terminal(), Terminal::Name) {
                return Err(unexpected(end, tokens));
            }
            room(end, allowance, tokens)?;
            let rest = expect(end, Terminal::Assign, &rest)?;
            let (value, depth, rest) = expr(alloc, end, allowance, 0, &rest)?;
            let formal = x.word(alloc)?;
            Ok((Arg { formal, value }, depth, rest))
        }
    }
}

#[tactic(auto, unfolding(crate::specs::Reading::parted))]
fn arguments<'t>(
    alloc: Global,
    end: u64,
    allowance: usize,
    tokens: &Lexemes<'t>,
) -> Read<'t, Items<Arg>>
    requires { allowance < 1000 }
    ensures gives { Gives end (λ x. (x.0, x.1, x.2)) result (spec.list_of (spec.argument allowance) tokens.now) }
    ensures within { IfOk result (λ x. x.1 ≤ allowance) }
{
    parted!(
        alloc,
        end,
        tokens,
        |rest| argument(alloc, end, allowance, &rest)
    )
}

#[tactic(auto, unfolding(crate::specs::Reading::called_bare, crate::specs::Reading::called_with))]
fn called<'t>(
    alloc: Global,
    end: u64,
    allowance: usize,
    name: &Lexeme<'t>,
    tokens: &Lexemes<'t>,
) -> Read<'t, Stmt>
    requires { allowance < 1000 }
    ensures gives { Gives end (λ x. (x.0, x.1, x.2)) result (spec.called allowance name.now tokens.now) }
    ensures within { IfOk result (λ x. x.1 ≤ allowance + 1) }
{
    if sees(Terminal::Close, tokens) {
        let rest = expect(end, Terminal::Semicolon, &behind(tokens))?;
        let instance = name.word(alloc)?;
        let args = Items::new(alloc);
        Ok((Stmt::Call { instance, args }, 1, rest))
    } else {
        let (args, depth, rest) = arguments(alloc, end, allowance, tokens)?;
        let rest = expect(end, Terminal::Semicolon, &rest)?;
        let instance = name.word(alloc)?;
        Ok((Stmt::Call { instance, args }, depth + 1, rest))
    }
}

fn named<'t>(
    alloc: Global,
    end: u64,
    allowance: usize,
    name: &Lexeme<'t>,
    tokens: &Lexemes<'t>,
) -> Read<'t, Stmt>
    requires { allowance < 1000 }
    ensures gives { Gives end (λ x. (x.0, x.1, x.2)) result (spec.named_stmt_by allowance (spec.next tokens.now) name.now tokens.now) }
    ensures within { IfOk result (λ x. x.1 ≤ allowance + 1) }
{
    match next(tokens) {
        Terminal::Assign => assigned(alloc, end, allowance, name, tokens),
        Terminal::Open => called(alloc, end, allowance, name, &behind(tokens)),
        _ => Err(unexpected(end, tokens)),
    }
}

#[tactic(auto, unfolding(crate::specs::Reading::head))]
fn head<'t>(
    alloc: Global,
    end: u64,
    allowance: usize,
    terminal: Terminal,
    tokens: &Lexemes<'t>,
) -> Read<'t, Expr>
    requires { allowance < 1000 }
    ensures gives { Gives end (λ x. (x.0, x.1, x.2)) result (spec.head allowance terminal tokens.now) }
    ensures within { IfOk result (λ x. x.1 ≤ allowance) }
{
    room(end, allowance, tokens)?;
    let (x, depth, rest) = expr(alloc, end, allowance, 0, &behind(tokens))?;
    let rest = expect(end, terminal, &rest)?;
    Ok((x, depth, rest))
}

#[tactic(auto, unfolding(crate::specs::Reading::closed))]
fn closed<'t>(end: u64, terminal: Terminal, tokens: &Lexemes<'t>) -> Result<Lexemes<'t>, TextError>
    ensures { Gives end (λ x. x) result (spec.closed terminal tokens.now) }
{
    let rest = expect(end, terminal, tokens)?;
    expect(end, Terminal::Semicolon, &rest)
}

#[cycle(statement)]
#[tactic(auto, unfolding(crate::specs::Reading::conditional))]
fn conditional<'t>(
    alloc: Global,
    end: u64,
    allowance: usize,
    tokens: &Lexemes<'t>,
) -> Read<'t, Stmt>
    requires { allowance < 1000 }
    ensures gives { Gives end (λ x. (x.0, x.1, x.2)) result (spec.conditional allowance (spec.statements allowance) tokens.now) }
    ensures within { IfOk result (λ x. x.1 ≤ allowance + 1) }
{
    let (cond, at, rest) = head(alloc, end, allowance, Terminal::Then, tokens)?;
    let (body, depth, rest) = statements(alloc, end, allowance, &rest)?;
    let rest = closed(end, Terminal::EndIf, &rest)?;
    Ok((Stmt::If { cond, body }, at.max(depth) + 1, rest))
}

#[cycle(statement)]
#[tactic(auto, unfolding(crate::specs::Reading::repeated))]
fn repeated<'t>(alloc: Global, end: u64, allowance: usize, tokens: &Lexemes<'t>) -> Read<'t, Stmt>
    requires { allowance < 1000 }
    ensures gives { Gives end (λ x. (x.0, x.1, x.2)) result (spec.repeated allowance (spec.statements allowance) tokens.now) }
    ensures within { IfOk result (λ x. x.1 ≤ allowance + 1) }
{
    let (cond, at, rest) = head(alloc, end, allowance, Terminal::Do, tokens)?;
    let (body, depth, rest) = statements(alloc, end, allowance, &rest)?;
    let rest = closed(end, Terminal::EndWhile, &rest)?;
    Ok((Stmt::While { cond, body }, at.max(depth) + 1, rest))
}

#[cycle(statement)]
#[tactic(auto, unfolding(crate::specs::Reading::arm))]
fn arm<'t>(alloc: Global, end: u64, allowance: usize, tokens: &Lexemes<'t>) -> Read<'t, Arm>
    requires { allowance < 1000 }
    ensures gives { Gives end (λ x. (x.0, x.1, x.2)) result (spec.arm (spec.statements allowance) tokens.now) }
    ensures within { IfOk result (λ x. x.1 ≤ allowance) }
{
    match tokens.split() {
        None => Err(unexpected(end, tokens)),
        Some((x, rest)) => {
            if !same(x.terminal(), Terminal::Digits) {
                return Err(unexpected(end, tokens));
            }
            let rest = expect(end, Terminal::Colon, &rest)?;
            let (body, depth, rest) = statements(alloc, end, allowance, &rest)?;
            let arm = Arm {
                label: x.label(),
                span: x.span(),
                body,
            };
            Ok((arm, depth, rest))
        }
    }
}

fn begins_arm(terminal: Terminal) -> bool
    ensures { result ≡ spec.is_digits terminal }
{
    matches!(terminal, Terminal::Digits)
}

#[cycle(statement)]
#[tactic(auto, unfolding(crate::specs::Reading::several))]
fn arms<'t>(alloc: Global, end: u64, allowance: usize, tokens: &Lexemes<'t>) -> Read<'t, Items<Arm>>
    requires { allowance < 1000 }
    ensures gives { Gives end (λ x. (x.0, x.1, x.2)) result (spec.all_of spec.is_digits (spec.arm (spec.statements allowance)) tokens.now) }
    ensures within { IfOk result (λ x. x.1 ≤ allowance) }
{
    several!(
        alloc,
        end,
        tokens,
        begins_arm,
        |rest| arm(alloc, end, allowance, &rest)
    )
}

#[cycle(statement)]
#[tactic(auto, unfolding(crate::specs::Reading::selected))]
fn selected<'t>(alloc: Global, end: u64, allowance: usize, tokens: &Lexemes<'t>) -> Read<'t, Stmt>
    requires { allowance < 1000 }
    ensures gives { Gives end (λ x. (x.0, x.1, x.2)) result (spec.selected allowance (spec.statements allowance) tokens.now) }
    ensures within { IfOk result (λ x. x.1 ≤ allowance + 1) }
{
    let (value, at, rest) = head(alloc, end, allowance, Terminal::Of, tokens)?;
    let (arms, depth, rest) = arms(alloc, end, allowance, &rest)?;
    let rest = closed(end, Terminal::EndCase, &rest)?;
    Ok((Stmt::Case { value, arms }, at.max(depth) + 1, rest))
}

/// By its first token. The parts inside have the allowance.
#[cycle(statement)]
#[tactic(auto, unfolding(crate::specs::Reading::statement_of))]
fn statement_of<'t>(
    alloc: Global,
    end: u64,
    allowance: usize,
    tokens: &Lexemes<'t>,
) -> Read<'t, Stmt>
    requires { allowance < 1000 }
    ensures gives { Gives end (λ x. (x.0, x.1, x.2)) result (spec.statement_of allowance (spec.statements allowance) tokens.now) }
    ensures within { IfOk result (λ x. x.1 ≤ allowance + 1) }
{
    match tokens.split() {
        None => Err(unexpected(end, tokens)),
        Some((x, rest)) => match x.terminal() {
            Terminal::Name => named(alloc, end, allowance, &x, &rest),
            Terminal::If => conditional(alloc, end, allowance, tokens),
            Terminal::While => repeated(alloc, end, allowance, tokens),
            Terminal::Case => selected(alloc, end, allowance, tokens),
            _ => Err(unexpected(end, tokens)),
        },
    }
}

#[cycle(statement)]
#[tactic(auto, unfolding(crate::specs::Reading::statement))]
fn statement<'t>(alloc: Global, end: u64, allowance: usize, tokens: &Lexemes<'t>) -> Read<'t, Stmt>
    requires { allowance ≤ 1000 }
    ensures gives { Gives end (λ x. (x.0, x.1, x.2)) result (spec.statement allowance tokens.now) }
    ensures within { IfOk result (λ x. x.1 ≤ allowance) }
{
    if allowance == 0 {
        return Err(too_deep(end, tokens));
    }
    statement_of(alloc, end, allowance - 1, tokens)
}

fn begins_stmt(terminal: Terminal) -> bool
    ensures { result ≡ spec.begins_stmt terminal }
{
    matches!(
        terminal,
        Terminal::Name | Terminal::If | Terminal::While | Terminal::Case
    )
}

/// Statements of at most that depth.
#[cycle(statement)]
#[tactic(auto, unfolding(crate::specs::Reading::several))]
pub fn statements<'t>(
    alloc: Global,
    end: u64,
    allowance: usize,
    tokens: &Lexemes<'t>,
) -> Read<'t, Items<Stmt>>
    requires { allowance < 1000 }
    ensures gives { Gives end (λ x. (x.0, x.1, x.2)) result (spec.statements allowance tokens.now) }
    ensures within { IfOk result (λ x. x.1 ≤ allowance) }
{
    several!(
        alloc,
        end,
        tokens,
        begins_stmt,
        |rest| statement(alloc, end, allowance, &rest)
    )
}

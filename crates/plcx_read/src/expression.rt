ghost use Rattle.std.specs.Prelude.{◌≡◌, ◌≤◌, ◌<◌, [], ◌+◌, length, ℕ, IfOk};
ghost use Rattle.plcx_st.specs.Grammar.{operator};
ghost use Rattle.plcx_read.specs.Reading as spec;
ghost use Rattle.plcx_read.specs.Gives.{Gives};

use crate::lexeme::Lexeme;
use crate::lexemes::Lexemes;
use crate::lists::parted;
use crate::token::{Read, behind, expect, literal_at, name_at, next, room, too_deep, unexpected};
use plcx_lex::TextError;
use plcx_st::{Expr, Op, Terminal, level};
use sqlite_items::{Boxed, Items};
use std::alloc::{AllocError, Global};

fn operator(terminal: Terminal) -> Option<Op>
    ensures { result ≡ operator terminal }
{
    match terminal {
        Terminal::Or => Some(Op::Or),
        Terminal::Xor => Some(Op::Xor),
        Terminal::And => Some(Op::And),
        Terminal::Equal => Some(Op::Equal),
        Terminal::NotEqual => Some(Op::NotEqual),
        Terminal::Less => Some(Op::Less),
        Terminal::Greater => Some(Op::Greater),
        Terminal::LessOrEqual => Some(Op::LessOrEqual),
        Terminal::GreaterOrEqual => Some(Op::GreaterOrEqual),
        Terminal::Plus => Some(Op::Plus),
        Terminal::Minus => Some(Op::Minus),
        Terminal::Times => Some(Op::Times),
        Terminal::Divide => Some(Op::Divide),
        Terminal::Mod => Some(Op::Mod),
        _ => None,
    }
}

fn next_operator(least: u8, tokens: &Lexemes<'_>) -> Option<Op>
    ensures { result ≡ spec.next_operator least tokens.now }
{
    match operator(next(tokens)) {
        None => None,
        Some(op) => { if level(op) < least { None } else { Some(op) } }
    }
}

fn binary(alloc: Global, op: Op, left: Expr, right: Expr) -> Result<Expr, AllocError>
    ensures { IfOk result (λ e. e ≡ Expr.Binary op left right) }
{
    Ok(Expr::Binary {
        op,
        left: Boxed::new(alloc, left)?,
        right: Boxed::new(alloc, right)?,
    })
}

#[cycle(expr)]
#[tactic(auto, unfolding(crate::specs::Reading::parted))]
fn arguments<'t>(
    alloc: Global,
    end: u64,
    allowance: usize,
    tokens: &Lexemes<'t>,
) -> Read<'t, Items<Expr>>
    requires { allowance < 1000 }
    ensures gives { Gives end (λ x. (x.0, x.1, x.2)) result (spec.list_of (spec.expr allowance 0) tokens.now) }
    ensures within { IfOk result (λ x. x.1 ≤ allowance) }
{
    parted!(
        alloc,
        end,
        tokens,
        |rest| expr(alloc, end, allowance, 0, &rest)
    )
}

#[cycle(expr)]
#[tactic(auto, unfolding(crate::specs::Reading::call, crate::specs::Reading::room_told))]
fn call<'t>(
    alloc: Global,
    end: u64,
    allowance: usize,
    name: &Lexeme<'t>,
    tokens: &Lexemes<'t>,
) -> Read<'t, Expr>
    requires { allowance < 1000 }
    ensures gives { Gives end (λ x. (x.0, x.1, x.2)) result (spec.call allowance (spec.expr allowance) name.now tokens.now) }
    ensures within { IfOk result (λ x. x.1 ≤ allowance + 1) }
{
    if allowance == 0 {
        return Err(TextError::TooDeep {
            at: name.span().start,
        });
    }
    let (args, depth, rest) = arguments(alloc, end, allowance, &behind(tokens))?;
    let function = name.word(alloc)?;
    Ok((Expr::Call { function, args }, depth + 1, rest))
}

#[tactic(auto, unfolding(crate::specs::Reading::member))]
fn member<'t>(alloc: Global, end: u64, name: &Lexeme<'t>, tokens: &Lexemes<'t>) -> Read<'t, Expr>
    ensures gives { Gives end (λ x. (x.0, x.1, x.2)) result (spec.member name.now tokens.now) }
    ensures within { IfOk result (λ x. x.1 ≤ 1) }
{
    let (output, rest) = name_at(alloc, end, &behind(tokens))?;
    let instance = name.word(alloc)?;
    Ok((Expr::Member { instance, output }, 1, rest))
}

#[cycle(expr)]
#[tactic(auto, unfolding(crate::specs::Reading::bracketed))]
fn bracketed<'t>(alloc: Global, end: u64, allowance: usize, tokens: &Lexemes<'t>) -> Read<'t, Expr>
    requires { allowance < 1000 }
    ensures gives { Gives end (λ x. (x.0, x.1, x.2)) result (spec.bracketed allowance (spec.expr allowance) tokens.now) }
    ensures within { IfOk result (λ x. x.1 ≤ allowance + 1) }
{
    room(end, allowance, tokens)?;
    let (inner, depth, rest) = expr(alloc, end, allowance, 0, &behind(tokens))?;
    let rest = expect(end, Terminal::Close, &rest)?;
    Ok((inner, depth + 1, rest))
}

#[cycle(expr)]
#[tactic(auto, unfolding(crate::specs::Reading::negated))]
fn negated<'t>(
    alloc: Global,
    end: u64,
    allowance: usize,
    word: &Lexeme<'t>,
    tokens: &Lexemes<'t>,
) -> Read<'t, Expr>
    requires { allowance < 1000 }
    ensures gives { Gives end (λ x. (x.0, x.1, x.2)) result (spec.negated allowance (spec.expr allowance) word.now tokens.now) }
    ensures within { IfOk result (λ x. x.1 ≤ allowance + 1) }
{
    room(end, allowance, tokens)?;
    let (inner, depth, rest) = expr(alloc, end, allowance, 7, &behind(tokens))?;
    let node = Expr::Not {
        operand: Boxed::new(alloc, inner)?,
        span: word.span(),
    };
    Ok((node, depth + 1, rest))
}

#[cycle(expr)]
fn named<'t>(
    alloc: Global,
    end: u64,
    allowance: usize,
    name: &Lexeme<'t>,
    tokens: &Lexemes<'t>,
) -> Read<'t, Expr>
    requires { allowance < 1000 }
    ensures gives { Gives end (λ x. (x.0, x.1, x.2)) result (spec.named_by allowance (spec.expr allowance) (spec.next tokens.now) name.now tokens.now) }
    ensures within { IfOk result (λ x. x.1 ≤ allowance + 1) }
{
    match next(tokens) {
        Terminal::Open => call(alloc, end, allowance, name, tokens),
        Terminal::Dot => member(alloc, end, name, tokens),
        _ => Ok((Expr::Name(name.word(alloc)?), 1, tokens.same())),
    }
}

#[tactic(auto, unfolding(crate::specs::Reading::valued))]
fn valued<'t>(end: u64, tokens: &Lexemes<'t>) -> Read<'t, Expr>
    ensures gives { Gives end (λ x. (x.0, x.1, x.2)) result (spec.valued tokens.now) }
    ensures within { IfOk result (λ x. x.1 ≤ 1) }
{
    let (number, rest) = literal_at(end, tokens)?;
    Ok((Expr::Number(number), 1, rest))
}

#[cycle(expr)]
#[tactic(auto, unfolding(crate::specs::Reading::operand))]
fn operand<'t>(alloc: Global, end: u64, allowance: usize, tokens: &Lexemes<'t>) -> Read<'t, Expr>
    requires { allowance < 1000 }
    ensures gives { Gives end (λ x. (x.0, x.1, x.2)) result (spec.operand allowance (spec.expr allowance) tokens.now) }
    ensures within { IfOk result (λ x. x.1 ≤ allowance + 1) }
{
    match tokens.split() {
        None => Err(unexpected(end, tokens)),
        Some((x, rest)) => match x.terminal() {
            Terminal::Name => named(alloc, end, allowance, &x, &rest),
            Terminal::Number => valued(end, tokens),
            Terminal::Open => bracketed(alloc, end, allowance, tokens),
            Terminal::Not => negated(alloc, end, allowance, &x, tokens),
            _ => Err(unexpected(end, tokens)),
        },
    }
}

#[cycle(expr)]
#[tactic(auto, unfolding(crate::specs::Reading::climb))]
fn climb<'t>(
    alloc: Global,
    end: u64,
    allowance: usize,
    least: u8,
    first: Expr,
    height: usize,
    tokens: &Lexemes<'t>,
) -> Read<'t, Expr>
    requires limit { allowance < 1000 }
    requires first { height ≤ allowance + 1 }
    ensures gives { Gives end (λ x. (x.0, x.1, x.2)) result (spec.climb allowance (spec.expr allowance) (allowance + 1) least first height tokens.now) }
    ensures within { IfOk result (λ x. x.1 ≤ allowance + 1) }
{
    let mut left = first;
    let mut depth = height;
    let mut rest = tokens.same();
    for _turn in 0..allowance + 1 {
        let Some(op) = next_operator(least, &rest) else {
            return Ok((left, depth, rest));
        };
        if allowance < depth {
            return Err(too_deep(end, &rest));
        }
        let (right, at, after) = expr(alloc, end, allowance, level(op) + 1, &behind(&rest))?;
        left = binary(alloc, op, left, right)?;
        depth = depth.max(at) + 1;
        rest = after;
    }
    if next_operator(least, &rest).is_some() {
        return Err(too_deep(end, &rest));
    }
    Ok((left, depth, rest))
}

/// An expression of at most that depth, with operators that bind no looser than `least`.
#[cycle(expr)]
#[tactic(auto, unfolding(crate::specs::Reading::expr, crate::specs::Reading::level_of))]
pub fn expr<'t>(
    alloc: Global,
    end: u64,
    allowance: usize,
    least: u8,
    tokens: &Lexemes<'t>,
) -> Read<'t, Expr>
    requires { allowance ≤ 1000 }
    ensures gives { Gives end (λ x. (x.0, x.1, x.2)) result (spec.expr allowance least tokens.now) }
    ensures within { IfOk result (λ x. x.1 ≤ allowance) }
{
    if allowance == 0 {
        return Err(too_deep(end, tokens));
    }
    let (first, height, rest) = operand(alloc, end, allowance - 1, tokens)?;
    climb(alloc, end, allowance - 1, least, first, height, &rest)
}

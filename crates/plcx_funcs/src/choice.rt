//! Functions that give one of their arguments, and comparisons.
ghost use Rattle.std.specs.Prelude.{◌≡◌, ◌<◌, ◌≤◌, length, if◌then◌else◌};
ghost use Rattle.std.specs.List.{fold, list_all, zip};
ghost use Rattle.plcx_funcs.specs.Applied.{value_at, number_at, is_zero, agree, all_agree, truth, greater, lesser, best, chosen};

use crate::arithmetic::number_at;
use crate::func::Func;
use plcx_types::{Fault, Ty, Val, default_of};

pub(crate) fn value_at(args: &[Val], i: usize) -> Val
    requires { i < length args.now }
    ensures { result ≡ value_at args.now i }
{
    args[i]
}

fn agree(func: Func, a: i128, b: i128) -> bool
    ensures { result ≡ agree func a b }
{
    match func {
        Func::Gt => a > b,
        Func::Ge => a >= b,
        Func::Eq => a == b,
        Func::Le => a <= b,
        Func::Lt => a < b,
        Func::Ne => a != b,
        _ => false,
    }
}

fn neighbours_agree(func: Func, pair: (Val, Val)) -> bool
    ensures { result ≡ agree func pair.0.n pair.1.n }
{
    agree(func, pair.0.n(), pair.1.n())
}

fn pairs_agree(func: Func, args: &[Val], next: &[Val]) -> bool
    ensures { result ≡ list_all (λ (a, b). agree func a.n b.n) (zip args.now next.now) }
{
    args.iter()
        .zip(next)
        .all(|(a, b)| neighbours_agree(func, (*a, *b)))
}

fn all_agree(func: Func, args: &[Val]) -> bool
    requires { 1 ≤ length args.now }
    ensures { result ≡ all_agree func args.now }
{
    pairs_agree(func, args, &args[1..])
}

fn truth(b: bool) -> Val
    ensures { result ≡ truth b }
{
    if b {
        Val::new(Ty::Bool, 1).unwrap_or(default_of(Ty::Bool))
    } else {
        default_of(Ty::Bool)
    }
}

pub(crate) fn compare(func: Func, args: &[Val]) -> Val
    requires { 1 ≤ length args.now }
    ensures { result ≡ truth (all_agree func args.now) }
{
    truth(all_agree(func, args))
}

fn greater(a: Val, b: Val) -> Val
    ensures { result ≡ greater a b }
{
    if a.n() < b.n() { b } else { a }
}

fn lesser(a: Val, b: Val) -> Val
    ensures { result ≡ lesser a b }
{
    if b.n() < a.n() { b } else { a }
}

fn greatest_from(first: Val, rest: &[Val]) -> Val
    ensures { result ≡ fold greater first rest.now }
{
    rest.iter().fold(first, |best, value| greater(best, *value))
}

fn least_from(first: Val, rest: &[Val]) -> Val
    ensures { result ≡ fold lesser first rest.now }
{
    rest.iter().fold(first, |best, value| lesser(best, *value))
}

pub(crate) fn max(args: &[Val]) -> Val
    requires { 1 ≤ length args.now }
    ensures { result ≡ best greater args.now }
{
    greatest_from(value_at(args, 0), &args[1..])
}

pub(crate) fn min(args: &[Val]) -> Val
    requires { 1 ≤ length args.now }
    ensures { result ≡ best lesser args.now }
{
    least_from(value_at(args, 0), &args[1..])
}

pub(crate) fn limit(args: &[Val]) -> Val
    requires { 3 ≤ length args.now }
    ensures { result ≡ lesser (greater (value_at args.now 1) (value_at args.now 0)) (value_at args.now 2) }
{
    lesser(
        greater(value_at(args, 1), value_at(args, 0)),
        value_at(args, 2),
    )
}

pub(crate) fn sel(args: &[Val]) -> Val
    requires { 3 ≤ length args.now }
    ensures { result ≡ (if is_zero (number_at args.now 0) then value_at args.now 1 else value_at args.now 2) }
{
    if number_at(args, 0) == 0 {
        value_at(args, 1)
    } else {
        value_at(args, 2)
    }
}

fn chosen(args: &[Val], k: i128) -> Result<Val, Fault>
    requires { 1 ≤ length args.now }
    ensures { result ≡ chosen args.now k }
{
    if k < 0 {
        return Err(Fault::Range);
    }
    let k = k.unsigned_abs();
    if k < (args.len() - 1) as u128 {
        Ok(value_at(args, k as usize + 1))
    } else {
        Err(Fault::Range)
    }
}

pub(crate) fn mux(args: &[Val]) -> Result<Val, Fault>
    requires { 1 ≤ length args.now }
    ensures { result ≡ chosen args.now (number_at args.now 0) }
{
    chosen(args, number_at(args, 0))
}

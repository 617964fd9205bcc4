//! Sums, products, quotients and remainders.
ghost use Rattle.std.specs.Prelude.{◌≡◌, ◌<◌, ◌^◌, ◌+ℤ◌, ◌-ℤ◌, ◌*ℤ◌, pos, unsigned_abs, length};
ghost use Rattle.plcx_types.specs.Range.{InRange};
ghost use Rattle.plcx_funcs.specs.Applied.{checked, value, value_at, number_at, after, folded, quotient, remainder};

use plcx_types::{Fault, Ty, Val, default_of};

#[tactic(auto, using(plcx_types::proofs::TypeTable::within_range, plcx_types::proofs::TypeTable::range_within))]
pub(crate) fn checked(ty: Ty, n: i128) -> Result<Val, Fault>
    ensures { result ≡ checked ty n }
{
    Val::new(ty, n).ok_or(Fault::Range)
}

#[tactic(auto, using(crate::proofs::Ranges::abs_below))]
pub(crate) fn number_at(args: &[Val], i: usize) -> i128
    requires { i < length args.now }
    ensures value { result ≡ number_at args.now i }
    ensures bound { unsigned_abs result < 2 ^ 64 }
{
    args[i].n()
}

#[tactic(auto, using(crate::proofs::Ranges::fits_wide))]
fn sum(ty: Ty, a: i128, b: i128) -> Result<Val, Fault>
    ensures { result ≡ checked ty (a +ℤ b) }
{
    checked(ty, a.checked_add(b).ok_or(Fault::Range)?)
}

#[tactic(auto, using(crate::proofs::Ranges::fits_wide))]
fn product(ty: Ty, a: i128, b: i128) -> Result<Val, Fault>
    ensures { result ≡ checked ty (a *ℤ b) }
{
    checked(ty, a.checked_mul(b).ok_or(Fault::Range)?)
}

#[tactic(auto, using(crate::proofs::Ranges::fits_wide))]
pub(crate) fn difference(ty: Ty, a: i128, b: i128) -> Result<Val, Fault>
    ensures { result ≡ checked ty (a -ℤ b) }
{
    checked(ty, a.checked_sub(b).ok_or(Fault::Range)?)
}

fn after_sum(ty: Ty, so_far: Result<Val, Fault>, value: Val) -> Result<Val, Fault>
    ensures { result ≡ after ◌+ℤ◌ ty so_far value }
{
    sum(ty, so_far?.n(), value.n())
}

fn after_product(ty: Ty, so_far: Result<Val, Fault>, value: Val) -> Result<Val, Fault>
    ensures { result ≡ after ◌*ℤ◌ ty so_far value }
{
    product(ty, so_far?.n(), value.n())
}

pub(crate) fn add(ty: Ty, args: &[Val]) -> Result<Val, Fault>
    ensures { result ≡ folded ◌+ℤ◌ ty args.now }
{
    let (first, rest) = args.split_first().ok_or(Fault::Range)?;
    rest.iter()
        .fold(Ok(*first), |so_far, value| after_sum(ty, so_far, *value))
}

pub(crate) fn mul(ty: Ty, args: &[Val]) -> Result<Val, Fault>
    ensures { result ≡ folded ◌*ℤ◌ ty args.now }
{
    let (first, rest) = args.split_first().ok_or(Fault::Range)?;
    rest.iter().fold(
        Ok(*first),
        |so_far, value| after_product(ty, so_far, *value),
    )
}

#[tactic(auto, using(crate::proofs::Ranges::fits_wide))]
pub(crate) fn div(ty: Ty, a: i128, b: i128) -> Result<Val, Fault>
    ensures { result ≡ quotient ty a b }
{
    if b == 0 {
        return Err(Fault::DivByZero);
    }
    checked(ty, a.checked_div(b).ok_or(Fault::Range)?)
}

pub(crate) fn abs(ty: Ty, n: i128) -> Result<Val, Fault>
    ensures { result ≡ checked ty (pos (unsigned_abs n)) }
{
    checked(ty, n.checked_abs().ok_or(Fault::Range)?)
}

#[tactic(auto, using(crate::proofs::Ranges::abs_below))]
fn remainder(a: i128, b: i128) -> i128
    requires { unsigned_abs a < 2 ^ 64 }
    ensures { result ≡ remainder a b }
{
    if b == 0 { 0 } else { a % b }
}

pub(crate) fn sure(ty: Ty, n: i128) -> Val
    requires { InRange ty n }
    ensures { result ≡ value ty n }
{
    Val::new(ty, n).unwrap_or(default_of(ty))
}

#[tactic(auto, using(crate::proofs::Kept::remainder_of_type, crate::proofs::Ranges::abs_below))]
pub(crate) fn modulo(ty: Ty, a: Val, b: i128) -> Val
    requires { a.ty ≡ ty }
    ensures { result ≡ value ty (remainder a.n b) }
{
    sure(ty, remainder(a.n(), b))
}

//! Conversions between types.
ghost use Rattle.std.specs.Prelude.{◌≡◌, ◌<◌, ◌≤◌, ◌^◌, ◌%◌, unsigned_abs};
ghost use Rattle.plcx_funcs.specs.Applied.{narrows, converted};

use crate::allowed::is_word;
use crate::arithmetic::{checked, sure};
use crate::bits::of_bits;
use plcx_types::{Fault, Ty, Val};

fn narrows(from: Ty, to: Ty) -> bool
    ensures { result ≡ narrows from to }
{
    is_word(from) && is_word(to) && to.bits() < from.bits()
}

pub(crate) fn power(bits: u32) -> u128
    requires { bits < 65 }
    ensures value { result ≡ 2 ^ bits }
    ensures some { 0 < result }
    ensures bound { result ≤ 2 ^ 64 }
{
    2u128.pow(bits)
}

fn low_bits(n: i128, bits: u32) -> u128
    requires { bits < 65 }
    ensures value { result ≡ unsigned_abs n % 2 ^ bits }
    ensures below { result < 2 ^ bits }
{
    n.unsigned_abs() % power(bits)
}

#[tactic(auto, using(crate::proofs::Kept::bit_in_range))]
pub(crate) fn convert(from: Ty, to: Ty, n: i128) -> Result<Val, Fault>
    ensures { result ≡ converted from to n }
{
    if to == Ty::Bool {
        Ok(sure(to, i128::from(n != 0)))
    } else if narrows(from, to) {
        Ok(of_bits(to, low_bits(n, to.bits())))
    } else {
        checked(to, n)
    }
}

//! Bits: one by one, shifted and rotated.
ghost use Rattle.std.specs.Prelude.{◌≡◌, true, ◌<◌, ◌≤◌, ◌^◌, pos, unsigned_abs, length, EachIndex};
ghost use Rattle.std.specs.List.{fold};
ghost use Rattle.plcx_types.specs.Range.{bounds_of};
ghost use Rattle.plcx_funcs.specs.declared.allowed.Allowed.TheVariants as set;
ghost use Rattle.plcx_funcs.specs.Types.{is_allowed};
ghost use Rattle.plcx_funcs.specs.Applied.{value, value_at, width, bit_by_bit, both_bits, joined, turned, moved, shifted_left, shifted_right, rotated_left, rotated_right};

use crate::arithmetic::sure;
use crate::converting::power;
use crate::func::Func;
use plcx_types::{Fault, Ty, Val, default_of};

#[tactic(auto, using(crate::proofs::Kept::below_width, crate::proofs::Ranges::abs_below))]
fn bits_of(ty: Ty, bits: Val) -> u128
    requires same { bits.ty ≡ ty }
    requires kind { is_allowed set.Bits ty ≡ true }
    ensures value { pos result ≡ bits.n }
    ensures below { result < 2 ^ width ty }
    ensures most { result < 2 ^ 64 }
{
    bits.n().unsigned_abs()
}

#[tactic(auto, using(crate::proofs::Kept::bits_in_range, crate::proofs::Ranges::abs_below))]
pub(crate) fn of_bits(ty: Ty, bits: u128) -> Val
    requires kind { is_allowed set.Bits ty ≡ true }
    requires below { bits < 2 ^ width ty }
    ensures { result ≡ value ty (pos bits) }
{
    sure(ty, bits as i128)
}

fn bit_by_bit(func: Func, a: u128, b: u128) -> u128
    ensures { result ≡ bit_by_bit func a b }
{
    match func {
        Func::And => a & b,
        Func::Or => a | b,
        Func::Xor => a ^ b,
        _ => 0,
    }
}

fn joined_from(func: Func, ty: Ty, first: u128, rest: &[Val]) -> u128
    requires same { EachIndex rest.now (λ i. (value_at rest.now i).ty ≡ ty) }
    requires kind { is_allowed set.Bits ty ≡ true }
    requires below { first < 2 ^ width ty }
    ensures value { pos result ≡ fold (λ n v. both_bits (bit_by_bit func) n v.n) (pos first) rest.now }
    ensures below { result < 2 ^ width ty }
{
    let mut bits = first;
    for value in rest {
        bits = bit_by_bit(func, bits, bits_of(ty, *value));
    }
    bits
}

pub(crate) fn join(func: Func, ty: Ty, args: &[Val]) -> Val
    requires some { 1 ≤ length args.now }
    requires same { EachIndex args.now (λ i. (value_at args.now i).ty ≡ ty) }
    requires kind { is_allowed set.Bits ty ≡ true }
    ensures { result ≡ value ty (joined (both_bits (bit_by_bit func)) args.now) }
{
    of_bits(ty, joined_from(func, ty, bits_of(ty, args[0]), &args[1..]))
}

fn greatest(ty: Ty) -> i128
    ensures { result ≡ (bounds_of ty).high }
{
    match ty {
        Ty::Bool => 1,
        Ty::Byte | Ty::Usint => 255,
        Ty::Word | Ty::Uint => 65_535,
        Ty::Dword | Ty::Udint => 4_294_967_295,
        Ty::Lword | Ty::Ulint => 18_446_744_073_709_551_615,
        Ty::Sint => 127,
        Ty::Int => 32_767,
        Ty::Dint => 2_147_483_647,
        Ty::Lint | Ty::Time => 9_223_372_036_854_775_807,
    }
}

#[tactic(auto, using(crate::proofs::Kept::turned_in_range))]
pub(crate) fn not(ty: Ty, bits: Val) -> Val
    requires same { bits.ty ≡ ty }
    requires kind { is_allowed set.Bits ty ≡ true }
    ensures { result ≡ value ty (turned ty bits.n) }
{
    Val::new(ty, greatest(ty) - bits.n()).unwrap_or(default_of(ty))
}

#[tactic(auto, using(crate::proofs::Products::product_below))]
fn shifted_left(bits: u32, n: u128, by: u128) -> u128
    requires bits { bits < 65 }
    requires number { n < 2 ^ 64 }
    ensures { result ≡ shifted_left bits n by }
{
    if u128::from(bits) <= by {
        0
    } else {
        n * power(by as u32) % power(bits)
    }
}

fn shifted_right(bits: u32, n: u128, by: u128) -> u128
    requires { bits < 65 }
    ensures { result ≡ shifted_right bits n by }
{
    if u128::from(bits) <= by {
        0
    } else {
        n / power(by as u32)
    }
}

#[tactic(auto, using(crate::proofs::Products::product_below))]
fn rotated_left(bits: u32, n: u128, by: u128) -> u128
    requires bits { bits < 65 }
    requires some { 0 < bits }
    requires number { n < 2 ^ 64 }
    ensures { result ≡ rotated_left bits n by }
{
    let turn = (by % u128::from(bits)) as u32;
    n * power(turn) % power(bits) + n / power(bits - turn)
}

#[tactic(auto, using(crate::proofs::Products::product_below))]
fn rotated_right(bits: u32, n: u128, by: u128) -> u128
    requires bits { bits < 65 }
    requires some { 0 < bits }
    requires number { n < 2 ^ 64 }
    ensures { result ≡ rotated_right bits n by }
{
    let turn = (by % u128::from(bits)) as u32;
    n / power(turn) + n % power(turn) * power(bits - turn)
}

#[tactic(auto, using(crate::proofs::Below::shifted_left_below))]
pub(crate) fn shl(ty: Ty, bits: Val, by: i128) -> Result<Val, Fault>
    requires same { bits.ty ≡ ty }
    requires kind { is_allowed set.Bits ty ≡ true }
    ensures { result ≡ moved shifted_left ty bits.n by }
{
    if by < 0 {
        return Err(Fault::Range);
    }
    Ok(of_bits(
        ty,
        shifted_left(ty.bits(), bits_of(ty, bits), by.unsigned_abs()),
    ))
}

#[tactic(auto, using(crate::proofs::Below::shifted_right_below))]
pub(crate) fn shr(ty: Ty, bits: Val, by: i128) -> Result<Val, Fault>
    requires same { bits.ty ≡ ty }
    requires kind { is_allowed set.Bits ty ≡ true }
    ensures { result ≡ moved shifted_right ty bits.n by }
{
    if by < 0 {
        return Err(Fault::Range);
    }
    Ok(of_bits(
        ty,
        shifted_right(ty.bits(), bits_of(ty, bits), by.unsigned_abs()),
    ))
}

#[tactic(auto, using(crate::proofs::Below::rotated_left_below))]
pub(crate) fn rol(ty: Ty, bits: Val, by: i128) -> Result<Val, Fault>
    requires same { bits.ty ≡ ty }
    requires kind { is_allowed set.Bits ty ≡ true }
    ensures { result ≡ moved rotated_left ty bits.n by }
{
    if by < 0 {
        return Err(Fault::Range);
    }
    Ok(of_bits(
        ty,
        rotated_left(ty.bits(), bits_of(ty, bits), by.unsigned_abs()),
    ))
}

#[tactic(auto, using(crate::proofs::Below::rotated_right_below))]
pub(crate) fn ror(ty: Ty, bits: Val, by: i128) -> Result<Val, Fault>
    requires same { bits.ty ≡ ty }
    requires kind { is_allowed set.Bits ty ≡ true }
    ensures { result ≡ moved rotated_right ty bits.n by }
{
    if by < 0 {
        return Err(Fault::Range);
    }
    Ok(of_bits(
        ty,
        rotated_right(ty.bits(), bits_of(ty, bits), by.unsigned_abs()),
    ))
}

//! Values: each a number of its type.
ghost use Rattle.std.specs.Prelude.{◌≡◌, ◌↔◌, pos, IsTrue, IfSome, IfNone, Some, None, if◌then◌else◌};
ghost use Rattle.plcx_types.specs.Range.{InRange, fits};
ghost use Rattle.plcx_types.specs.TypeName.{same_ty};

use crate::ty::{Bounds, Ty};
use std::marker::Model;

/// A value of a type.
#[derive(Clone, Copy, Debug, PartialEq, Eq)]
pub struct Val {
    ty: Ty,
    negative: bool,
    amount: u64,
}

impl Model for Val {
    ghost use Rattle.plcx_types.specs.Value.{Value as Number, signed, is_negative, amount_of};
    ghost use Rattle.plcx_types.specs.Range.{InRange};

    ghost Value = { Number };

    ghost view = { λ value. record { ty = value.ty; n = signed value.negative value.amount } };

    ghost invariant = { λ value. InRange value.ty (signed value.negative value.amount) };

    ghost inverse = { λ value. record { ty = value.ty; negative = is_negative value.n; amount = amount_of value.n } };

    ghost use Rattle.plcx_types.specs.Signs.{same_sign, same_amount};

    ghost inverse_ok = { λ value h i. record {
      ty = value.ty;
      negative = same_sign value.negative value.amount i;
      amount = same_amount value.negative value.amount i;
    } };
}

/// Whether the number is one of the type.
pub fn in_range(ty: Ty, n: i128) -> bool
    ensures range { IsTrue result ↔ InRange ty n }
    ensures value { result ≡ fits ty n }
{
    let Bounds { low, high } = ty.bounds();
    low <= n && n <= high
}

/// The value that a variable of the type has before another is given.
pub fn default_of(ty: Ty) -> Val
    ensures ty { result.ty ≡ ty }
    ensures zero { result.n ≡ pos 0 }
{
    Val {
        ty,
        negative: false,
        amount: 0,
    }
}

impl Val {
    /// The value of that type and number.
    pub fn new(ty: Ty, n: i128) -> Option<Val>
        ensures some { IfSome result (λ value. (value.ty ≡ ty) × (value.n ≡ n) × InRange ty n) }
        ensures none { IfNone result (InRange ty n → ⊥) }
    {
        if !in_range(ty, n) {
            return None;
        }
        let negative = n < 0;
        let amount = if negative { -1 - n } else { n } as u64;
        Some(Val {
            ty,
            negative,
            amount,
        })
    }

    /// Its type.
    pub fn ty(self) -> Ty
        ensures { result ≡ self.ty }
    {
        self.ty
    }

    /// Its number.
    pub fn n(self) -> i128
        ensures number { result ≡ self.n }
        ensures range { InRange self.ty self.n }
    {
        let amount = i128::from(self.amount);
        if self.negative { -1 - amount } else { amount }
    }

    /// The value itself, where it is of the type.
    pub(crate) fn of_type(self, ty: Ty) -> Option<Val>
        ensures { result ≡ (if same_ty self.ty ty then Some self else None) }
    {
        if self.ty == ty { Some(self) } else { None }
    }
}

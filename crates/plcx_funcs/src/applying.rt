//! What the functions give.
ghost use Rattle.std.specs.Prelude.{◌≡◌};
ghost use Rattle.plcx_funcs.specs.Applied.{applied, FitsSignature};

use crate::arithmetic::{abs, add, difference, div, modulo, mul, number_at};
use crate::bits::{join, not, rol, ror, shl, shr};
use crate::choice::{compare, limit, max, min, mux, sel, value_at};
use crate::converting::convert;
use crate::func::Func;
use plcx_types::{Fault, Ty, Val};

/// What the function gives, where `ty` is the type of its group.
#[tactic(auto, using(crate::proofs::Counts::has_least, crate::proofs::Kept::first_of_mod, crate::proofs::Kept::bits_of_group, crate::proofs::Kept::first_of_bits, crate::proofs::Kept::all_of_bits, crate::proofs::Kept::joins_bits))]
pub fn apply(func: Func, ty: Ty, args: &[Val]) -> Result<Val, Fault>
    requires { FitsSignature func ty args.now }
    ensures { result ≡ applied func ty args.now }
{
    match func {
        Func::Add => add(ty, args),
        Func::Mul => mul(ty, args),
        Func::Sub => difference(ty, number_at(args, 0), number_at(args, 1)),
        Func::Div => div(ty, number_at(args, 0), number_at(args, 1)),
        Func::Mod => Ok(modulo(ty, value_at(args, 0), number_at(args, 1))),
        Func::Abs => abs(ty, number_at(args, 0)),
        Func::Move => Ok(value_at(args, 0)),
        Func::And | Func::Or | Func::Xor => Ok(join(func, ty, args)),
        Func::Not => Ok(not(ty, value_at(args, 0))),
        Func::Shl => shl(ty, value_at(args, 0), number_at(args, 1)),
        Func::Shr => shr(ty, value_at(args, 0), number_at(args, 1)),
        Func::Rol => rol(ty, value_at(args, 0), number_at(args, 1)),
        Func::Ror => ror(ty, value_at(args, 0), number_at(args, 1)),
        Func::Sel => Ok(sel(args)),
        Func::Max => Ok(max(args)),
        Func::Min => Ok(min(args)),
        Func::Limit => Ok(limit(args)),
        Func::Mux => mux(args),
        Func::Gt | Func::Ge | Func::Eq | Func::Le | Func::Lt | Func::Ne => Ok(compare(func, args)),
        Func::Conv { from, to } => convert(from, to, number_at(args, 0)),
    }
}

//! Whether arguments fit a function.
ghost use Rattle.std.specs.Prelude.{◌≡◌, ◌↔◌, ◌<◌, ◌≤◌, true, IsTrue, EachIndex, length};
ghost use Rattle.plcx_funcs.specs.Pins.{can_have, input_class};
ghost use Rattle.plcx_funcs.specs.Applied.{value_at, takes, suits, FitsSignature};

use crate::allowed::is_whole;
use crate::func::Func;
use crate::pins::{Class, group_types, input_class, least_inputs, most_inputs};
use plcx_types::{Ty, Val};

fn can_have(func: Func, inputs: usize) -> bool
    ensures { result ≡ can_have func inputs }
{
    least_inputs(func) as usize <= inputs && inputs <= most_inputs(func) as usize
}

fn takes(func: Func, ty: Ty) -> bool
    ensures { result ≡ takes func ty }
{
    match func {
        Func::Conv { from, to } => from != to,
        _ => group_types(func).has(ty),
    }
}

fn suits(class: Class, ty: Ty, own: Ty) -> bool
    ensures { result ≡ suits class ty own }
{
    match class {
        Class::Group => ty == own,
        Class::Lone => is_whole(own),
        Class::Fixed(fixed) => fixed == own,
    }
}

fn suits_at(func: Func, ty: Ty, args: &[Val], i: usize) -> bool
    requires few { length args.now ≤ 63 }
    requires within { i < length args.now }
    ensures { result ≡ suits (input_class func i) ty (value_at args.now i).ty }
{
    suits(input_class(func, i as u32), ty, args[i].ty())
}

#[tactic(auto, using(crate::proofs::Counts::one_more))]
fn all_suit(func: Func, ty: Ty, args: &[Val]) -> bool
    requires { length args.now ≤ 63 }
    ensures { IsTrue result ↔ EachIndex args.now (λ i. suits (input_class func i) ty (value_at args.now i).ty ≡ true) }
{
    for i in 0..args.len() {
        if !suits_at(func, ty, args, i) {
            return false;
        }
    }
    true
}

/// Whether the arguments fit the function at the type of its group.
#[tactic(auto, using(crate::proofs::Counts::has_most))]
pub fn fits_signature(func: Func, ty: Ty, args: &[Val]) -> bool
    ensures { IsTrue result ↔ FitsSignature func ty args.now }
{
    can_have(func, args.len()) && takes(func, ty) && all_suit(func, ty, args)
}

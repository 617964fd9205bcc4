//! What functions give for values of these types.
ghost use Rattle.std.specs.Prelude.{◌≡◌, ◌<◌, option_map, option_and_then, length};
ghost use Rattle.plcx_funcs.specs.Pins.{can_have, group_types, input_class, output_class};
ghost use Rattle.plcx_funcs.specs.Applied.{takes, suits};
ghost use Rattle.plcx_meaning.specs.Functions.{group_index, group_of, all_suit, can_apply, out_type};
ghost use Rattle.plcx_meaning.specs.Execute.{function_of};
ghost use Rattle.plcx_meaning.specs.Typed.{is_operator, type_at, result_type, call_type};
ghost use Rattle.plcx_st.specs.Meant.{op_meant};

use plcx_funcs::{Allowed, Class, Func, FuncPins, signature};
use plcx_st::Op;
use plcx_types::Ty;

/// Whether a function is written by an operator.
pub fn is_operator(func: Func) -> bool
    ensures { result ≡ is_operator func }
{
    match func {
        Func::Add | Func::Mul | Func::Sub | Func::Div | Func::Mod => true,
        Func::And | Func::Or | Func::Xor | Func::Not => true,
        Func::Gt | Func::Ge | Func::Eq | Func::Le | Func::Lt | Func::Ne => true,
        _ => false,
    }
}

/// A function with so many inputs, where it can have them.
#[tactic(auto, using(crate::proofs::Inputs::has_few))]
fn pins_of(func: Func, count: usize) -> Option<FuncPins>
    ensures { result ≡ (if can_have func count then Some (record { func = func; inputs = count; allowed = group_types func }) else None) }
{
    if count < 64 {
        signature(func, count as u32)
    } else {
        None
    }
}

/// Whether a function can have so many inputs.
pub fn can_have(func: Func, count: usize) -> bool
    ensures { result ≡ can_have func count }
{
    pins_of(func, count).is_some()
}

fn takes(pins: FuncPins, ty: Ty) -> bool
    requires { pins.allowed ≡ group_types pins.func }
    ensures { result ≡ takes pins.func ty }
{
    match pins.func {
        Func::Conv { from, to } => from != to,
        _ => pins.allowed.has(ty),
    }
}

fn suits(class: Class, ty: Ty, own: Ty) -> bool
    ensures { result ≡ suits class ty own }
{
    match class {
        Class::Group => ty == own,
        Class::Lone => Allowed::Whole.has(own),
        Class::Fixed(fixed) => fixed == own,
    }
}

/// A function whose input or output is asked for.
fn some_pins(func: Func, inputs: u32) -> FuncPins
    ensures { result ≡ record { func = func; inputs = inputs; allowed = Nothing } }
{
    FuncPins {
        func,
        inputs,
        allowed: Allowed::Nothing,
    }
}

fn input_class(func: Func, place: usize) -> Class
    requires { place < 64 }
    ensures { result ≡ input_class func place }
{
    some_pins(func, place as u32 + 1).input(place as u32).class
}

fn output_class(func: Func) -> Class
    ensures { result ≡ output_class func }
{
    some_pins(func, 0).out()
}

fn all_suit(func: Func, ty: Ty, types: &[Ty]) -> bool
    requires { length types.now < 64 }
    ensures { result ≡ all_suit func ty 0 types.now }
{
    for place in 0..types.len() {
        if !suits(input_class(func, place), ty, types[place]) {
            return false;
        }
    }
    true
}

/// Whether inputs of these types suit a function at the type of its group.
#[tactic(auto, using(crate::proofs::Inputs::has_few))]
fn can_apply(func: Func, ty: Ty, types: &[Ty]) -> bool
    ensures { result ≡ can_apply func ty types.now }
{
    match pins_of(func, types.len()) {
        None => false,
        Some(pins) => takes(pins, ty) && all_suit(func, ty, types),
    }
}

fn out_type(func: Func, ty: Ty) -> Ty
    ensures { result ≡ out_type func ty }
{
    match output_class(func) {
        Class::Group | Class::Lone => ty,
        Class::Fixed(fixed) => fixed,
    }
}

fn type_at(func: Func, ty: Ty, types: &[Ty]) -> Option<Ty>
    ensures { result ≡ type_at func types.now ty }
{
    if can_apply(func, ty, types) {
        Some(out_type(func, ty))
    } else {
        None
    }
}

/// The place of the input that tells the type of the group.
pub fn group_index(func: Func) -> usize
    ensures { result ≡ group_index func }
{
    match func {
        Func::Sel | Func::Mux => 1,
        _ => 0,
    }
}

fn group_of(func: Func, types: &[Ty]) -> Option<Ty>
    ensures { result ≡ group_of func types.now }
{
    types.get(group_index(func)).copied()
}

/// The type of what a function gives for inputs of these types.
pub fn result_type(func: Func, types: &[Ty]) -> Option<Ty>
    ensures { result ≡ result_type func types.now }
{
    match group_of(func, types) {
        None => None,
        Some(ty) => type_at(func, ty, types),
    }
}

/// The type of what a function gives for inputs whose types are known.
pub fn known_result(func: Func, types: Option<&[Ty]>) -> Option<Ty>
    ensures { result ≡ option_and_then (result_type func) (option_map (λ s. s.now) types.entry) }
{
    match types {
        None => None,
        Some(types) => result_type(func, types),
    }
}

/// The type of what the function of a name gives, where there is one; one of an operator is not called by its name.
pub fn call_type(called: Option<Func>, types: Option<&[Ty]>) -> Option<Ty>
    ensures { result ≡ option_and_then (call_type called) (option_map (λ s. s.now) types.entry) }
{
    match called {
        None => None,
        Some(func) => {
            if is_operator(func) {
                None
            } else {
                known_result(func, types)
            }
        }
    }
}

/// The function of an operator.
pub fn function_of(op: Op) -> Func
    ensures { result ≡ function_of (op_meant op) }
{
    match op {
        Op::Or => Func::Or,
        Op::Xor => Func::Xor,
        Op::And => Func::And,
        Op::Equal => Func::Eq,
        Op::NotEqual => Func::Ne,
        Op::Less => Func::Lt,
        Op::Greater => Func::Gt,
        Op::LessOrEqual => Func::Le,
        Op::GreaterOrEqual => Func::Ge,
        Op::Plus => Func::Add,
        Op::Minus => Func::Sub,
        Op::Times => Func::Mul,
        Op::Divide => Func::Div,
        Op::Mod => Func::Mod,
    }
}

ghost use Rattle.std.specs.Prelude.{Some, None, if◌then◌else◌};
ghost use Rattle.plcx_funcs.specs.declared.allowed.Allowed.TheVariants.{Nothing};

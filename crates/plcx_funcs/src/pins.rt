//! The pins of the functions.
ghost use Rattle.std.specs.Prelude.{◌≡◌, ◌<◌, ◌-◌, ◌^◌, Some, None, if◌then◌else◌};
ghost use Rattle.plcx_funcs.specs.Pins.{least, most, letters, number, class_at};
ghost use Rattle.plcx_funcs.specs.Pins.{least_inputs, most_inputs, can_have, group_types, input_letters, input_number, input_class, output_class};

use crate::allowed::Allowed;
use crate::func::Func;
use crate::table::{Inputs, row};
use plcx_types::Ty;

/// Where a pin's type comes from: the group's, any of the whole numbers, or one that is fixed.
#[derive(Clone, Copy, Debug, PartialEq, Eq)]
pub enum Class {
    Group,
    Lone,
    Fixed(Ty),
}

/// The name of a pin: letters, and a number behind them.
#[derive(Clone, Copy, Debug, PartialEq, Eq)]
pub struct PinName {
    pub letters: &'static str,
    pub number: Option<u32>,
}

/// An input of a function.
#[derive(Clone, Copy, Debug, PartialEq, Eq)]
pub struct Pin0 {
    pub name: PinName,
    pub class: Class,
}

/// A function with a number of inputs, and the types that its group may have.
#[derive(Clone, Copy, Debug, PartialEq, Eq)]
pub struct FuncPins {
    pub func: Func,
    pub inputs: u32,
    pub allowed: Allowed,
}

fn least(inputs: Inputs) -> u32
    ensures { result ≡ least inputs }
{
    match inputs {
        Inputs::Numbered { least, .. } => least,
        Inputs::Single | Inputs::Converted { .. } => 1,
        Inputs::Shifted => 2,
        Inputs::Selected | Inputs::Limited | Inputs::Chosen => 3,
    }
}

fn most(inputs: Inputs) -> u32
    ensures { result ≡ most inputs }
{
    match inputs {
        Inputs::Numbered { most, .. } => most,
        Inputs::Single | Inputs::Converted { .. } => 1,
        Inputs::Shifted => 2,
        Inputs::Selected | Inputs::Limited => 3,
        Inputs::Chosen => 63,
    }
}

pub(crate) fn least_inputs(func: Func) -> u32
    ensures { result ≡ least_inputs func }
{
    least(row(func).inputs)
}

pub(crate) fn most_inputs(func: Func) -> u32
    ensures { result ≡ most_inputs func }
{
    most(row(func).inputs)
}

pub(crate) fn group_types(func: Func) -> Allowed
    ensures { result ≡ group_types func }
{
    row(func).allowed
}

/// The function with so many inputs, where it can have them.
pub fn signature(func: Func, inputs: u32) -> Option<FuncPins>
    ensures { result ≡ (if can_have func inputs then Some (record { func = func; inputs = inputs; allowed = group_types func }) else None) }
{
    if least_inputs(func) <= inputs && inputs <= most_inputs(func) {
        Some(FuncPins {
            func,
            inputs,
            allowed: group_types(func),
        })
    } else {
        None
    }
}

fn letters(inputs: Inputs, i: u32) -> &'static str
    ensures { result.now ≡ letters inputs i }
{
    match inputs {
        Inputs::Shifted if i != 0 => "N",
        Inputs::Selected if i == 0 => "G",
        Inputs::Chosen if i == 0 => "K",
        Inputs::Limited if i == 0 => "MN",
        Inputs::Limited if i != 1 => "MX",
        _ => "IN",
    }
}

fn number(inputs: Inputs, i: u32) -> Option<u32>
    requires { i < 2 ^ 32 - 1 }
    ensures { result ≡ number inputs i }
{
    match inputs {
        Inputs::Numbered { .. } => Some(i + 1),
        Inputs::Selected | Inputs::Chosen => i.checked_sub(1),
        _ => None,
    }
}

fn class_at(inputs: Inputs, i: u32) -> Class
    ensures { result ≡ class_at inputs i }
{
    match inputs {
        Inputs::Shifted if i != 0 => Class::Lone,
        Inputs::Selected if i == 0 => Class::Fixed(Ty::Bool),
        Inputs::Chosen if i == 0 => Class::Lone,
        Inputs::Converted { from } => Class::Fixed(from),
        _ => Class::Group,
    }
}

pub(crate) fn input_class(func: Func, i: u32) -> Class
    ensures { result ≡ input_class func i }
{
    class_at(row(func).inputs, i)
}

impl FuncPins {
    /// The input at the place, counted from 0.
    pub fn input(&self, i: u32) -> Pin0
        requires { i < self.now.inputs }
        ensures letters { result.name.letters.now ≡ input_letters self.now.func i }
        ensures number { result.name.number ≡ input_number self.now.func i }
        ensures class { result.class ≡ input_class self.now.func i }
    {
        let FuncPins {
            func,
            inputs: count,
            ..
        } = *self;
        prove!(i < count);
        let inputs = row(func).inputs;
        Pin0 {
            name: PinName {
                letters: letters(inputs, i),
                number: number(inputs, i),
            },
            class: class_at(inputs, i),
        }
    }

    /// The class of OUT.
    pub fn out(&self) -> Class
        ensures { result ≡ output_class self.now.func }
    {
        row(self.func).out
    }
}

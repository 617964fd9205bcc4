//! The formal parameters of a block, each with what is known of its type.
ghost use Rattle.std.specs.Prelude.{◌≡◌, ◌++◌, ◌∷◌, ◌<◌, ℕ, [], false, option_map, string_bytes, IfOk};
ghost use Rattle.plcx_funcs.specs.Pins.{input_letters, input_number, input_class, output_class};
ghost use Rattle.plcx_rules.specs.Texts.{same_name};
ghost use Rattle.plcx_rules.specs.Forms.{class_of};
ghost use Rattle.plcx_rules.specs.Callees.{enable, enabled, fixed, is_function, number_text, function_input, function_inputs, inputs_of, in_outs_of, outputs_of, formal_named};
ghost use Rattle.plcx_rules.specs.Callees as rules;
ghost use Rattle.plcx_names.specs.Seen.{shown_pin, shown_formal};

use crate::pins::{OwnPin, standard_pin};
use crate::scope::{Scope, narrow};
use crate::texts::same_name;
use plcx_funcs::{Allowed, Class, Func, FuncPins, Pin0};
use plcx_rules::Callee;
use plcx_std::Role;
use plcx_types::Ty;
use std::alloc::{AllocError, Global};

/// A formal parameter by its declared name, with what is known of its type.
#[derive(Clone, Copy)]
pub struct Formal<'a> {
    pub name: &'a [u8],
    pub class: Class,
}

/// A pin as a formal parameter.
fn fixed<'a>(pin: Option<OwnPin<'a>>) -> Option<Formal<'a>>
    ensures { option_map shown_formal result ≡ option_map fixed (option_map shown_pin pin.entry) }
{
    match pin {
        None => None,
        Some(pin) => Some(Formal {
            name: pin.name,
            class: Class::Fixed(pin.ty),
        }),
    }
}

/// What is known of the type of a formal parameter.
fn class_of(formal: Option<Formal>) -> Option<Class>
    ensures { result ≡ class_of (option_map shown_formal formal.entry) }
{
    match formal {
        None => None,
        Some(formal) => Some(formal.class),
    }
}

/// The input of a function at a place, whatever types it may have.
fn pin_at(func: Func, place: u32) -> Pin0
    requires { place < 4294967295 }
    ensures letters { result.name.letters.now ≡ input_letters func place }
    ensures number { result.name.number ≡ input_number func place }
    ensures class { result.class ≡ input_class func place }
{
    let pins = FuncPins {
        func,
        inputs: place + 1,
        allowed: Allowed::Nothing,
    };
    pins.input(place)
}

#[tactic(auto, unfolding(plcx_rules::specs::Callees::function_input))]
fn class_at(func: Func, place: u32) -> Class
    requires { place < 4294967295 }
    ensures { result ≡ (function_input func place).class }
{
    pin_at(func, place).class
}

fn name_text(alloc: Global, letters: &str, number: Option<u32>) -> Result<String, AllocError>
    ensures { IfOk result (λ name. string_bytes name ≡ letters.now ++ number_text number) }
{
    match number {
        None => Ok(String::from_str(alloc, letters)?),
        Some(number) => Ok(format!(in alloc; "{letters}{number}")?),
    }
}

/// The name of the input of a function at a place, counted from 0.
#[tactic(auto, unfolding(plcx_rules::specs::Callees::function_input))]
pub fn function_input_name(alloc: Global, func: Func, place: u32) -> Result<String, AllocError>
    requires { place < 4294967295 }
    ensures { IfOk result (λ name. string_bytes name ≡ (function_input func place).name) }
{
    let name = pin_at(func, place).name;
    Ok(name_text(alloc, name.letters, name.number)?)
}

fn is_input(alloc: Global, func: Func, place: u32, name: &[u8]) -> Result<bool, AllocError>
    requires { place < 4294967295 }
    ensures { IfOk result (λ is. is ≡ same_name name.now (function_input func place).name) }
{
    let own = function_input_name(alloc, func, place)?;
    Ok(same_name(name, own.as_bytes()))
}

/// The class of the input of a function that has so many.
fn function_input(
    alloc: Global,
    func: Func,
    count: u32,
    name: &[u8],
) -> Result<Option<Class>, AllocError>
    ensures { IfOk result (λ class. class ≡ class_of (formal_named name.now (function_inputs func count))) }
{
    for place in 0..count {
        if is_input(alloc, func, place, name)? {
            return Ok(Some(class_at(func, place)));
        }
    }
    Ok(None)
}

fn output_class(func: Func) -> Class
    ensures { result ≡ output_class func }
{
    let pins = FuncPins {
        func,
        inputs: 0,
        allowed: Allowed::Nothing,
    };
    pins.out()
}

fn function_output<'a>(func: Func, name: &[u8]) -> Option<Formal<'a>>
    ensures { option_map shown_formal result ≡ formal_named name.now (rules.result func ∷ []) }
{
    if same_name(name, b"OUT") {
        Some(Formal {
            name: b"OUT",
            class: output_class(func),
        })
    } else {
        None
    }
}

impl<'a> Scope<'a> {
    /// The input beside EN of that name of a block that is no function.
    #[tactic(auto, using(crate::proofs::FormalNames::fixed_is), unfolding(plcx_rules::specs::Callees::inputs_of))]
    fn own_input(
        &self,
        alloc: Global,
        callee: Callee,
        name: &[u8],
    ) -> Result<Option<Formal<'a>>, AllocError>
        requires { is_function callee ≡ false }
        ensures { IfOk result (λ formal. (n : ℕ) → option_map shown_formal formal ≡ formal_named name.now (inputs_of self.now callee n)) }
    {
        match callee {
            Callee::Function(_) => Ok(None),
            Callee::Standard(kind) => Ok(fixed(standard_pin(Role::In, kind, name))),
            Callee::Block(place) => Ok(fixed(self.input_at(alloc, place, name)?)),
        }
    }

    /// The input of that name of a block that is no function.
    pub fn instance_input(
        &self,
        alloc: Global,
        callee: Callee,
        name: &[u8],
    ) -> Result<Option<Formal<'a>>, AllocError>
        requires { is_function callee ≡ false }
        ensures { IfOk result (λ formal. (n : ℕ) → option_map shown_formal formal ≡ formal_named name.now (enable ∷ inputs_of self.now callee n)) }
    {
        if same_name(name, b"EN") {
            Ok(Some(Formal {
                name: b"EN",
                class: Class::Fixed(Ty::Bool),
            }))
        } else {
            Ok(self.own_input(alloc, callee, name)?)
        }
    }

    /// The in-out of that name of a block of that callee.
    #[tactic(auto, using(crate::proofs::FormalNames::fixed_is), unfolding(plcx_rules::specs::Callees::in_outs_of))]
    pub fn in_out_formal(
        &self,
        alloc: Global,
        callee: Callee,
        name: &[u8],
    ) -> Result<Option<Formal<'a>>, AllocError>
        ensures { IfOk result (λ formal. option_map shown_formal formal ≡ formal_named name.now (in_outs_of self.now callee)) }
    {
        match callee {
            Callee::Function(_) | Callee::Standard(_) => Ok(None),
            Callee::Block(place) => Ok(fixed(self.in_out_at(alloc, place, name)?)),
        }
    }

    /// The output beside ENO of that name of a block of that callee.
    #[tactic(auto, using(crate::proofs::FormalNames::fixed_is), unfolding(plcx_rules::specs::Callees::outputs_of))]
    fn own_output(
        &self,
        alloc: Global,
        callee: Callee,
        name: &[u8],
    ) -> Result<Option<Formal<'a>>, AllocError>
        ensures { IfOk result (λ formal. option_map shown_formal formal ≡ formal_named name.now (outputs_of self.now callee)) }
    {
        match callee {
            Callee::Function(func) => Ok(function_output(func, name)),
            Callee::Standard(kind) => Ok(fixed(standard_pin(Role::Out, kind, name))),
            Callee::Block(place) => Ok(fixed(self.output_at(alloc, place, name)?)),
        }
    }

    /// The output of that name of a block of that callee. The name is OUT at the result of a function.
    pub fn output_formal(
        &self,
        alloc: Global,
        callee: Callee,
        name: &[u8],
    ) -> Result<Option<Formal<'a>>, AllocError>
        ensures { IfOk result (λ formal. option_map shown_formal formal ≡ formal_named name.now (enabled ∷ outputs_of self.now callee)) }
    {
        if same_name(name, b"ENO") {
            Ok(Some(Formal {
                name: b"ENO",
                class: Class::Fixed(Ty::Bool),
            }))
        } else {
            Ok(self.own_output(alloc, callee, name)?)
        }
    }

    /// The class of an input beside EN of a block of that callee, which lists so many.
    #[tactic(auto, unfolding(plcx_rules::specs::Callees::inputs_of))]
    fn own_class(
        &self,
        alloc: Global,
        callee: Callee,
        count: usize,
        name: &[u8],
    ) -> Result<Option<Class>, AllocError>
        ensures { IfOk result (λ class. class ≡ class_of (formal_named name.now (inputs_of self.now callee count))) }
    {
        match callee {
            Callee::Function(func) => Ok(function_input(alloc, func, narrow(count)?, name)?),
            Callee::Standard(_) | Callee::Block(_) => {
                Ok(class_of(self.own_input(alloc, callee, name)?))
            }
        }
    }

    /// The class of the input of that name of a block of that callee, which lists so many beside EN.
    pub fn input_class(
        &self,
        alloc: Global,
        callee: Callee,
        count: usize,
        name: &[u8],
    ) -> Result<Option<Class>, AllocError>
        ensures { IfOk result (λ class. class ≡ class_of (formal_named name.now (enable ∷ inputs_of self.now callee count))) }
    {
        if same_name(name, b"EN") {
            Ok(Some(Class::Fixed(Ty::Bool)))
        } else {
            Ok(self.own_class(alloc, callee, count, name)?)
        }
    }

    /// The class of the in-out of that name of a block of that callee.
    pub fn in_out_class(
        &self,
        alloc: Global,
        callee: Callee,
        name: &[u8],
    ) -> Result<Option<Class>, AllocError>
        ensures { IfOk result (λ class. class ≡ class_of (formal_named name.now (in_outs_of self.now callee))) }
    {
        Ok(class_of(self.in_out_formal(alloc, callee, name)?))
    }

    /// The class of the output of that name of a block of that callee. The name is OUT at the result of a function.
    pub fn output_class(
        &self,
        alloc: Global,
        callee: Callee,
        name: &[u8],
    ) -> Result<Option<Class>, AllocError>
        ensures { IfOk result (λ class. class ≡ class_of (formal_named name.now (enabled ∷ outputs_of self.now callee))) }
    {
        Ok(class_of(self.output_formal(alloc, callee, name)?))
    }
}

//! What an expression, or the variable of an element, names and holds.
ghost use Rattle.std.specs.Prelude.{◌≡◌, ◌<◌, nat_eq, length, option_map, option_and_then, IfOk, IfSome};
ghost use Rattle.std.specs.List.{position_from};
ghost use Rattle.plcx_types.specs.Name.{in_lower_case};
ghost use Rattle.plcx_types.specs.ReadLiteral.{literal_of};
ghost use Rattle.plcx_rules.specs.Declarations.{can_be_written, declaration_named};
ghost use Rattle.plcx_rules.specs.Helds.{OfLiteral, held_by, name_held, output_held, member_held, held_in, text_held};
ghost use Rattle.plcx_names.specs.Seen.{shown_variable};
ghost use Rattle.plcx_names.specs.SeenHelds.{shown_named, held_as};
ghost use Rattle.plcx_names.specs.Holdings.{text_holding};

use crate::owner::Owner;
use crate::pins::{OwnPin, same_class};
use crate::scope::Scope;
use crate::texts::trimmed;
use crate::variables::OwnVariable;
use plcx_model::{ListClass, VarTy};
use plcx_types::{Literal, Ty, read_literal};
use std::alloc::{AllocError, Global};

/// What a text names, as it is declared: a literal, a variable of an elementary type, an instance, or an output of an
/// instance.
#[derive(Clone, Copy)]
pub enum Named<'a> {
    Literal(Literal),
    Variable {
        variable: OwnVariable<'a>,
        ty: Ty,
    },
    Instance(OwnVariable<'a>),
    Output {
        instance: OwnVariable<'a>,
        output: OwnPin<'a>,
    },
}

/// What a text holds by its type alone: a literal, a variable of an elementary type, an instance, or an output of an
/// instance.
#[derive(Clone, Copy, Debug, PartialEq, Eq)]
pub enum Held {
    Literal(Literal),
    Variable { ty: Ty, writable: bool },
    Instance,
    Output(Ty),
}

/// What a variable is by its name alone.
fn named_by<'a>(one: &OwnVariable<'a>) -> Named<'a>
    ensures { let d = shown_variable one.now in shown_named result ≡ held_by d d.variable.ty }
{
    match one.variable.ty {
        VarTy::Plain(ty) => Named::Variable { variable: *one, ty },
        VarTy::Std(_) | VarTy::Block(_) => Named::Instance(*one),
    }
}

/// What a name leads to.
fn name_named<'a>(
    alloc: Global,
    owner: &Owner<'a>,
    name: &[u8],
) -> Result<Option<Named<'a>>, AllocError>
    ensures { IfOk result (λ named. option_map shown_named named ≡ name_held owner.now name.now) }
{
    match owner.declaration(alloc, name)? {
        None => Ok(None),
        Some(one) => Ok(Some(named_by(&one))),
    }
}

fn first_point(text: &[u8]) -> Option<usize>
    ensures value { result ≡ position_from (nat_eq 46) 0 text.now }
    ensures within { IfSome result (λ point. point < length text.now) }
{
    for i in 0..text.len() {
        if b'.' == text[i] {
            return Some(i);
        }
    }
    None
}

/// An output of an instance.
fn output_named<'a>(
    alloc: Global,
    scope: &Scope<'a>,
    instance: &OwnVariable<'a>,
    output: &[u8],
) -> Result<Option<Named<'a>>, AllocError>
    ensures { IfOk result (λ named. option_map shown_named named ≡ output_held scope.now output.now (shown_variable instance.now)) }
{
    match scope.output_of_type(alloc, instance.variable.ty, output)? {
        None => Ok(None),
        Some(output) => Ok(Some(Named::Output {
            instance: *instance,
            output,
        })),
    }
}

/// An output of a named instance.
fn output_at<'a>(
    alloc: Global,
    scope: &Scope<'a>,
    owner: &Owner<'a>,
    instance: &[u8],
    output: &[u8],
) -> Result<Option<Named<'a>>, AllocError>
    ensures { IfOk result (λ named. option_map shown_named named ≡ option_and_then (output_held scope.now output.now) (declaration_named owner.now instance.now)) }
{
    match owner.declaration(alloc, instance)? {
        None => Ok(None),
        Some(instance) => output_named(alloc, scope, &instance, output),
    }
}

/// The output of an instance that a text names.
fn member_named<'a>(
    alloc: Global,
    scope: &Scope<'a>,
    owner: &Owner<'a>,
    text: &[u8],
) -> Result<Option<Named<'a>>, AllocError>
    ensures { IfOk result (λ named. option_map shown_named named ≡ member_held scope.now owner.now text.now) }
{
    match first_point(text) {
        None => Ok(None),
        Some(point) => {
            let (instance, output) = (&text[..point], &text[point + 1..]);
            output_at(alloc, scope, owner, instance, output)
        }
    }
}

/// The literal that a text is.
fn literal_named<'a>(text: &[u8]) -> Option<Named<'a>>
    ensures { option_map shown_named result ≡ option_map OfLiteral (literal_of (in_lower_case text.now)) }
{
    match read_literal(text) {
        Ok(literal) => Some(Named::Literal(literal)),
        Err(_) => None,
    }
}

/// What a text names without white space around it.
#[tactic(auto, unfolding(plcx_rules::specs::Helds::held_in))]
fn named_in<'a>(
    alloc: Global,
    scope: &Scope<'a>,
    owner: &Owner<'a>,
    text: &[u8],
) -> Result<Option<Named<'a>>, AllocError>
    ensures { IfOk result (λ named. option_map shown_named named ≡ held_in scope.now owner.now text.now) }
{
    if let Some(named) = literal_named(text) {
        return Ok(Some(named));
    }
    match name_named(alloc, owner, text) {
        Ok(None) => member_named(alloc, scope, owner, text),
        found => found,
    }
}

/// What the text of an element names in a POU, as it is declared.
pub fn text_named<'a>(
    alloc: Global,
    scope: &Scope<'a>,
    owner: &Owner<'a>,
    text: &[u8],
) -> Result<Option<Named<'a>>, AllocError>
    ensures { IfOk result (λ named. option_map shown_named named ≡ text_held scope.now owner.now text.now) }
{
    named_in(alloc, scope, owner, trimmed(text))
}

fn can_be_written(one: &OwnVariable) -> bool
    ensures { result ≡ can_be_written (shown_variable one.now) }
{
    matches!(one.variable.ty, VarTy::Plain(_))
        && !one.constant
        && !same_class(one.class, ListClass::Input)
}

#[tactic(auto, unfolding(crate::specs::SeenHelds::held_as))]
fn held_of(named: &Named) -> Held
    ensures { result ≡ held_as (shown_named named.now) }
{
    match named {
        Named::Literal(literal) => Held::Literal(*literal),
        Named::Variable { variable, ty } => Held::Variable {
            ty: *ty,
            writable: can_be_written(variable),
        },
        Named::Instance(_) => Held::Instance,
        Named::Output { output, .. } => Held::Output(output.ty),
    }
}

/// What the text of an element holds in a POU.
pub fn text_held<'a>(
    alloc: Global,
    scope: &Scope<'a>,
    owner: &Owner<'a>,
    text: &[u8],
) -> Result<Option<Held>, AllocError>
    ensures { IfOk result (λ held. held ≡ option_map held_as (text_held scope.now owner.now text.now)) }
{
    match text_named(alloc, scope, owner, text) {
        Ok(None) => Ok(None),
        Ok(Some(named)) => Ok(Some(held_of(&named))),
        Err(error) => Err(error),
    }
}

/// What an element may be by what it holds: whether it holds anything, what an inVariable
/// or a contact may hold, and a variable that can be written.
#[derive(Clone, Copy, Debug, PartialEq, Eq)]
pub struct Holding {
    pub known: bool,
    pub value: bool,
    pub operand: bool,
    pub target: bool,
}

/// An element that holds nothing.
pub const NOTHING: Holding = Holding {
    known: false,
    value: false,
    operand: false,
    target: false,
};

fn holding_of(known: bool, value: bool, operand: bool, target: bool) -> Holding
    ensures { result ≡ record { known = known; value = value; operand = operand; target = target } }
{
    Holding {
        known,
        value,
        operand,
        target,
    }
}

/// What an element of this text may be.
#[tactic(auto, using(crate::proofs::HoldingLaws::holding_is))]
pub fn text_holding(
    alloc: Global,
    scope: &Scope,
    owner: &Owner,
    text: &[u8],
) -> Result<Holding, AllocError>
    ensures { IfOk result (λ h. h ≡ text_holding scope.now owner.now text.now) }
{
    match text_held(alloc, scope, owner, text)? {
        None => Ok(NOTHING),
        Some(Held::Instance) => Ok(holding_of(true, false, false, false)),
        Some(Held::Literal(_literal)) => Ok(holding_of(true, true, false, false)),
        Some(Held::Output(_)) => Ok(holding_of(true, true, true, false)),
        Some(Held::Variable { writable, .. }) => Ok(holding_of(true, true, true, writable)),
    }
}

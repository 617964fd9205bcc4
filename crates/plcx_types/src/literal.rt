//! Literals: a value with its type, or a whole number that gets its type from its place.
ghost use Rattle.std.specs.Prelude.{◌≡◌, ℤ, pos, true, false, Some, None, IfSome, IfNone, IfOk, IfErr, MatchOption};
ghost use Rattle.std.specs.Option.{option_map};
ghost use Rattle.plcx_types.specs.declared.ty.Ty.TheVariants as ty;
ghost use Rattle.plcx_types.specs.Name.{in_lower_case};
ghost use Rattle.plcx_types.specs.Reading.{GivesRest};
ghost use Rattle.plcx_types.specs.TypeName.{all_types};
ghost use Rattle.plcx_types.specs.Literal.{value, StandsForLiteral, StandsForValue};
ghost use Rattle.plcx_types.specs.ReadLiteral.{truth, number_behind, of_type, typed, behind_name, typed_or_whole, timed_or_other, literal_of, as_value, value_of};
ghost use Rattle.plcx_types.specs.Value.{Value};
ghost use Rattle.plcx_types.specs.Literal.{IsNumber};
ghost use Rattle.std.specs.Result.{result_ok};
ghost use Rattle.plcx_types.specs.declared.literal.Literal.{Literal};

use crate::duration::time;
use crate::numeral::whole;
use crate::reading::behind;
use crate::ty::{ALL_TYPES, Ty};
use crate::val::Val;

/// What a literal stands for: a value, or a whole number without a type.
#[derive(Clone, Copy, Debug, PartialEq, Eq)]
pub enum Literal {
    Typed(Val),
    Whole(i128),
}

/// A text is no literal, or none of the type that is asked for.
#[derive(Clone, Copy, Debug, PartialEq, Eq)]
pub struct NotLiteral;

/// The number of TRUE or FALSE, whatever the case of its letters.
pub fn truth(text: &[u8]) -> Option<i128>
    ensures { result ≡ truth (in_lower_case text.now) }
{
    if text.eq_ignore_ascii_case(b"true") {
        Some(1)
    } else if text.eq_ignore_ascii_case(b"false") {
        Some(0)
    } else {
        None
    }
}

#[tactic(auto, unfolding(crate::specs::ReadLiteral::number_behind))]
fn number_behind(ty: Ty, text: &[u8]) -> Option<i128>
    ensures { result ≡ number_behind ty (in_lower_case text.now) }
{
    match ty {
        Ty::Time => time(text),
        Ty::Bool => truth(text).or(whole(text)),
        _ => whole(text),
    }
}

/// The number that a text stands for behind the name of a type and `#`; it may lie outside the type.
#[tactic(auto, using(crate::proofs::Literals::number_reads, crate::proofs::Literals::number_is))]
pub fn read_number(ty: Ty, text: &[u8]) -> Option<i128>
    ensures value { result ≡ number_behind ty (in_lower_case text.now) }
    ensures some { IfSome result (λ n. IsNumber ty (in_lower_case text.now) n) }
    ensures none { IfNone result ((n : ℤ) → IsNumber ty (in_lower_case text.now) n → ⊥) }
{
    number_behind(ty, text)
}

#[tactic(auto, unfolding(crate::specs::ReadLiteral::of_type))]
fn of_type(ty: Ty, n: i128) -> Option<Literal>
    ensures { result ≡ of_type ty n }
{
    let value = Val::new(ty, n)?;
    Some(Literal::Typed(value))
}

fn typed(ty: Ty, text: &[u8]) -> Option<Literal>
    ensures { result ≡ typed ty (in_lower_case text.now) }
{
    let n = number_behind(ty, text)?;
    of_type(ty, n)
}

fn behind_name(ty: Ty, text: &[u8]) -> Option<&[u8]>
    ensures { GivesRest (λ rest. in_lower_case rest.now) result (behind_name ty (in_lower_case text.now)) }
{
    let rest = behind(ty.name().as_bytes(), text)?;
    behind(b"#", rest)
}

#[tactic(auto, unfolding(crate::specs::ReadLiteral::typed_or_whole))]
fn typed_or_whole(types: &[Ty], text: &[u8]) -> Option<Literal>
    ensures { result ≡ typed_or_whole types.now (in_lower_case text.now) }
{
    for ty in types {
        if let Some(rest) = behind_name(*ty, text) {
            return typed(*ty, rest);
        }
    }
    let n = whole(text)?;
    Some(Literal::Whole(n))
}

#[tactic(auto, unfolding(crate::specs::ReadLiteral::timed_or_other))]
fn timed_or_other(text: &[u8]) -> Option<Literal>
    ensures { result ≡ timed_or_other (in_lower_case text.now) }
{
    match behind(b"t#", text) {
        Some(rest) => typed(Ty::Time, rest),
        None => typed_or_whole(&ALL_TYPES, text),
    }
}

#[tactic(auto, unfolding(crate::specs::ReadLiteral::literal_of))]
fn literal_of(text: &[u8]) -> Option<Literal>
    ensures { result ≡ literal_of (in_lower_case text.now) }
{
    match truth(text) {
        Some(n) => of_type(Ty::Bool, n),
        None => timed_or_other(text),
    }
}

/// The literal that a text is.
#[tactic(auto, using(crate::proofs::Literals::literal_reads, crate::proofs::Literals::literal_is))]
pub fn read_literal(text: &[u8]) -> Result<Literal, NotLiteral>
    ensures ok { IfOk result (λ literal. StandsForLiteral text.now literal) }
    ensures none { IfErr result (λ _. (literal : Literal) → StandsForLiteral text.now literal → ⊥) }
    ensures value { result_ok result ≡ literal_of (in_lower_case text.now) }
{
    literal_of(text).ok_or(NotLiteral)
}

#[tactic(auto, unfolding(crate::specs::ReadLiteral::as_value))]
fn as_value(ty: Ty, literal: Literal) -> Option<Val>
    ensures { result ≡ as_value ty literal }
{
    match literal {
        Literal::Typed(value) => value.of_type(ty),
        Literal::Whole(n) => {
            if ty == Ty::Time {
                None
            } else {
                Val::new(ty, n)
            }
        }
    }
}

fn value_of(ty: Ty, text: &[u8]) -> Option<Val>
    ensures { result ≡ value_of ty text.now }
{
    let literal = literal_of(text)?;
    as_value(ty, literal)
}

/// The value of the type that a text is: a typed literal of it, or a whole number in its range. A whole number is no length of time.
#[tactic(auto, using(crate::proofs::Literals::value_is))]
pub fn read_value(ty: Ty, text: &[u8]) -> Result<Val, NotLiteral>
    ensures ok { IfOk result (λ value. StandsForValue ty text.now value) }
    ensures none { IfErr result (λ _. (value : Value) → StandsForValue ty text.now value → ⊥) }
    ensures value { result_ok result ≡ value_of ty text.now }
{
    value_of(ty, text).ok_or(NotLiteral)
}

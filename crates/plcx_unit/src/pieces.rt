//! What is found of values, literals and names.
ghost use Rattle.std.specs.Prelude.{◌≡◌, List, option_map, None, Some};
ghost use Rattle.plcx_meaning.specs.Tree.{PouText};
ghost use Rattle.plcx_meaning.specs.Layout.{is_constant};
ghost use Rattle.plcx_st.specs.Meant.{mark_meant};
ghost use Rattle.plcx_conditions.specs.declared.broken.Condition.TheVariants.{Types};
ghost use Rattle.plcx_conditions.specs.Broken.{broken_if};
ghost use Rattle.plcx_conditions.specs.First.{first_of};
ghost use Rattle.plcx_conditions.specs.Places.{placed_number};
ghost use Rattle.plcx_conditions.specs.Known.{is_instance, differ};
ghost use Rattle.plcx_conditions.specs.Expressions.{broken_in_literal};
ghost use Rattle.plcx_conditions.specs.Statements.{is_target};
ghost use Rattle.plcx_known.specs.Types.{meaning_of};
ghost use Rattle.plcx_known.specs.Owned.{shown_seen};
ghost use Rattle.plcx_unit.specs.Pieces.{elementary_of};

use crate::first::broken_if;
use plcx_conditions::{Broken, Condition};
use plcx_known::{Seen, VarType};
use plcx_st::{Mark, Number, TextClass};
use plcx_types::{Ty, in_range};

/// What is found of an expression: what comes first of all that is broken in it, its type, and the byte where its first
/// token begins that is no opening bracket.
#[derive(Clone, Copy, Debug, PartialEq, Eq)]
pub(crate) struct Judged {
    pub broken: Option<Broken>,
    pub ty: Option<Ty>,
    pub at: u64,
}

/// What is found of several expressions: what comes first of all that is broken in them, and their types.
#[derive(Drop)]
pub(crate) struct Listed {
    pub broken: Option<Broken>,
    pub types: Option<Vec<Ty>>,
}

/// The condition on a literal.
pub(crate) fn literal_broken(n: &Number) -> Option<Broken>
    ensures { result ≡ first_of (broken_in_literal (placed_number n.now)) }
{
    broken_if(!in_range(n.ty, n.n), Condition::Literal, n.span.start)
}

/// Whether an instance has the type.
pub(crate) fn is_instance(ty: VarType) -> bool
    ensures { (unit : List PouText) → result ≡ is_instance (meaning_of unit ty) }
{
    match ty {
        VarType::Unknown | VarType::Elementary(_) => false,
        VarType::Standard(_) | VarType::Block(_) => true,
    }
}

/// The type of a value of a variable of this type.
pub(crate) fn elementary_of(ty: VarType) -> Option<Ty>
    ensures { (unit : List PouText) → result ≡ elementary_of (meaning_of unit ty) }
{
    match ty {
        VarType::Elementary(ty) => Some(ty),
        VarType::Unknown | VarType::Standard(_) | VarType::Block(_) => None,
    }
}

/// Whether both types are known, and differ.
pub(crate) fn differ(wanted: VarType, ty: Option<Ty>) -> bool
    ensures { (unit : List PouText) → result ≡ differ (meaning_of unit wanted) ty }
{
    match (wanted, ty) {
        (VarType::Unknown, _) | (_, None) => false,
        (VarType::Elementary(wanted), Some(ty)) => wanted != ty,
        (VarType::Standard(_) | VarType::Block(_), Some(_)) => true,
    }
}

/// The condition on a value that goes to a variable of this type.
pub(crate) fn value_broken(wanted: VarType, one: &Judged) -> Option<Broken>
    ensures { (unit : List PouText) → result ≡ first_of (broken_if (differ (meaning_of unit wanted) one.now.ty) Types one.now.at) }
{
    broken_if(differ(wanted, one.ty), Condition::Types, one.at)
}

fn is_constant(mark: Mark) -> bool
    ensures { result ≡ is_constant (mark_meant mark) }
{
    match mark {
        Mark::Plain | Mark::Retain => false,
        Mark::Constant => true,
    }
}

/// Whether a variable can be stored to.
pub(crate) fn is_target(v: Seen) -> bool
    ensures { (unit : List PouText) → result ≡ is_target (shown_seen unit v) }
{
    match v.class {
        TextClass::Input => false,
        _ => !(is_constant(v.mark) || is_instance(v.ty)),
    }
}

//! Laws of the definitions, each on a function of its own.
ghost use Rattle.std.specs.Prelude.{◌≡◌, ◌↔◌, ℕ, true, List, Some};
ghost use Rattle.plcx_types.specs.declared.ty.Ty.{Ty};
ghost use Rattle.plcx_types.specs.declared.literal.Literal.{Literal};
ghost use Rattle.plcx_types.specs.TypeName.{same_ty, type_name, type_named};
ghost use Rattle.plcx_types.specs.Literal.{StandsForLiteral, StandsForValue};
ghost use Rattle.plcx_types.specs.Range.{InRange};
ghost use Rattle.plcx_types.specs.Value.{Value};
ghost use Rattle.plcx_types.specs.Printed.{printed};

/// A text stands for one literal at most.
#[tactic(auto, using(crate::proofs::Literals::one_form))]
pub fn one_literal()
    ensures { (text : List ℕ) (first second : Literal) → StandsForLiteral text first → StandsForLiteral text second → first ≡ second }
{}

/// A type is known by its name, and compared as it is.
#[tactic(auto, using(crate::proofs::TypeTable::same_is, crate::proofs::TypeTable::same_refl, crate::proofs::TypeTable::named_again))]
pub fn types_by_name()
    ensures named { (t : Ty) → type_named (type_name t) ≡ Some t }
    ensures same { (t u : Ty) → (same_ty t u ≡ true) ↔ (t ≡ u) }
{}

/// What is printed of a value is read as that value, and as no other.
#[tactic(auto, using(crate::proofs::Printing::printed_again, crate::proofs::Printing::printed_once))]
pub fn printed_is_read()
    ensures again { (v : Value) → InRange v.ty v.n → StandsForValue v.ty (printed v) v }
    ensures only { (v w : Value) → InRange v.ty v.n → StandsForValue v.ty (printed v) w → w ≡ v }
{}

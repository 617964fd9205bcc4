//! What a name leads to.
ghost use Rattle.std.specs.Prelude.{◌≡◌, List, option_copied, option_map};
ghost use Rattle.std.specs.List.{find};
ghost use Rattle.plcx_std.specs.declared.pin.StdPin.{StdPin};
ghost use Rattle.plcx_std.specs.Pins.{shown};
ghost use Rattle.plcx_meaning.specs.Tree.{PouText};
ghost use Rattle.plcx_meaning.specs.Layout.{variables_of};
ghost use Rattle.plcx_meaning.specs.Standard.{pin_blocks};
ghost use Rattle.plcx_st.specs.Meant.{class_meant};
ghost use Rattle.plcx_conditions.specs.Known.{same_name, seen, seen_in};
ghost use Rattle.plcx_known.specs.Owned.{shown_seen};
ghost use Rattle.plcx_known.specs.Parts.{role_class, pin_variable};

use crate::types::VarType;
use plcx_st::{Mark, TextClass};
use plcx_std::{Role, StdKind, StdPin, pins};

/// What a name leads to: a variable, by the class and the mark of its block, and by what its type stands for.
#[derive(Clone, Copy, Debug, PartialEq, Eq)]
pub struct Seen {
    pub class: TextClass,
    pub mark: Mark,
    pub ty: VarType,
}

fn role_class(role: Role) -> TextClass
    ensures { class_meant result ≡ role_class role }
{
    match role {
        Role::In => TextClass::Input,
        Role::Out => TextClass::Output,
        Role::Hidden => TextClass::Var,
    }
}

fn is_named(pin: &StdPin, name: &[u8]) -> bool
    ensures { result ≡ same_name pin.now.name.now name.now }
{
    plcx_types::same_name(pin.name.as_bytes(), name)
}

fn pin_named<'k>(pins: &'k [StdPin], name: &[u8]) -> Option<&'k StdPin>
    ensures { option_copied result ≡ find (λ (p : StdPin). same_name (shown p).name name.now) pins.now }
{
    pins.iter().find(|pin| is_named(*pin, name))
}

#[tactic(auto, using(crate::proofs::Parts::type_known))]
fn pin_seen(pin: &StdPin) -> Seen
    ensures { (unit : List PouText) → shown_seen unit result ≡ seen unit (pin_variable (shown pin.now)) }
{
    Seen {
        class: role_class(pin.role),
        mark: Mark::Plain,
        ty: VarType::Elementary(pin.ty),
    }
}

/// What a name leads to among the variables of a standard block.
pub(crate) fn standard_part(kind: StdKind, name: &[u8]) -> Option<Seen>
    ensures { (unit : List PouText) → option_map (shown_seen unit) result ≡ seen_in unit (variables_of (pin_blocks kind)) name.now }
{
    match pin_named(pins(kind), name) {
        None => None,
        Some(pin) => Some(pin_seen(pin)),
    }
}

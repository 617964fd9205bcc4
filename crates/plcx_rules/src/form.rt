//! The form of a body, which its types go by: where the type of each input pin, of each output and of each wire comes
//! from. And the rules on types.
ghost use Rattle.std.specs.Prelude.{◌≡◌};
ghost use Rattle.plcx_rules.specs.TypingRules.{type_rule_number};

use plcx_funcs::{Allowed, Class};
use plcx_types::Ty;
use sqlite_items::Items;

/// An input pin or an in-out pin, which is named by its number in the body.
#[derive(Clone, Copy, Debug, PartialEq, Eq)]
pub struct Pin {
    /// The place of the pin's element in the body.
    pub element: u32,
    /// Where the pin's type comes from: at a connector and a continuation from the group, which is the element itself.
    /// An element that hasn't such a pin gives none.
    pub class: Option<Class>,
    /// The value is negated, or sets or resets what it is stored to.
    pub modified: bool,
}

/// Where the type of an output or a wire comes from.
#[derive(Clone, Copy, Debug, PartialEq, Eq)]
pub enum Gives {
    Typed(Ty),
    /// The types of the element's group, or of the sources of a connector or a continuation.
    Grouped,
    /// An untyped literal.
    Untyped(i128),
    Nothing,
}

/// An output, and whether it is negated.
#[derive(Clone, Copy, Debug, PartialEq, Eq)]
pub struct Out {
    pub gives: Gives,
    pub negated: bool,
}

/// The outputs of an element: a block's in the order in which they are listed.
#[derive(Debug, Drop)]
pub enum Outputs {
    Absent,
    Single(Out),
    Listed(Items<Out>),
}

/// Which types the pins of an element share.
#[derive(Clone, Copy, Debug, PartialEq, Eq)]
pub enum Grouping {
    Apart,
    /// The group of a function, and the types that it may have.
    Function(Allowed),
    /// A connector or a continuation.
    Passing,
}

/// What an element is to the types.
#[derive(Debug, Drop)]
pub struct Form {
    pub outputs: Outputs,
    pub grouping: Grouping,
    /// The type of the variable of a contact or a coil.
    pub operand: Option<Ty>,
}

/// A wire of the element at this place in the body.
#[derive(Clone, Copy, Debug, PartialEq, Eq)]
pub struct WireForm {
    pub element: u32,
    pub gives: Gives,
}

/// A rule from 34 to 36, in the order in which they are tested.
#[derive(Clone, Copy, Debug, PartialEq, Eq)]
pub enum TypeRule {
    /// No type can be derived.
    NoType,
    /// Two types disagree.
    Disagreement,
    /// An untyped literal is outside a type that it takes.
    Range,
}

impl TypeRule {
    /// Its number.
    pub fn number(self) -> u8
        ensures { result ≡ type_rule_number self }
    {
        match self {
            TypeRule::NoType => 34,
            TypeRule::Disagreement => 35,
            TypeRule::Range => 36,
        }
    }
}

//! Projects: POUs, and what they declare.
ghost use Rattle.std.specs.Prelude.{◌≡◌};

use crate::body::Body;
use plcx_std::StdKind;
use plcx_types::{Ident, Ty, Val};
use sqlite_items::Items;

/// What a POU is.
#[derive(Clone, Copy, Debug, PartialEq, Eq)]
pub enum PouKind {
    Program,
    FunctionBlock,
}

/// What the variables of a list are to a caller.
#[derive(Clone, Copy, Debug, PartialEq, Eq)]
pub enum ListClass {
    Local,
    Input,
    Output,
    InOut,
}

/// The type of a variable: an elementary one, a standard block, or the function block at this place among the POUs.
#[derive(Clone, Copy, Debug, PartialEq, Eq)]
pub enum VarTy {
    Plain(Ty),
    Std(StdKind),
    Block(u32),
}

/// A variable as it is declared. Its address is in upper case.
#[derive(Debug, Drop)]
pub struct Variable {
    pub name: Ident,
    pub address: Option<Items<u8>>,
    pub ty: VarTy,
    pub initial: Option<Val>,
}

/// A list of variables with its marks. A list that is marked as constant isn't retained.
#[derive(Debug, Drop)]
pub struct VarList {
    pub class: ListClass,
    pub constant: bool,
    pub retain: bool,
    pub variables: Items<Variable>,
}

/// A program or a function block.
#[derive(Debug, Drop)]
pub struct Pou {
    pub name: Ident,
    pub kind: PouKind,
    pub lists: Items<VarList>,
    pub body: Body,
}

/// The POUs of a file, in its order.
#[derive(Debug, Drop)]
pub struct Project {
    pub pous: Items<Pou>,
}

impl VarList {
    /// Its variables, in the order of the file.
    pub fn variables(&self) -> &[Variable]
        ensures { result.now ≡ self.now.variables }
    {
        self.variables.as_slice()
    }
}

impl Pou {
    /// Its lists of variables, in the order of the file.
    pub fn lists(&self) -> &[VarList]
        ensures { result.now ≡ self.now.lists }
    {
        self.lists.as_slice()
    }
}

impl Project {
    /// Its POUs, in the order of the file.
    pub fn pous(&self) -> &[Pou]
        ensures { result.now ≡ self.now.pous }
    {
        self.pous.as_slice()
    }
}

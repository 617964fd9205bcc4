//! The standard functions.
use plcx_types::Ty;

/// A standard function. A conversion has two different types.
#[derive(Clone, Copy, Debug, PartialEq, Eq)]
pub enum Func {
    Add,
    Mul,
    Sub,
    Div,
    Mod,
    Abs,
    Move,
    And,
    Or,
    Xor,
    Not,
    Shl,
    Shr,
    Rol,
    Ror,
    Sel,
    Max,
    Min,
    Limit,
    Mux,
    Gt,
    Ge,
    Eq,
    Le,
    Lt,
    Ne,
    Conv { from: Ty, to: Ty },
}

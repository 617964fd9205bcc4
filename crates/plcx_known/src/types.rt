//! What the name of a type stands for.
use plcx_std::StdKind;
use plcx_types::Ty;

/// What the name of a type stands for in a unit: nothing, an elementary type, a standard block, or the function block at
/// a place among the POUs.
#[derive(Clone, Copy, Debug, PartialEq, Eq)]
pub enum VarType {
    Unknown,
    Elementary(Ty),
    Standard(StdKind),
    Block(usize),
}

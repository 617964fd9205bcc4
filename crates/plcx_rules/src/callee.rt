//! What a block can be of.
use plcx_funcs::Func;
use plcx_std::StdKind;

/// What the `typeName` of a block names: a function, a standard block, or the function block at this place among the
/// POUs.
#[derive(Clone, Copy, Debug, PartialEq, Eq)]
pub enum Callee {
    Function(Func),
    Standard(StdKind),
    Block(u32),
}

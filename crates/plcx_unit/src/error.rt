//! Why a unit isn't ready.
use plcx_st::Unit;

/// Why a unit isn't ready: the condition that it breaks first, with the byte where the token begins that is to blame, or
/// want of memory.
#[derive(Clone, Copy, Debug, PartialEq, Eq)]
pub enum UnitFault {
    Name { at: u64 },
    WrongType { at: u64 },
    Recursion { at: u64 },
    Literal { at: u64 },
    NoMemory,
}

/// A unit that isn't ready, as it was given.
#[derive(Debug, Drop)]
pub struct UnitError {
    pub unit: Unit,
    pub fault: UnitFault,
}

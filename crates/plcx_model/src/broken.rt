//! Which rule is broken, and where.
use plcx_types::Ident;

/// The number of a rule, from 1 to 36.
#[derive(Clone, Copy, Debug, PartialEq, Eq)]
pub struct Rule(pub u8);

/// A byte of the file, or an element of a POU's body.
#[derive(Debug, Drop)]
pub enum Place {
    Byte(u64),
    Element { pou: Ident, local_id: u64 },
}

/// The first rule that is broken, at its first place.
#[derive(Debug, Drop)]
pub struct Broken {
    pub rule: Rule,
    pub place: Place,
}

//! What a file says, as it is written: declarations are texts yet, bodies are as they are checked from rule 20 on.
use plcx_model::{Body, ListClass, PouKind};
use plcx_types::Ty;
use sqlite_items::Items;

/// The type that a declaration names.
#[derive(Debug, Drop)]
pub enum DraftType {
    Plain(Ty),
    Derived(Items<u8>),
}

/// A variable as a file declares it. Its address is in upper case, and empty where there is none; its start is the
/// byte where its element begins.
#[derive(Debug, Drop)]
pub struct DraftVariable {
    pub name: Items<u8>,
    pub address: Items<u8>,
    pub ty: DraftType,
    pub initial: Option<Items<u8>>,
    pub start: u64,
}

/// A list of variables with its marks. A list that is marked as constant isn't retained.
#[derive(Debug, Drop)]
pub struct DraftList {
    pub class: ListClass,
    pub constant: bool,
    pub retain: bool,
    pub variables: Items<DraftVariable>,
}

/// A POU as a file declares it, with the byte where its element begins.
#[derive(Debug, Drop)]
pub struct DraftPou {
    pub name: Items<u8>,
    pub kind: PouKind,
    pub lists: Items<DraftList>,
    pub body: Body,
    pub start: u64,
}

/// The POUs of a file, in its order.
#[derive(Debug, Drop)]
pub struct Draft {
    pub pous: Items<DraftPou>,
}

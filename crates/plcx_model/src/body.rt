//! Bodies: the elements of a diagram, and their connections.
ghost use Rattle.std.specs.Prelude.{◌≡◌};

use sqlite_items::Items;

/// At which change of a value something is done.
#[derive(Clone, Copy, Debug, PartialEq, Eq)]
pub enum Edge {
    Plain,
    Rising,
    Falling,
}

/// Whether a value is stored as it is, or sets or resets what it is stored to.
#[derive(Clone, Copy, Debug, PartialEq, Eq)]
pub enum Storage {
    Plain,
    Set,
    Reset,
}

/// The modifiers of an element or a pin.
#[derive(Clone, Copy, Debug, PartialEq, Eq)]
pub struct Mods {
    pub negated: bool,
    pub edge: Edge,
    pub storage: Storage,
}

/// A connection at an input pin, to the element of that localId and its output of that name. An empty name is none.
#[derive(Debug, Drop)]
pub struct Connection {
    pub element: u64,
    pub formal: Items<u8>,
}

/// An input pin or an in-out pin of a block, with its connections.
#[derive(Debug, Drop)]
pub struct PinIn {
    pub formal: Items<u8>,
    pub mods: Mods,
    pub input: Items<Connection>,
}

/// An output pin of a block.
#[derive(Debug, Drop)]
pub struct PinOut {
    pub formal: Items<u8>,
    pub mods: Mods,
}

/// What an element is. Its texts stand as in the file, white space included.
#[derive(Debug, Drop)]
pub enum Kind {
    /// A comment or a vendor's element.
    Skipped,
    LeftRail,
    /// With the connections of all its points.
    RightRail {
        input: Items<Connection>,
    },
    Contact {
        input: Items<Connection>,
        text: Items<u8>,
        mods: Mods,
    },
    Coil {
        input: Items<Connection>,
        text: Items<u8>,
        mods: Mods,
    },
    In {
        text: Items<u8>,
        mods: Mods,
    },
    Out {
        input: Items<Connection>,
        text: Items<u8>,
        mods: Mods,
    },
    Block {
        type_name: Items<u8>,
        instance: Option<Items<u8>>,
        inputs: Items<PinIn>,
        in_outs: Items<PinIn>,
        outputs: Items<PinOut>,
    },
    Connector {
        name: Items<u8>,
        input: Items<Connection>,
    },
    /// It has one input pin, which no connection of its own names: its source is the connector of its name.
    Continuation {
        name: Items<u8>,
    },
    Label {
        name: Items<u8>,
    },
    Jump {
        label: Items<u8>,
        input: Items<Connection>,
    },
    Return {
        input: Items<Connection>,
    },
}

/// An element of a body. Its position is in millionths, and its order is the `executionOrderId` as it is given.
#[derive(Debug, Drop)]
pub struct BodyElement {
    pub local_id: u64,
    pub order: Option<u64>,
    pub x: i64,
    pub y: i64,
    pub kind: Kind,
}

/// A body: a ladder diagram, or else a function block diagram.
#[derive(Debug, Drop)]
pub struct Body {
    pub ladder: bool,
    pub elements: Items<BodyElement>,
}

impl Body {
    /// Its elements, in the order of the file.
    pub fn elements(&self) -> &[BodyElement]
        ensures { result.now ≡ self.now.elements }
    {
        self.elements.as_slice()
    }
}

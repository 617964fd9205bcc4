//! What is found out about the bodies of a project. The input pins of a body are numbered by element in document
//! order; at a block its input pins come before its in-out pins, and a continuation has one.
ghost use Rattle.std.specs.Prelude.{◌≡◌};

use crate::source::Source;
use plcx_types::Ty;
use sqlite_items::Items;

/// For each body and each of its input pins, the sources.
#[derive(Debug, Drop)]
pub struct Links {
    pub bodies: Items<Items<Items<Source>>>,
}

/// For each body the type of each input pin, and the type of each wire by element and wire.
#[derive(Debug, Drop)]
pub struct Types {
    pub inputs: Items<Items<Ty>>,
    pub wires: Items<Items<Ty>>,
}

/// The networks of a body, each with the places of its elements in their order, and for each connection whether it is
/// feedback.
#[derive(Debug, Drop)]
pub struct BodyPlan {
    pub networks: Items<Items<u32>>,
    pub marks: Items<bool>,
}

/// For each body its plan.
#[derive(Debug, Drop)]
pub struct Plan {
    pub bodies: Items<BodyPlan>,
}

impl Links {
    /// For each body, in the order of the POUs, the sources of each input pin.
    pub fn bodies(&self) -> &[Items<Items<Source>>]
        ensures { result.now ≡ self.now.bodies }
    {
        self.bodies.as_slice()
    }
}

impl Types {
    /// For each body the type of each input pin.
    pub fn inputs(&self) -> &[Items<Ty>]
        ensures { result.now ≡ self.now.inputs }
    {
        self.inputs.as_slice()
    }

    /// For each body the type of each wire.
    pub fn wires(&self) -> &[Items<Ty>]
        ensures { result.now ≡ self.now.wires }
    {
        self.wires.as_slice()
    }
}

impl BodyPlan {
    /// The networks, in their order.
    pub fn networks(&self) -> &[Items<u32>]
        ensures { result.now ≡ self.now.networks }
    {
        self.networks.as_slice()
    }

    /// One mark a connection.
    pub fn marks(&self) -> &[bool]
        ensures { result.now ≡ self.now.marks }
    {
        self.marks.as_slice()
    }
}

impl Plan {
    /// For each body, in the order of the POUs, its plan.
    pub fn bodies(&self) -> &[BodyPlan]
        ensures { result.now ≡ self.now.bodies }
    {
        self.bodies.as_slice()
    }
}

//! The drawing of a POU: its elements, and the networks that they stand in.
ghost use Rattle.std.specs.Prelude.{◌≡◌};

use crate::element::Element;
use plcx_model::Pou;
use sqlite_items::Items;

/// A POU with its elements in the order of the file, and its networks, each with the places of its elements.
#[derive(Drop)]
pub struct Drawing<'a> {
    pub pou: &'a Pou,
    pub elements: Items<Element<'a>>,
    pub networks: &'a [Items<u32>],
}

impl<'a> Drawing<'a> {
    /// The elements, in the order of the file.
    pub fn elements(&self) -> &[Element<'a>]
        ensures { result.now ≡ self.now.elements }
    {
        self.elements.as_slice()
    }
}

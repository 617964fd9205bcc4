//! The input pins of a body, one after another.
ghost use Rattle.std.specs.Prelude.{◌≡◌, drop, slice_get, option_map};
ghost use Rattle.plcx_draw.specs.Pins.{shown_pin, shown_pins};

use plcx_model::Source;
use plcx_types::Ty;
use sqlite_items::Items;

/// An input pin: its type, its sources, and marks of which those in front tell which of its connections feed back.
#[derive(Clone, Copy)]
pub(crate) struct Pin<'a> {
    pub(crate) ty: Ty,
    pub(crate) sources: &'a [Source],
    pub(crate) marks: &'a [bool],
}

/// The input pins of a body from one of them on: their types, their sources, and the marks of their connections.
#[derive(Clone, Copy)]
pub(crate) struct Pins<'a> {
    pub(crate) types: &'a [Ty],
    pub(crate) sources: &'a [Items<Source>],
    pub(crate) marks: &'a [bool],
}

/// The marks behind those of a pin that has so many sources.
fn marks_behind(marks: &[bool], count: usize) -> &[bool]
    ensures { result.now ≡ drop count marks.now }
{
    if count <= marks.len() {
        &marks[count..]
    } else {
        &marks[marks.len()..]
    }
}

impl<'a> Pins<'a> {
    /// The first of them.
    pub(crate) fn first(self) -> Option<Pin<'a>>
        ensures { option_map shown_pin result ≡ slice_get (shown_pins self.entry) 0 }
    {
        if self.types.is_empty() {
            return None;
        }
        if self.sources.is_empty() {
            return None;
        }
        Some(Pin {
            ty: self.types[0],
            sources: self.sources[0].as_slice(),
            marks: self.marks,
        })
    }

    /// Those behind the first.
    pub(crate) fn rest(self) -> Pins<'a>
        ensures { shown_pins result ≡ drop 1 (shown_pins self.entry) }
    {
        if self.types.is_empty() {
            return self;
        }
        if self.sources.is_empty() {
            return self;
        }
        Pins {
            types: &self.types[1..],
            sources: &self.sources[1..],
            marks: marks_behind(self.marks, self.sources[0].len()),
        }
    }

    /// Those behind so many.
    pub(crate) fn behind(self, count: usize) -> Pins<'a>
        ensures { shown_pins result ≡ drop count (shown_pins self.entry) }
    {
        let mut pins = self;
        for _step in 0..count {
            pins = pins.rest();
        }
        pins
    }
}

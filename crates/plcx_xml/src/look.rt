//! Looking at a tree, one part at a time.
ghost use Rattle.std.specs.Prelude.{◌≡◌};
ghost use Rattle.plcx_xml.specs.Look.{name_of, children_of, attributes_of, span_of};

use crate::tree::{Attribute, Element, Node, Text};
use plcx_types::Span;

impl<'a> Element<'a> {
    /// Its name, as it stands in its tags.
    pub fn name(&self) -> &[u8]
        ensures { result.now ≡ name_of self.now }
    {
        self.name.bytes()
    }

    /// Its parts, in the order of the file.
    pub fn children(&self) -> &[Node<'a>]
        ensures { result.now ≡ children_of self.now }
    {
        self.children.as_slice()
    }

    /// Its attributes, in the order of the file.
    pub fn attributes(&self) -> &[Attribute<'a>]
        ensures { result.now ≡ attributes_of self.now }
    {
        self.attributes.as_slice()
    }

    /// Where it stands in the file, from its start tag to its end tag, in bytes.
    pub fn span(&self) -> Span
        ensures { result ≡ span_of self.now }
    {
        self.span
    }
}

impl<'a> Attribute<'a> {
    /// Its name, as it stands in the tag.
    pub fn name(&self) -> &[u8]
        ensures { result.now ≡ self.now.name }
    {
        self.name.bytes()
    }

    /// Its value, in which each reference has become its character.
    pub fn value(&self) -> &[u8]
        ensures { result.now ≡ self.now.value }
    {
        self.value.bytes()
    }

    /// Where it stands in the file, from its name to its closing quote, in bytes.
    pub fn span(&self) -> Span
        ensures { result ≡ self.now.span }
    {
        self.span
    }
}

impl<'a> Text<'a> {
    /// Its characters, in which each reference has become its character.
    pub fn value(&self) -> &[u8]
        ensures { result.now ≡ self.now.value }
    {
        self.value.bytes()
    }

    /// Where it stands in the file, in bytes; comments and instructions inside it are counted.
    pub fn span(&self) -> Span
        ensures { result ≡ self.now.span }
    {
        self.span
    }
}

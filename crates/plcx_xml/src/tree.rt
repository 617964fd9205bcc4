//! The tree of an exchange file. All of its bytes are UTF-8, and all spans count bytes from the file's start.
use crate::content::Content;
use crate::name::Name;
use plcx_types::Span;
use sqlite_items::Items;

/// An attribute. Its span begins at its name and ends behind its closing quote.
#[derive(Drop)]
pub struct Attribute<'a> {
    pub name: Name<'a>,
    pub value: Content<'a>,
    pub span: Span,
}

/// What stands between two tags. Its span begins with its first token and ends with its last.
#[derive(Drop)]
pub struct Text<'a> {
    pub value: Content<'a>,
    pub span: Span,
}

/// A part of a tree.
#[cycle(tree)]
#[derive(Drop)]
pub enum Node<'a> {
    Element(Element<'a>),
    Text(Text<'a>),
}

/// An element with all that stands in it. Its span goes from the start of its first tag to the end of its last.
#[cycle(tree)]
#[derive(Drop)]
pub struct Element<'a> {
    pub name: Name<'a>,
    pub attributes: Items<Attribute<'a>>,
    pub children: Items<Node<'a>>,
    pub span: Span,
}

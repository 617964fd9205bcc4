//! Tokens: the pieces that a file is made of.
use crate::content::Content;
use crate::name::Name;
use crate::tree::Attribute;
use plcx_types::Span;
use sqlite_items::Items;

/// What a token is. A reference and a CDATA section have the bytes that they stand for.
#[derive(Drop)]
pub enum Kind<'a> {
    Start(Name<'a>, Items<Attribute<'a>>),
    Empty(Name<'a>, Items<Attribute<'a>>),
    End(Name<'a>),
    Text(Content<'a>),
    Reference(Content<'a>),
    Cdata(Content<'a>),
    Comment,
    Instruction,
}

/// A piece of an exchange file that stands for itself.
#[derive(Drop)]
pub struct Token<'a> {
    pub kind: Kind<'a>,
    pub span: Span,
}

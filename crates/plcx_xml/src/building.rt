//! A tree out of its tokens, by a stack of the open elements.
ghost use Rattle.std.specs.Prelude.{◌≡◌, [], ◌∷◌, ◌++◌, Bool, false, true, not, length, map, reverse, IfOk, OnOk, MatchResult};
ghost use Rattle.std.specs.List.{flat_map, list_all};
ghost use Rattle.plcx_xml.specs.Character.{is_space};
ghost use Rattle.plcx_xml.specs.Events.{Begin, Chars, End, events_of, events_of_element, kind_events, with_event};
ghost use Rattle.plcx_xml.specs.Nesting.{settled, begin_step, end_step, text_step, step, any_depth, below_limit};
ghost use Rattle.plcx_xml.specs.Built.{Going, Broken, Deep, State, opened, frame_names, open_place, state_of, names_of, next, went, held, with_text, with_token, built_events, Keeps, Ends};
ghost use Rattle.plcx_xml.specs.declared.building.Build.TheVariants as built;
ghost use Rattle.plcx_xml.specs.declared.token.Kind.TheVariants as kind;

use crate::content::Content;
use crate::error::XmlError;
use crate::lexing::is_blank;
use crate::name::Name;
use crate::token::{Kind, Token};
use crate::tree::{Attribute, Element, Node, Text};
use plcx_types::Span;
use plcx_types::limits::MAX_ELEMENT_DEPTH;
use sqlite_items::Items;
use std::alloc::{AllocError, Global};

/// An element that is open.
#[derive(Drop)]
pub struct Frame<'a> {
    name: Name<'a>,
    attributes: Items<Attribute<'a>>,
    children: Items<Node<'a>>,
    start: u64,
}

/// What is built so far: the elements that are open, or the root once it is closed. Once it is too deep,
/// or once the nesting is broken, nothing more is built.
#[derive(Drop)]
pub enum Build<'a> {
    Open(Vec<Frame<'a>>),
    Closed(Element<'a>),
    Deep { names: Vec<Name<'a>>, at: u64 },
    Broken { at: u64 },
}

/// Puts an element into the innermost open one. Where none is open, it is the root.
fn put_element<'a>(
    mut frames: Vec<Frame<'a>>,
    element: Element<'a>,
) -> Result<Build<'a>, AllocError>
    ensures state { IfOk result (λ build. state_of build ≡ Going (settled (frame_names frames.entry.items))) }
    ensures events { IfOk result (λ build. Keeps build (flat_map opened frames.entry.items ++ events_of_element element.entry)) }
{
    match frames.pop() {
        None => Ok(Build::Closed(element)),
        Some(mut frame) => {
            frame.children.push(Node::Element(element))?;
            frames.push(frame)?;
            Ok(Build::Open(frames))
        }
    }
}

/// A text with one more behind it.
fn join<'a>(alloc: Global, text: Text<'a>, more: &[u8], span: Span) -> Result<Text<'a>, AllocError>
    ensures { IfOk result (λ both. (both.value ≡ text.entry.value ++ more.now) × (both.span ≡ record { start = text.entry.span.start; end = span.end })) }
{
    let Text { value, span: own } = text;
    let value = value.followed_by(alloc, more)?;
    Ok(Text {
        value,
        span: Span {
            start: own.start,
            end: span.end,
        },
    })
}

/// Puts a part and a text behind it, into the part if that is a text.
fn put_behind<'a>(
    alloc: Global,
    children: &mut Items<Node<'a>>,
    last: Node<'a>,
    value: Content<'a>,
    span: Span,
) -> Result<(), AllocError>
    ensures { OnOk result (flat_map events_of children.new
        ≡ with_event (flat_map events_of (children.old ++ last.entry ∷ [])) (Chars value.entry span)) }
{
    match last {
        Node::Text(text) => {
            let both = join(alloc, text, value.bytes(), span)?;
            children.push(Node::Text(both))?;
        }
        Node::Element(element) => {
            children.push(Node::Element(element))?;
            children.push(Node::Text(Text { value, span }))?;
        }
    }
    Ok(())
}

/// Puts a text behind these parts, into the last of them if that is a text.
fn add_text<'a>(
    alloc: Global,
    children: &mut Items<Node<'a>>,
    value: Content<'a>,
    span: Span,
) -> Result<(), AllocError>
    ensures { OnOk result (flat_map events_of children.new ≡ with_event (flat_map events_of children.old) (Chars value.entry span)) }
{
    match children.pop() {
        None => {
            children.push(Node::Text(Text { value, span }))?;
            Ok(())
        }
        Some(last) => put_behind(alloc, children, last, value, span),
    }
}

/// Puts a text into the innermost open element. Where none is open, only a blank one may stand.
fn put_text<'a>(
    alloc: Global,
    mut frames: Vec<Frame<'a>>,
    value: Content<'a>,
    span: Span,
    blank: bool,
) -> Result<Build<'a>, AllocError>
    ensures state { IfOk result (λ build. state_of build
        ≡ went (text_step (open_place frames.entry.items) (frame_names frames.entry.items) blank) (text_step (open_place frames.entry.items) (frame_names frames.entry.items) blank) span.start) }
    ensures events { IfOk result (λ build. Keeps build (with_text (flat_map opened frames.entry.items) (frame_names frames.entry.items) value.entry span)) }
{
    match frames.pop() {
        None => {
            if blank {
                Ok(Build::Open(frames))
            } else {
                Ok(Build::Broken { at: span.start })
            }
        }
        Some(mut frame) => {
            add_text(alloc, &mut frame.children, value, span)?;
            frames.push(frame)?;
            Ok(Build::Open(frames))
        }
    }
}

/// Whether so many elements are open that no more may lie in them.
fn is_full(frames: &[Frame]) -> bool
    ensures { result ≡ not (below_limit (length frames.now)) }
{
    frames.len() >= MAX_ELEMENT_DEPTH
}

/// The names of these elements, the outermost first.
fn names_of<'a>(alloc: Global, frames: &[Frame<'a>]) -> Result<Vec<Name<'a>>, AllocError>
    ensures { IfOk result (λ names. names.items ≡ map (λ (f : Frame). f.name) frames.now) }
{
    let mut names = Vec::new(alloc);
    for frame in frames {
        names.push(Name::spelled(frame.name.bytes()))?;
    }
    Ok(names)
}

/// Opens an element.
fn begin<'a>(
    alloc: Global,
    mut frames: Vec<Frame<'a>>,
    name: Name<'a>,
    attributes: Items<Attribute<'a>>,
    start: u64,
) -> Result<Build<'a>, AllocError>
    ensures state { IfOk result (λ build. state_of build ≡ next (Going (open_place frames.entry.items)) (kind.Start name.entry attributes.entry) start) }
    ensures events { IfOk result (λ build. Keeps build (flat_map opened frames.entry.items ++ Begin name.entry attributes.entry start ∷ [])) }
{
    if is_full(frames.as_slice()) {
        let mut names = names_of(alloc, frames.as_slice())?;
        names.push(name)?;
        return Ok(Build::Deep { names, at: start });
    }
    frames.push(Frame {
        name,
        attributes,
        children: Items::from_vec(Vec::with_capacity(alloc, 1)?),
        start,
    })?;
    Ok(Build::Open(frames))
}

/// Closes the innermost open element.
fn end<'a>(mut frames: Vec<Frame<'a>>, name: &[u8], span: Span) -> Result<Build<'a>, AllocError>
    ensures state { IfOk result (λ build. state_of build
        ≡ went (end_step (frame_names frames.entry.items) name.now) (end_step (frame_names frames.entry.items) name.now) span.start) }
    ensures events { IfOk result (λ build. Keeps build (flat_map opened frames.entry.items ++ End name.now span.end ∷ [])) }
{
    let Some(frame) = frames.pop() else {
        return Ok(Build::Broken { at: span.start });
    };
    if frame.name.bytes() != name {
        return Ok(Build::Broken { at: span.start });
    }
    let element = Element {
        name: frame.name,
        attributes: frame.attributes,
        children: frame.children,
        span: Span {
            start: frame.start,
            end: span.end,
        },
    };
    put_element(frames, element)
}

/// An element that begins and ends by one tag.
fn empty<'a>(
    alloc: Global,
    frames: Vec<Frame<'a>>,
    name: Name<'a>,
    attributes: Items<Attribute<'a>>,
    span: Span,
) -> Result<Build<'a>, AllocError>
    ensures state { IfOk result (λ build. state_of build ≡ next (Going (open_place frames.entry.items)) (kind.Empty name.entry attributes.entry) span.start) }
    ensures events { IfOk result (λ build. Keeps build
        (flat_map opened frames.entry.items ++ kind_events (kind.Empty name.entry attributes.entry) span)) }
{
    if is_full(frames.as_slice()) {
        let names = names_of(alloc, frames.as_slice())?;
        return Ok(Build::Deep {
            names,
            at: span.start,
        });
    }
    let element = Element {
        name,
        attributes,
        children: Items::new(alloc),
        span,
    };
    put_element(frames, element)
}

/// Behind the root only blank text, comments and instructions may follow.
fn take_behind<'a>(root: Element<'a>, token: Token<'a>) -> Build<'a>
    ensures state { state_of result ≡ next (state_of (built.Closed root.entry)) token.entry.kind token.entry.span.start }
    ensures events { Keeps result (events_of_element root.entry) }
{
    let Token { kind, span } = token;
    match kind {
        Kind::Text(value) => {
            if is_blank(value.bytes()) {
                Build::Closed(root)
            } else {
                Build::Broken { at: span.start }
            }
        }
        Kind::Comment => Build::Closed(root),
        Kind::Instruction => Build::Closed(root),
        _ => Build::Broken { at: span.start },
    }
}

fn take_open<'a>(
    alloc: Global,
    frames: Vec<Frame<'a>>,
    token: Token<'a>,
) -> Result<Build<'a>, AllocError>
    ensures state { IfOk result (λ build. state_of build ≡ next (Going (open_place frames.entry.items)) token.entry.kind token.entry.span.start) }
    ensures events { IfOk result (λ build. Keeps build
        (with_token (flat_map opened frames.entry.items) (frame_names frames.entry.items) token.entry.kind token.entry.span)) }
{
    let Token { kind, span } = token;
    match kind {
        Kind::Start(name, attributes) => begin(alloc, frames, name, attributes, span.start),
        Kind::Empty(name, attributes) => empty(alloc, frames, name, attributes, span),
        Kind::End(name) => end(frames, name.bytes(), span),
        Kind::Text(value) => {
            let blank = is_blank(value.bytes());
            put_text(alloc, frames, value, span, blank)
        }
        Kind::Reference(value) => put_text(alloc, frames, value, span, false),
        Kind::Cdata(value) => put_text(alloc, frames, value, span, false),
        Kind::Comment => Ok(Build::Open(frames)),
        Kind::Instruction => Ok(Build::Open(frames)),
    }
}

/// An end tag where the names alone are kept.
fn end_deep<'a>(mut names: Vec<Name<'a>>, name: &[u8], at: u64, start: u64) -> Build<'a>
    ensures { state_of result ≡ held (end_step (reverse names.entry.items) name.now) at start }
{
    let Some(own) = names.pop() else {
        return Build::Broken { at: start };
    };
    if own.bytes() == name {
        Build::Deep { names, at }
    } else {
        Build::Broken { at: start }
    }
}

/// Once it is too deep, only the nesting is looked at.
fn take_deep<'a>(
    mut names: Vec<Name<'a>>,
    at: u64,
    token: Token<'a>,
) -> Result<Build<'a>, AllocError>
    ensures { IfOk result (λ build. state_of build ≡ next (Deep (settled (reverse names.entry.items)) at) token.entry.kind token.entry.span.start) }
{
    let Token { kind, span } = token;
    let outside = names.is_empty();
    match kind {
        Kind::Start(name, _attributes) => {
            if outside {
                return Ok(Build::Broken { at: span.start });
            }
            names.push(name)?;
            Ok(Build::Deep { names, at })
        }
        Kind::End(name) => Ok(end_deep(names, name.bytes(), at, span.start)),
        Kind::Text(value) => {
            if outside && !is_blank(value.bytes()) {
                return Ok(Build::Broken { at: span.start });
            }
            Ok(Build::Deep { names, at })
        }
        Kind::Comment => Ok(Build::Deep { names, at }),
        Kind::Instruction => Ok(Build::Deep { names, at }),
        Kind::Empty(_name, _attributes) => {
            if outside {
                return Ok(Build::Broken { at: span.start });
            }
            Ok(Build::Deep { names, at })
        }
        Kind::Reference(_value) | Kind::Cdata(_value) => {
            if outside {
                return Ok(Build::Broken { at: span.start });
            }
            Ok(Build::Deep { names, at })
        }
    }
}

/// Takes one more token in.
pub fn take_token<'a>(
    alloc: Global,
    build: Build<'a>,
    token: Token<'a>,
) -> Result<Build<'a>, AllocError>
    ensures state { IfOk result (λ new. state_of new ≡ next (state_of build.entry) token.entry.kind token.entry.span.start) }
    ensures events { IfOk result (λ new. Keeps new (with_token (built_events build.entry) (names_of (state_of build.entry)) token.entry.kind token.entry.span)) }
{
    match build {
        Build::Open(frames) => take_open(alloc, frames, token),
        Build::Closed(root) => Ok(take_behind(root, token)),
        Build::Deep { names, at } => take_deep(names, at, token),
        Build::Broken { at } => Ok(Build::Broken { at }),
    }
}

/// The root, if it is closed, in a file of that length.
pub fn finish<'a>(build: Build<'a>, last: u64) -> Result<Element<'a>, XmlError>
    ensures { MatchResult result (λ root. build.entry ≡ built.Closed root) (Ends (state_of build.entry) last) }
{
    match build {
        Build::Closed(root) => Ok(root),
        Build::Open(_) => Err(XmlError::Nesting { at: last }),
        Build::Deep { names, at } => {
            if names.is_empty() {
                Err(XmlError::TooDeep { at })
            } else {
                Err(XmlError::Nesting { at: last })
            }
        }
        Build::Broken { at } => Err(XmlError::Nesting { at }),
    }
}

//! The token at the front of bytes, with the memory that it takes.
ghost use Rattle.std.specs.Prelude.{◌≡◌, [], IfOk};
ghost use Rattle.std.specs.Option.{option_map};
ghost use Rattle.plcx_xml.specs.Reads.{span_between, attribute_at, attributes_at, end_token, text_token, tag_token, reference_token, comment_token, instruction_token, cdata_token, other_token, token_at};

use crate::content::Content;
use crate::lexing::{begin_of, behind_space, close_of, enclosed_of, end_of, parts_of, text_of};
use crate::name::Name;
use crate::reference::reference_of;
use crate::token::{Kind, Token};
use crate::tree::Attribute;
use crate::value::value_of;
use plcx_types::Span;
use sqlite_items::Items;
use std::alloc::{AllocError, Global};

fn span_between(last: u64, own: &[u8], rest: &[u8]) -> Span
    ensures { result ≡ span_between last own.now rest.now }
{
    Span {
        start: last.saturating_sub(own.len() as u64),
        end: last.saturating_sub(rest.len() as u64),
    }
}

fn attribute_of(
    alloc: Global,
    last: u64,
    bytes: &[u8],
) -> Result<Option<(Attribute<'_>, &[u8])>, AllocError>
    ensures { IfOk result (λ found. option_map (λ p. (p.0, p.1.now)) found ≡ attribute_at last bytes.now) }
{
    match parts_of(bytes) {
        None => Ok(None),
        Some(parts) => {
            let Some(value) = value_of(alloc, parts.written)? else {
                return Ok(None);
            };
            let attribute = Attribute {
                name: Name::spelled(parts.name),
                value,
                span: span_between(last, parts.own, parts.rest),
            };
            Ok(Some((attribute, parts.rest)))
        }
    }
}

/// A list with room for the attributes of most tags, if there is any.
fn room<'a>(alloc: Global, bytes: &'a [u8]) -> Result<Vec<Attribute<'a>>, AllocError>
    ensures { IfOk result (λ list. list.items ≡ []) }
{
    if bytes.is_empty() || bytes[0] == b'>' || bytes[0] == b'/' {
        return Ok(Vec::new(alloc));
    }
    Vec::with_capacity(alloc, 2)
}

fn attributes_of(
    alloc: Global,
    last: u64,
    bytes: &[u8],
) -> Result<(Items<Attribute<'_>>, &[u8]), AllocError>
    ensures { IfOk result (λ found. (found.0, found.1.now) ≡ attributes_at last bytes.now) }
{
    let mut found = room(alloc, bytes)?;
    let mut rest = bytes;
    for turn in 0..bytes.len() {
        match attribute_of(alloc, last, rest)? {
            None => return Ok((Items::from_vec(found), rest)),
            Some((attribute, after)) => {
                found.push(attribute)?;
                rest = after;
            }
        }
    }
    Ok((Items::from_vec(found), rest))
}

fn end_token_of(last: u64, bytes: &[u8]) -> Option<(Token<'_>, &[u8])>
    ensures { option_map (λ p. (p.0, p.1.now)) result ≡ end_token last bytes.now }
{
    let (name, rest) = end_of(bytes)?;
    let token = Token {
        kind: Kind::End(Name::spelled(name)),
        span: span_between(last, bytes, rest),
    };
    Some((token, rest))
}

fn text_token_of(last: u64, bytes: &[u8]) -> Option<(Token<'_>, &[u8])>
    ensures { option_map (λ p. (p.0, p.1.now)) result ≡ text_token last bytes.now }
{
    let (value, rest) = text_of(bytes)?;
    let token = Token {
        kind: Kind::Text(Content::spelled(value)),
        span: span_between(last, bytes, rest),
    };
    Some((token, rest))
}

fn tag_token_of(
    alloc: Global,
    last: u64,
    bytes: &[u8],
) -> Result<Option<(Token<'_>, &[u8])>, AllocError>
    ensures { IfOk result (λ found. option_map (λ p. (p.0, p.1.now)) found ≡ tag_token last bytes.now) }
{
    let Some((name, after)) = begin_of(bytes) else {
        return Ok(None);
    };
    let (attributes, after) = attributes_of(alloc, last, after)?;
    let Some((is_empty, rest)) = close_of(behind_space(after)) else {
        return Ok(None);
    };
    let name = Name::spelled(name);
    let span = span_between(last, bytes, rest);
    let kind = if is_empty {
        Kind::Empty(name, attributes)
    } else {
        Kind::Start(name, attributes)
    };
    Ok(Some((Token { kind, span }, rest)))
}

fn reference_token_of(
    alloc: Global,
    last: u64,
    bytes: &[u8],
) -> Result<Option<(Token<'_>, &[u8])>, AllocError>
    ensures { IfOk result (λ found. option_map (λ p. (p.0, p.1.now)) found ≡ reference_token last bytes.now) }
{
    match reference_of(bytes) {
        None => Ok(None),
        Some((character, rest)) => {
            let mut buffer = [0; 4];
            let value = character.encode_utf8(&mut buffer).as_bytes();
            let token = Token {
                kind: Kind::Reference(Content::made(Vec::from_slice(alloc, value)?)),
                span: span_between(last, bytes, rest),
            };
            Ok(Some((token, rest)))
        }
    }
}

fn comment_token_of(last: u64, bytes: &[u8]) -> Option<(Token<'_>, &[u8])>
    ensures { option_map (λ p. (p.0, p.1.now)) result ≡ comment_token last bytes.now }
{
    let (_, rest) = enclosed_of(b"<!--", b"-->", bytes)?;
    let token = Token {
        kind: Kind::Comment,
        span: span_between(last, bytes, rest),
    };
    Some((token, rest))
}

fn instruction_token_of(last: u64, bytes: &[u8]) -> Option<(Token<'_>, &[u8])>
    ensures { option_map (λ p. (p.0, p.1.now)) result ≡ instruction_token last bytes.now }
{
    let (_, rest) = enclosed_of(b"<?", b"?>", bytes)?;
    let token = Token {
        kind: Kind::Instruction,
        span: span_between(last, bytes, rest),
    };
    Some((token, rest))
}

fn cdata_token_of(last: u64, bytes: &[u8]) -> Option<(Token<'_>, &[u8])>
    ensures { option_map (λ p. (p.0, p.1.now)) result ≡ cdata_token last bytes.now }
{
    let (value, rest) = enclosed_of(b"<![CDATA[", b"]]>", bytes)?;
    let token = Token {
        kind: Kind::Cdata(Content::spelled(value)),
        span: span_between(last, bytes, rest),
    };
    Some((token, rest))
}

fn other_token_of(
    alloc: Global,
    last: u64,
    bytes: &[u8],
) -> Result<Option<(Token<'_>, &[u8])>, AllocError>
    ensures { IfOk result (λ found. option_map (λ p. (p.0, p.1.now)) found ≡ other_token last bytes.now) }
{
    if let Some(found) = reference_token_of(alloc, last, bytes)? {
        return Ok(Some(found));
    }
    if let Some(found) = comment_token_of(last, bytes) {
        return Ok(Some(found));
    }
    if let Some(found) = instruction_token_of(last, bytes) {
        return Ok(Some(found));
    }
    Ok(cdata_token_of(last, bytes))
}

/// The token that the bytes of a file of that length begin with, and what follows it.
pub fn token_of(
    alloc: Global,
    last: u64,
    bytes: &[u8],
) -> Result<Option<(Token<'_>, &[u8])>, AllocError>
    ensures { IfOk result (λ found. option_map (λ p. (p.0, p.1.now)) found ≡ token_at last bytes.now) }
{
    if let Some(found) = end_token_of(last, bytes) {
        return Ok(Some(found));
    }
    if let Some(found) = tag_token_of(alloc, last, bytes)? {
        return Ok(Some(found));
    }
    if let Some(found) = text_token_of(last, bytes) {
        return Ok(Some(found));
    }
    other_token_of(alloc, last, bytes)
}

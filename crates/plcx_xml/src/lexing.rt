//! What stands at the front of bytes, and what follows it. Nothing here takes memory.
ghost use Rattle.std.specs.Prelude.{◌≡◌, ◌≤◌, length};
ghost use Rattle.std.specs.Option.{option_map};
ghost use Rattle.std.specs.List.{prefix_len, list_all};
ghost use Rattle.plcx_xml.specs.Character.{is_space, is_first, is_next, is_text, is_value, is_plain, is_named};
ghost use Rattle.plcx_xml.specs.Reading.{byte_at, behind_space, name_at, text_at, quoted_by, quoted_at, value_at, named_at, parts_at, close_at, begin_at, end_name_at, end_at, behind, enclosed_at};
ghost use Rattle.plcx_xml.specs.Grammar.{begins_with, until};
ghost use Rattle.plcx_xml.specs.RawParts.{parts_of};

fn is_space(byte: u8) -> bool
    ensures { result ≡ is_space byte }
{
    byte == b' ' || byte == b'\t' || byte == b'\r' || byte == b'\n'
}

fn is_first(byte: u8) -> bool
    ensures { result ≡ is_first byte }
{
    byte.is_ascii_alphabetic() || byte == b'_' || byte == b':' || byte >= 128
}

fn is_next(byte: u8) -> bool
    ensures { result ≡ is_next byte }
{
    is_first(byte) || byte.is_ascii_digit() || byte == b'-' || byte == b'.'
}

fn is_text(byte: u8) -> bool
    ensures { result ≡ is_text byte }
{
    byte != b'<' && byte != b'&'
}

fn is_value(quote: u8, byte: u8) -> bool
    ensures { result ≡ is_value quote byte }
{
    byte != b'<' && byte != quote
}

fn is_plain(byte: u8) -> bool
    ensures { result ≡ is_plain byte }
{
    byte != b'&'
}

fn is_named(byte: u8) -> bool
    ensures { result ≡ is_named byte }
{
    byte != b';'
}

fn space_len(bytes: &[u8]) -> usize
    ensures value { result ≡ prefix_len is_space bytes.now }
    ensures within { result ≤ length bytes.now }
{
    bytes.iter().take_while(|byte| is_space(**byte)).count()
}

fn name_len(bytes: &[u8]) -> usize
    ensures value { result ≡ prefix_len is_next bytes.now }
    ensures within { result ≤ length bytes.now }
{
    bytes.iter().take_while(|byte| is_next(**byte)).count()
}

fn text_len(bytes: &[u8]) -> usize
    ensures value { result ≡ prefix_len is_text bytes.now }
    ensures within { result ≤ length bytes.now }
{
    bytes.iter().take_while(|byte| is_text(**byte)).count()
}

fn value_len(quote: u8, bytes: &[u8]) -> usize
    ensures value { result ≡ prefix_len (is_value quote) bytes.now }
    ensures within { result ≤ length bytes.now }
{
    bytes
        .iter()
        .take_while(|byte| is_value(quote, **byte))
        .count()
}

/// How many bytes stand before the next `&`.
pub fn plain_len(bytes: &[u8]) -> usize
    ensures value { result ≡ prefix_len is_plain bytes.now }
    ensures within { result ≤ length bytes.now }
{
    bytes.iter().take_while(|byte| is_plain(**byte)).count()
}

/// How many bytes stand before the next `;`.
pub fn named_len(bytes: &[u8]) -> usize
    ensures value { result ≡ prefix_len is_named bytes.now }
    ensures within { result ≤ length bytes.now }
{
    bytes.iter().take_while(|byte| is_named(**byte)).count()
}

/// What follows this byte, if it stands there.
pub fn byte_of(byte: u8, bytes: &[u8]) -> Option<&[u8]>
    ensures { option_map (λ p. p.now) result ≡ byte_at byte bytes.now }
{
    if !bytes.is_empty() && bytes[0] == byte {
        Some(&bytes[1..])
    } else {
        None
    }
}

/// What follows white space.
pub fn behind_space(bytes: &[u8]) -> &[u8]
    ensures { result.now ≡ behind_space bytes.now }
{
    &bytes[space_len(bytes)..]
}

fn name_of(bytes: &[u8]) -> Option<(&[u8], &[u8])>
    ensures { option_map (λ p. (p.0.now, p.1.now)) result ≡ name_at bytes.now }
{
    if bytes.is_empty() || !is_first(bytes[0]) {
        return None;
    }
    Some(bytes.split_at(name_len(bytes)))
}

/// A text, and what follows it.
pub fn text_of(bytes: &[u8]) -> Option<(&[u8], &[u8])>
    ensures { option_map (λ p. (p.0.now, p.1.now)) result ≡ text_at bytes.now }
{
    if bytes.is_empty() || !is_text(bytes[0]) {
        return None;
    }
    Some(bytes.split_at(text_len(bytes)))
}

#[tactic(auto, unfolding(crate::specs::Reading::quoted_by))]
fn quoted_by(quote: u8, bytes: &[u8]) -> Option<(&[u8], &[u8])>
    ensures { option_map (λ p. (p.0.now, p.1.now)) result ≡ quoted_by quote bytes.now }
{
    let inside = byte_of(quote, bytes)?;
    let (value, after) = inside.split_at(value_len(quote, inside));
    let rest = byte_of(quote, after)?;
    Some((value, rest))
}

fn quoted_of(bytes: &[u8]) -> Option<(&[u8], &[u8])>
    ensures { option_map (λ p. (p.0.now, p.1.now)) result ≡ quoted_at bytes.now }
{
    if !bytes.is_empty() && bytes[0] == b'"' {
        quoted_by(b'"', bytes)
    } else {
        quoted_by(b'\'', bytes)
    }
}

#[tactic(auto, unfolding(crate::specs::Reading::value_at))]
fn value_of(bytes: &[u8]) -> Option<(&[u8], &[u8])>
    ensures { option_map (λ p. (p.0.now, p.1.now)) result ≡ value_at bytes.now }
{
    let right = byte_of(b'=', behind_space(bytes))?;
    quoted_of(behind_space(right))
}

/// An attribute's parts as they stand, the bytes from its name on, and those behind it.
#[derive(Clone, Copy)]
pub struct RawAttribute<'a> {
    pub name: &'a [u8],
    pub written: &'a [u8],
    pub own: &'a [u8],
    pub rest: &'a [u8],
}

#[tactic(auto, unfolding(crate::specs::Reading::named_at))]
fn named_of(own: &[u8]) -> Option<RawAttribute<'_>>
    ensures { option_map parts_of result ≡ named_at own.now }
{
    let (name, after) = name_of(own)?;
    let (written, rest) = value_of(after)?;
    Some(RawAttribute {
        name,
        written,
        own,
        rest,
    })
}

/// An attribute with the white space before it.
pub fn parts_of(bytes: &[u8]) -> Option<RawAttribute<'_>>
    ensures { option_map parts_of result ≡ parts_at bytes.now }
{
    if bytes.is_empty() || !is_space(bytes[0]) {
        return None;
    }
    named_of(behind_space(bytes))
}

/// How a tag is closed: whether it is empty, and what follows it.
pub fn close_of(bytes: &[u8]) -> Option<(bool, &[u8])>
    ensures { option_map (λ p. (p.0, p.1.now)) result ≡ close_at bytes.now }
{
    if !bytes.is_empty() && bytes[0] == b'>' {
        Some((false, &bytes[1..]))
    } else if bytes.len() > 1 && bytes[0] == b'/' && bytes[1] == b'>' {
        Some((true, &bytes[2..]))
    } else {
        None
    }
}

/// The name of a start tag, and what follows the name.
#[tactic(auto, unfolding(crate::specs::Reading::begin_at))]
pub fn begin_of(bytes: &[u8]) -> Option<(&[u8], &[u8])>
    ensures { option_map (λ p. (p.0.now, p.1.now)) result ≡ begin_at bytes.now }
{
    name_of(byte_of(b'<', bytes)?)
}

#[tactic(auto, unfolding(crate::specs::Reading::end_name_at))]
fn end_name_of(bytes: &[u8]) -> Option<(&[u8], &[u8])>
    ensures { option_map (λ p. (p.0.now, p.1.now)) result ≡ end_name_at bytes.now }
{
    let (name, after) = name_of(bytes)?;
    let rest = byte_of(b'>', behind_space(after))?;
    Some((name, rest))
}

/// The name of an end tag, and what follows the tag.
#[tactic(auto, unfolding(crate::specs::Reading::end_at))]
pub fn end_of(bytes: &[u8]) -> Option<(&[u8], &[u8])>
    ensures { option_map (λ p. (p.0.now, p.1.now)) result ≡ end_at bytes.now }
{
    end_name_of(byte_of(b'/', byte_of(b'<', bytes)?)?)
}

/// Whether a text is white space alone.
pub fn is_blank(bytes: &[u8]) -> bool
    ensures { result ≡ list_all is_space bytes.now }
{
    bytes.iter().all(|byte| is_space(*byte))
}

/// Whether bytes begin with those.
fn begins_with(front: &[u8], bytes: &[u8]) -> bool
    ensures { result ≡ begins_with front.now bytes.now }
{
    bytes.len() >= front.len() && &bytes[..front.len()] == front
}

fn behind<'a>(front: &[u8], bytes: &'a [u8]) -> Option<&'a [u8]>
    ensures { option_map (λ p. p.now) result ≡ behind front.now bytes.now }
{
    if begins_with(front, bytes) {
        Some(&bytes[front.len()..])
    } else {
        None
    }
}

/// What stands before the first `close`, and what follows it.
fn until<'a>(close: &[u8], bytes: &'a [u8]) -> Option<(&'a [u8], &'a [u8])>
    ensures { option_map (λ p. (p.0.now, p.1.now)) result ≡ until close.now bytes.now }
{
    for at in 0..bytes.len() {
        let (body, after) = bytes.split_at(at);
        if begins_with(close, after) {
            let (_, rest) = after.split_at(close.len());
            return Some((body, rest));
        }
    }
    None
}

/// What stands between these two, and what follows.
pub fn enclosed_of<'a>(
    opening: &[u8],
    close: &[u8],
    bytes: &'a [u8],
) -> Option<(&'a [u8], &'a [u8])>
    ensures { option_map (λ p. (p.0.now, p.1.now)) result ≡ enclosed_at opening.now close.now bytes.now }
{
    until(close, behind(opening, bytes)?)
}

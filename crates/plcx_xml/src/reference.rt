//! References: the character that stands between `&` and `;`.
ghost use Rattle.std.specs.Prelude.{◌≡◌, ◌≤◌, length};
ghost use Rattle.std.specs.Option.{option_map};
ghost use Rattle.plcx_xml.specs.Character.{is_character};
ghost use Rattle.plcx_xml.specs.Reference.{are_digits, number, numbered, entity, character_named};
ghost use Rattle.plcx_xml.specs.Reading.{reference_at};

use crate::lexing::{byte_of, named_len};

/// The greatest number of a character.
const LAST: u32 = 0x10_FFFF;

/// Whether a file may hold the character of that number.
pub fn is_character(code: u32) -> bool
    ensures { result ≡ is_character code }
{
    code == 9
        || code == 10
        || code == 13
        || (code >= 0x20 && code <= 0xD7FF)
        || (code >= 0xE000 && code <= 0xFFFD)
        || (code >= 0x1_0000 && code <= 0x10_FFFF)
}

/// The value of a digit or a letter, and 36 of any other byte.
fn digit_value(byte: u8) -> u32
    ensures value { result ≡ digit_value byte }
    ensures small { result ≤ 36 }
{
    match byte {
        b'0'..=b'9' => (byte - b'0') as u32,
        b'A'..=b'Z' => (byte - b'A') as u32 + 10,
        b'a'..=b'z' => (byte - b'a') as u32 + 10,
        _ => 36,
    }
}

/// The number of these digits, if it is that of a character; none of a greater number is.
fn number_of(base: u32, digits: &[u8]) -> Option<char>
    requires small { base ≤ 16 }
    requires some { 1 ≤ base }
    ensures { result ≡ numbered base digits.now }
{
    if digits.is_empty() {
        return None;
    }
    let mut number = 0;
    for byte in digits {
        let digit = digit_value(*byte);
        if digit >= base {
            return None;
        }
        if number > LAST {
            return None;
        }
        number = number * base + digit;
    }
    if is_character(number) {
        char::from_u32(number)
    } else {
        None
    }
}

fn entity(name: &[u8]) -> Option<char>
    ensures { result ≡ entity name.now }
{
    if name == b"lt".as_slice() {
        Some('<')
    } else if name == b"gt".as_slice() {
        Some('>')
    } else if name == b"amp".as_slice() {
        Some('&')
    } else if name == b"quot".as_slice() {
        Some('"')
    } else if name == b"apos".as_slice() {
        Some('\'')
    } else {
        None
    }
}

fn character_named(name: &[u8]) -> Option<char>
    ensures { result ≡ character_named name.now }
{
    if name.len() > 1 && name[0] == b'#' && name[1] == b'x' {
        number_of(16, &name[2..])
    } else if !name.is_empty() && name[0] == b'#' {
        number_of(10, &name[1..])
    } else {
        entity(name)
    }
}

/// The character of a reference, and what follows it.
#[tactic(auto, unfolding(crate::specs::Reading::reference_at))]
pub fn reference_of(bytes: &[u8]) -> Option<(char, &[u8])>
    ensures { option_map (λ p. (p.0, p.1.now)) result ≡ reference_at bytes.now }
{
    let inside = byte_of(b'&', bytes)?;
    let (name, after) = inside.split_at(named_len(inside));
    let rest = byte_of(b';', after)?;
    let character = character_named(name)?;
    Some((character, rest))
}

ghost use Rattle.std.specs.Char.{digit_value};

//! How far a file holds characters that it may hold.
ghost use Rattle.std.specs.Prelude.{◌≡◌};
ghost use Rattle.std.specs.List.{list_all};
ghost use Rattle.plcx_xml.specs.Character.{front_of, is_character};
ghost use Rattle.plcx_xml.specs.Single.{is_single};

use crate::reference::is_character;

fn is_unknown(character: char) -> bool
    ensures { result ≡ not (is_character character) }
{
    !is_character(character as u32)
}

fn is_single(byte: u8) -> bool
    ensures { result ≡ is_single byte }
{
    byte < 128 && is_character(byte as u32)
}

fn are_single(bytes: &[u8]) -> bool
    ensures { result ≡ list_all is_single bytes.now }
{
    bytes.iter().all(|byte| is_single(*byte))
}

/// The bytes of a text up to its first character that a file may not hold.
pub fn front_of(text: &str) -> &[u8]
    ensures { result.now ≡ front_of text.now }
{
    let bytes = text.as_bytes();
    if are_single(bytes) {
        return bytes;
    }
    match text.find(|character: char| is_unknown(character)) {
        None => bytes,
        Some(at) => &bytes[..at],
    }
}

ghost use Rattle.std.specs.Prelude.{not};

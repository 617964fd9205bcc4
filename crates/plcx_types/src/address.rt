//! The form of an address.
ghost use Rattle.std.specs.Prelude.{◌≡◌, ◌↔◌, IsTrue, codes};
ghost use Rattle.std.specs.Char.{to_ascii_lowercase};
ghost use Rattle.plcx_types.specs.Name.{in_lower_case};
ghost use Rattle.plcx_types.specs.Address.{is_one_of, ArePlaces, IsAddress};
ghost use Rattle.plcx_types.specs.ReadAddress.{is_address};

use crate::reading::{behind, split_digits};

/// Whether a byte is one of I, Q and M, in any case.
pub fn is_area(byte: u8) -> bool
    ensures { result ≡ is_one_of (codes "iqm") (to_ascii_lowercase byte) }
{
    let letter = byte.to_ascii_lowercase();
    letter == b'i' || letter == b'q' || letter == b'm'
}

/// Whether a byte is one of X, B, W, D and L, in any case.
pub fn is_size(byte: u8) -> bool
    ensures { result ≡ is_one_of (codes "xbwdl") (to_ascii_lowercase byte) }
{
    let letter = byte.to_ascii_lowercase();
    letter == b'x' || letter == b'b' || letter == b'w' || letter == b'd' || letter == b'l'
}

fn are_places(most: usize, text: &[u8]) -> bool
    ensures { IsTrue result ↔ ArePlaces most (in_lower_case text.now) }
{
    let (digits, rest) = split_digits(text);
    if most == 0 || digits.is_empty() || 9 < digits.len() {
        return false;
    }
    if rest.is_empty() {
        return true;
    }
    match behind(b".", rest) {
        Some(rest) => are_places(most - 1, rest),
        None => false,
    }
}

fn has_form(text: &[u8]) -> bool
    ensures { IsTrue result ↔ IsAddress text.now }
{
    if text.len() < 3 || text[0] != b'%' || !is_area(text[1]) {
        return false;
    }
    if is_size(text[2]) {
        are_places(8, &text[3..])
    } else {
        are_places(8, &text[2..])
    }
}

/// Whether a text is an address, whatever the case of its letters.
pub fn is_address(text: &[u8]) -> bool
    ensures form { IsTrue result ↔ IsAddress text.now }
    ensures value { result ≡ is_address text.now }
{
    has_form(text)
}

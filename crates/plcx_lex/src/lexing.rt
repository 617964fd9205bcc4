//! The longest token at the front of a text.
ghost use Rattle.std.specs.Prelude.{◌≡◌, ◌<◌, length, true, false, slice_index, MatchOption};
ghost use Rattle.plcx_types.specs.Name.{is_first_byte, is_identifier};
ghost use Rattle.plcx_lex.specs.Lexis.{is_decimal};
ghost use Rattle.plcx_lex.specs.Scan.{NoneOf, AnyToken, LongestTold};

use crate::address::address_len;
use crate::runs::{Class, prefix, run_len};
use crate::sign::sign;
use crate::terminal::{Terminal, word_terminal};
use crate::whole::typed_len;
use plcx_types::limits::MAX_NAME_BYTES;

fn is_first(byte: u8) -> bool
    ensures { result ≡ is_first_byte byte }
{
    byte.is_ascii_alphabetic() || byte == b'_'
}

fn word_token(text: &[u8]) -> (Terminal, usize)
    requires some { 0 < length text.now }
    requires first { is_first_byte (slice_index text.now 0) ≡ true }
    ensures { LongestTold text.now result.0 result.1 }
{
    let n = run_len(Class::Part, prefix(MAX_NAME_BYTES, text));
    match typed_len(n, text) {
        Some(long) => (Terminal::Number, long),
        None => (word_terminal(&text[..n]), n),
    }
}

fn digits_token(text: &[u8]) -> (Terminal, usize)
    requires some { 0 < length text.now }
    requires first { is_decimal (slice_index text.now 0) ≡ true }
    ensures { LongestTold text.now result.0 result.1 }
{
    (Terminal::Digits, run_len(Class::Decimal, text))
}

fn address_token(text: &[u8]) -> Option<(Terminal, usize)>
    requires some { 0 < length text.now }
    requires first { slice_index text.now 0 ≡ 37 }
    ensures { MatchOption result (NoneOf AnyToken text.now) (λ t. LongestTold text.now t.0 t.1) }
{
    match address_len(text) {
        None => None,
        Some(n) => Some((Terminal::Address, n)),
    }
}

fn sign_token(text: &[u8]) -> Option<(Terminal, usize)>
    requires some { 0 < length text.now }
    requires letter { is_first_byte (slice_index text.now 0) ≡ false }
    requires digit { is_decimal (slice_index text.now 0) ≡ false }
    requires percent { slice_index text.now 0 ≡ 37 → ⊥ }
    ensures { MatchOption result (NoneOf AnyToken text.now) (λ t. LongestTold text.now t.0 t.1) }
{
    sign(text)
}

/// The longest token at the front, and its length.
pub(crate) fn token(text: &[u8]) -> Option<(Terminal, usize)>
    requires { 0 < length text.now }
    ensures { MatchOption result (NoneOf AnyToken text.now) (λ t. LongestTold text.now t.0 t.1) }
{
    let first = text[0];
    if is_first(first) {
        Some(word_token(text))
    } else if first.is_ascii_digit() {
        Some(digits_token(text))
    } else if first == b'%' {
        address_token(text)
    } else {
        sign_token(text)
    }
}

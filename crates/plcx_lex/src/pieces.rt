//! What stands at the front of a text: a token, or what parts tokens.
ghost use Rattle.std.specs.Prelude.{◌≡◌, ◌≤◌, ◌<◌, ℕ, length, slice_index, MatchOption};
ghost use Rattle.plcx_lex.specs.Lexis.{is_blank, ClosesAt, IsBracketed, IsLine};
ghost use Rattle.plcx_lex.specs.Scan.{NoPiece, PieceTold};

use crate::lexing::token;
use crate::terminal::Terminal;

fn is_blank(byte: u8) -> bool
    ensures { result ≡ is_blank byte }
{
    byte == b' ' || byte == b'\t' || byte == b'\r' || byte == b'\n'
}

/// A place from which on no `*)` stands: 0, or behind the last one.
pub(crate) fn closes_before(bytes: &[u8]) -> usize
    ensures { (m : ℕ) → result ≤ m → ClosesAt bytes.now m → ⊥ }
{
    let mut end = bytes.len();
    while 1 < end {
        if bytes[end - 2] == b'*' && bytes[end - 1] == b')' {
            return end - 1;
        }
        end -= 1;
    }
    0
}

/// The length of the `(* .. *)` at the front.
fn bracketed_len(bytes: &[u8], limit: usize) -> Option<usize>
    requires { (m : ℕ) → limit ≤ m → ClosesAt bytes.now m → ⊥ }
    ensures { MatchOption result ((n : ℕ) → IsBracketed bytes.now n → ⊥) (λ n. IsBracketed bytes.now n) }
{
    if limit <= 2 || bytes.len() < 4 || bytes[0] != b'(' || bytes[1] != b'*' {
        return None;
    }
    for at in 2..bytes.len() - 1 {
        if bytes[at] == b'*' && bytes[at + 1] == b')' {
            return Some(at + 2);
        }
    }
    None
}

/// The length of the `// ..` at the front.
fn line_len(bytes: &[u8]) -> Option<usize>
    ensures { MatchOption result ((n : ℕ) → IsLine bytes.now n → ⊥) (λ n. IsLine bytes.now n) }
{
    if bytes.len() < 2 || bytes[0] != b'/' || bytes[1] != b'/' {
        return None;
    }
    for n in 2..bytes.len() {
        if bytes[n] == b'\n' {
            return Some(n);
        }
    }
    Some(bytes.len())
}

/// What stands at the front, and its length; no `*)` stands from the limit on.
pub(crate) fn piece(bytes: &[u8], limit: usize) -> Option<(Option<Terminal>, usize)>
    requires some { 0 < length bytes.now }
    requires limit { (m : ℕ) → limit ≤ m → ClosesAt bytes.now m → ⊥ }
    ensures { MatchOption result (NoPiece bytes.now) (λ p. PieceTold bytes.now p.0 p.1) }
{
    if is_blank(bytes[0]) {
        return Some((None, 1));
    }
    if let Some(n) = bracketed_len(bytes, limit) {
        return Some((None, n));
    }
    if let Some(n) = line_len(bytes) {
        return Some((None, n));
    }
    match token(bytes) {
        None => None,
        Some((terminal, n)) => Some((Some(terminal), n)),
    }
}

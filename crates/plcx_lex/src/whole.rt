//! How long the numbers at the front of a text are.
ghost use Rattle.std.specs.Prelude.{◌≡◌, ◌<◌, ◌&&◌, ℤ, true, false, nat_eq, take, codes, IfSome, IfNone, MatchOption};
ghost use Rattle.plcx_types.specs.Literal.{IsNumber};
ghost use Rattle.plcx_types.specs.Address.{is_one_of};
ghost use Rattle.plcx_lex.specs.Lexis.{is_decimal};
ghost use Rattle.std.specs.Char.{to_ascii_lowercase};
ghost use Rattle.plcx_types.specs.declared.ty.Ty.TheVariants as ty;
ghost use Rattle.plcx_types.specs.Limits.{max_name_bytes};
ghost use Rattle.plcx_types.specs.Name.{in_lower_case, is_next_byte};
ghost use Rattle.plcx_lex.specs.Scan.{longer, is_end, IsRun, Finds, After, Numeral, Whole, Truth, Number, Typed};

use crate::number::named;
use crate::runs::{Class, prefix, run_len};
use plcx_types::{Ty, behind, digit, read_number, with_digit};

/// How long the longest numeral of the base is.
fn numeral_len(base: u128, text: &[u8]) -> Option<usize>
    requires { 0 < base }
    ensures { Finds (Numeral base) (in_lower_case text.now) result }
{
    let mut n = 0;
    let mut seen = false;
    let mut best = None;
    for i in 0..text.len() {
        if let Some(digit) = digit(base, text[i]) {
            let Some(more) = with_digit(base, n, digit) else {
                return best;
            };
            n = more;
            seen = true;
            best = Some(i + 1);
        } else if seen && text[i] == b'_' {
            seen = false;
        } else {
            return best;
        }
    }
    best
}

fn longer(one: Option<usize>, other: Option<usize>) -> Option<usize>
    ensures { result ≡ longer one other }
{
    match (one, other) {
        (None, _) => other,
        (Some(_), None) => one,
        (Some(n), Some(m)) => { if n <= m { other } else { one } }
    }
}

/// How long the longest numeral of the base behind the word is, with the word.
fn based_len(word: &[u8], base: u128, text: &[u8]) -> Option<usize>
    requires { 0 < base }
    ensures { Finds (After (in_lower_case word.now) (Numeral base)) (in_lower_case text.now) result }
{
    match behind(word, text) {
        None => None,
        Some(rest) => match numeral_len(base, rest) {
            None => None,
            Some(n) => Some(word.len() + n),
        },
    }
}

/// How long the longest whole number is.
fn whole_len(text: &[u8]) -> Option<usize>
    ensures { Finds Whole (in_lower_case text.now) result }
{
    let signed = longer(based_len(b"+", 10, text), based_len(b"-", 10, text));
    let small = longer(based_len(b"2#", 2, text), based_len(b"8#", 8, text));
    let plain = longer(based_len(b"16#", 16, text), numeral_len(10, text));
    longer(signed, longer(small, plain))
}

/// The length of the word, where it stands at the front.
fn word_len(word: &[u8], text: &[u8]) -> Option<usize>
    ensures { Finds (λ front. front ≡ in_lower_case word.now) (in_lower_case text.now) result }
{
    match behind(word, text) {
        None => None,
        Some(_) => Some(word.len()),
    }
}

fn truth_len(text: &[u8]) -> Option<usize>
    ensures { Finds Truth (in_lower_case text.now) result }
{
    longer(word_len(b"true", text), word_len(b"false", text))
}

fn is_unit(byte: u8) -> bool
    ensures { result ≡ is_one_of (codes "dhms") (to_ascii_lowercase byte) }
{
    let letter = byte.to_ascii_lowercase();
    letter == b'd' || letter == b'h' || letter == b'm' || letter == b's'
}

fn is_decimal(byte: u8) -> bool
    ensures { result ≡ is_decimal (to_ascii_lowercase byte) }
{
    byte.is_ascii_digit()
}

fn ends_milliseconds(byte: u8, next: u8) -> bool
    ensures { result ≡ (nat_eq (to_ascii_lowercase byte) 109 && nat_eq (to_ascii_lowercase next) 115) }
{
    byte.to_ascii_lowercase() == b'm' && next.to_ascii_lowercase() == b's'
}

/// Whether a length of time can end with the two bytes.
fn is_end(byte: u8, next: u8) -> bool
    ensures { result ≡ is_end (to_ascii_lowercase byte) (to_ascii_lowercase next) }
{
    is_decimal(byte) && is_unit(next) || ends_milliseconds(byte, next)
}

#[tactic(auto, using(crate::proofs::TimeScan::time_rules))]
/// The milliseconds of a length of time; what does not end as one is not read.
fn time_of(text: &[u8]) -> Option<i128>
    ensures some { IfSome result (λ n. IsNumber ty.Time (in_lower_case text.now) n) }
    ensures none { IfNone result ((n : ℤ) → IsNumber ty.Time (in_lower_case text.now) n → ⊥) }
{
    let size = text.len();
    if size < 2 {
        return None;
    }
    if !is_end(text[size - 2], text[size - 1]) {
        return None;
    }
    read_number(Ty::Time, text)
}

fn time_len(text: &[u8]) -> Option<usize>
    ensures { Finds (Number ty.Time) (in_lower_case text.now) result }
{
    let mut n = run_len(Class::Time, prefix(128, text));
    while 0 < n {
        match time_of(&text[..n]) {
            Some(_) => return Some(n),
            None => n -= 1,
        }
    }
    None
}

/// How long the longest number is that can stand behind the type's name.
fn number_len(ty: Ty, text: &[u8]) -> Option<usize>
    ensures { Finds (Number ty) (in_lower_case text.now) result }
{
    match ty {
        Ty::Time => time_len(text),
        Ty::Bool => longer(truth_len(text), whole_len(text)),
        _ => whole_len(text),
    }
}

/// How long the longest number with its type's name is. The word at the front has n bytes.
pub(crate) fn typed_len(n: usize, text: &[u8]) -> Option<usize>
    requires { IsRun is_next_byte (take max_name_bytes text.now) n }
    ensures { Finds Typed (in_lower_case text.now) result }
{
    if n == text.len() || text[n] != b'#' {
        return None;
    }
    match named(&text[..n]) {
        None => None,
        Some(ty) => match number_len(ty, &text[n + 1..]) {
            None => None,
            Some(long) => Some(n + 1 + long),
        },
    }
}

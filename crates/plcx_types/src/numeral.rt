//! Numerals, and whole numbers with a sign or a base.
ghost use Rattle.std.specs.Prelude.{◌≡◌, ◌≤◌, ◌<◌, ◌^◌, true, false, IfSome, Some, None, pos, neg_ℤ, MatchOption};
ghost use Rattle.std.specs.Option.{option_map};
ghost use Rattle.plcx_types.specs.Name.{in_lower_case};
ghost use Rattle.std.specs.Char.{to_ascii_lowercase};
ghost use Rattle.plcx_types.specs.Numeral.{is_digit, digit_value, greatest};
ghost use Rattle.plcx_types.specs.Reading.{with_digit, numeral, unsigned_whole, whole};

use crate::reading::behind;

/// The greatest number that a numeral stands for.
const GREATEST: u128 = 170_141_183_460_469_231_731_687_303_715_884_105_727;

/// The value of a byte that is a digit of the base, whatever its case.
pub fn digit(base: u128, byte: u8) -> Option<u128>
    ensures { MatchOption result (is_digit base (to_ascii_lowercase byte) ≡ false) (λ digit. (is_digit base (to_ascii_lowercase byte) ≡ true) × (digit ≡ digit_value (to_ascii_lowercase byte))) }
{
    let digit = match byte.to_ascii_lowercase() {
        decimal @ b'0'..=b'9' => u128::from(decimal - b'0'),
        letter @ b'a'..=b'f' => u128::from(letter - b'a') + 10,
        _ => return None,
    };
    if digit < base { Some(digit) } else { None }
}

/// A numeral's number with one more digit; None where it is too great.
#[tactic(auto, unfolding(crate::specs::Reading::with_digit))]
pub fn with_digit(base: u128, n: u128, digit: u128) -> Option<u128>
    ensures value { result ≡ with_digit base n digit }
    ensures bounded { IfSome result (λ n. n ≤ greatest) }
{
    let n = n.checked_mul(base)?.checked_add(digit)?;
    if n <= GREATEST { Some(n) } else { None }
}

/// The number of a numeral in the base.
#[tactic(auto, unfolding(crate::specs::Reading::numeral_from))]
pub(crate) fn numeral(base: u128, text: &[u8]) -> Option<u128>
    ensures value { result ≡ numeral base (in_lower_case text.now) }
    ensures bounded { IfSome result (λ n. n ≤ greatest) }
{
    let mut n = 0;
    let mut seen = false;
    for byte in text {
        if let Some(digit) = digit(base, *byte) {
            n = with_digit(base, n, digit)?;
            seen = true;
        } else if seen && *byte == b'_' {
            seen = false;
        } else {
            return None;
        }
    }
    if seen { Some(n) } else { None }
}

fn positive(base: u128, text: &[u8]) -> Option<i128>
    ensures { result ≡ option_map pos (numeral base (in_lower_case text.now)) }
{
    let n = numeral(base, text)?;
    Some(n as i128)
}

fn negative(text: &[u8]) -> Option<i128>
    ensures { result ≡ option_map (λ n. neg_ℤ (pos n)) (numeral 10 (in_lower_case text.now)) }
{
    let n = numeral(10, text)?;
    Some(-(n as i128))
}

#[tactic(auto, unfolding(crate::specs::Reading::unsigned_whole))]
fn unsigned_whole(text: &[u8]) -> Option<i128>
    ensures { result ≡ unsigned_whole (in_lower_case text.now) }
{
    if let Some(rest) = behind(b"2#", text) {
        return positive(2, rest);
    }
    if let Some(rest) = behind(b"8#", text) {
        return positive(8, rest);
    }
    if let Some(rest) = behind(b"16#", text) {
        return positive(16, rest);
    }
    positive(10, text)
}

/// A whole number: a decimal numeral with or without a sign, or a based one.
#[tactic(auto, unfolding(crate::specs::Reading::whole))]
pub(crate) fn whole(text: &[u8]) -> Option<i128>
    ensures { result ≡ whole (in_lower_case text.now) }
{
    if let Some(rest) = behind(b"+", text) {
        return positive(10, rest);
    }
    if let Some(rest) = behind(b"-", text) {
        return negative(rest);
    }
    unsigned_whole(text)
}

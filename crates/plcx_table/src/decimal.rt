//! Numbers as attributes spell them.
ghost use Rattle.std.specs.Prelude.{◌≡◌, ◌+◌, ◌-◌, ◌*◌, ◌≤◌, ◌<◌, ◌^◌, length, true, Some, None, IfSome, nat_lt, if◌then◌else◌};
ghost use Rattle.std.specs.List.{prefix_len, list_all};
ghost use Rattle.plcx_table.specs.Number.{is_digit, digits_value, number_of, begins_with, is_decimal, millionths_of, whole_of, behind_whole, fraction_of, magnitude_of, coordinate_of};

fn is_digit(byte: u8) -> bool
    ensures { result ≡ is_digit byte }
{
    byte.is_ascii_digit()
}

fn are_digits(text: &[u8]) -> bool
    ensures { result ≡ list_all is_digit text.now }
{
    text.iter().all(|byte| is_digit(*byte))
}

fn with_digit(number: u64, byte: u8) -> Option<u64>
    ensures { let next = number * 10 + (byte - 48) in result ≡ if nat_lt next (2 ^ 64) then Some next else None }
{
    number
        .checked_mul(10)?
        .checked_add(u64::from(byte.saturating_sub(b'0')))
}

/// The number of digits, if it has at most 64 bits.
fn value(digits: &[u8]) -> Option<u64>
    ensures { result ≡ if nat_lt (digits_value digits.now) (2 ^ 64) then Some (digits_value digits.now) else None }
{
    let mut value = 0u64;
    for byte in digits {
        match with_digit(value, *byte) {
            Some(next) => value = next,
            None => return None,
        }
    }
    Some(value)
}

/// One or more digits, with leading zeros or without, of at most 64 bits.
#[tactic(auto, unfolding(crate::specs::Number::number_of))]
pub fn number(text: &[u8]) -> Option<u64>
    ensures { result ≡ number_of text.now }
{
    if text.is_empty() || !are_digits(text) {
        return None;
    }
    value(text)
}

/// The number of a few digits.
fn small(digits: &[u8]) -> u64
    requires few { length digits.now ≤ 12 }
    requires digits { list_all is_digit digits.now ≡ true }
    ensures value { result ≡ digits_value digits.now }
    ensures bound { result < 10 ^ length digits.now }
{
    let mut value = 0u64;
    for byte in digits {
        value = value * 10 + u64::from(*byte - b'0');
    }
    value
}

fn begins_with(byte: u8, text: &[u8]) -> bool
    ensures { result ≡ begins_with byte text.now }
{
    !text.is_empty() && text[0] == byte
}

fn digits_len(text: &[u8]) -> usize
    ensures value { result ≡ prefix_len is_digit text.now }
    ensures within { result ≤ length text.now }
{
    text.iter().take_while(|byte| is_digit(**byte)).count()
}

#[tactic(auto, using(crate::proofs::Digits::all_prefix))]
fn whole(text: &[u8]) -> &[u8]
    ensures value { result.now ≡ whole_of text.now }
    ensures digits { list_all is_digit result.now ≡ true }
{
    &text[..digits_len(text)]
}

fn behind_whole(text: &[u8]) -> &[u8]
    ensures { result.now ≡ behind_whole text.now }
{
    &text[digits_len(text)..]
}

fn fraction(text: &[u8]) -> &[u8]
    ensures { result.now ≡ fraction_of text.now }
{
    let behind = behind_whole(text);
    if behind.is_empty() {
        behind
    } else {
        &behind[1..]
    }
}

#[tactic(auto, unfolding(crate::specs::Number::is_decimal))]
fn is_decimal(text: &[u8]) -> bool
    ensures { result ≡ is_decimal text.now }
{
    let whole = whole(text);
    let behind = behind_whole(text);
    let fraction = fraction(text);
    (behind.is_empty() || begins_with(b'.', behind))
        && are_digits(fraction)
        && whole.len() <= 12
        && fraction.len() <= 40
        && (!whole.is_empty() || !fraction.is_empty())
}

fn millionths(fraction: &[u8]) -> u64
    requires { list_all is_digit fraction.now ≡ true }
    ensures value { result ≡ millionths_of fraction.now }
    ensures bound { result < 1000000 }
{
    let six = &fraction[..fraction.len().min(6)];
    small(six) * 10u64.pow(6 - six.len() as u32)
}

#[tactic(auto, unfolding(crate::specs::Number::magnitude_of))]
fn magnitude(text: &[u8]) -> Option<u64>
    ensures value { result ≡ magnitude_of text.now }
    ensures bound { IfSome result (λ n. n < 10 ^ 18) }
{
    if !is_decimal(text) {
        return None;
    }
    Some(small(whole(text)) * 1_000_000 + millionths(fraction(text)))
}

/// A decimal fraction with a sign or without, in millionths; what is less is cut off.
#[tactic(auto, unfolding(crate::specs::Number::coordinate_of))]
pub fn coordinate(text: &[u8]) -> Option<i64>
    ensures { result ≡ coordinate_of text.now }
{
    if begins_with(b'-', text) {
        return Some(-(magnitude(&text[1..])? as i64));
    }
    if begins_with(b'+', text) {
        return Some(magnitude(&text[1..])? as i64);
    }
    Some(magnitude(text)? as i64)
}

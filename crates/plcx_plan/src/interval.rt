//! Intervals: lengths of time as attributes spell them.
ghost use Rattle.std.specs.Prelude.{◌≡◌, ◌≤◌, ◌<◌, ◌^◌, ℕ, pos, length, drop, option_map, Some, None, IfSome, IfNone};
ghost use Rattle.std.specs.List.{prefix_len};
ghost use Rattle.std.specs.Option.{option_and_then};
ghost use Rattle.plcx_types.specs.declared.ty.Ty.TheVariants as ty;
ghost use Rattle.plcx_types.specs.Literal.{value};
ghost use Rattle.plcx_types.specs.ReadLiteral.{value_of};
ghost use Rattle.plcx_table.specs.Number.{is_digit, begins_with, whole_of, behind_whole};
ghost use Rattle.plcx_plan.specs.Intervals.{IsInterval};
ghost use Rattle.plcx_plan.specs.Reading.{exact, whole_seconds, pointed_seconds, seconds_with, seconds_behind, seconds_of, within_limit};

use plcx_table::{number, same};
use plcx_types::limits::MAX_EVENT_TIME;
use plcx_types::{Ty, read_value};

const MAX_DECIMALS: usize = 9;

fn is_digit(byte: u8) -> bool
    ensures { result ≡ is_digit byte }
{
    byte.is_ascii_digit()
}

fn digits_len(text: &[u8]) -> usize
    ensures value { result ≡ prefix_len is_digit text.now }
    ensures within { result ≤ length text.now }
{
    text.iter().take_while(|byte| is_digit(**byte)).count()
}

/// The digits at the front of a text.
fn digits_of(text: &[u8]) -> &[u8]
    ensures { result.now ≡ whole_of text.now }
{
    &text[..digits_len(text)]
}

/// What stands behind them.
fn behind_digits(text: &[u8]) -> &[u8]
    ensures { result.now ≡ behind_whole text.now }
{
    &text[digits_len(text)..]
}

fn begins_with(byte: u8, text: &[u8]) -> bool
    ensures { result ≡ begins_with byte text.now }
{
    !text.is_empty() && text[0] == byte
}

/// Without the first so many characters.
fn without(count: usize, text: &[u8]) -> &[u8]
    ensures { result.now ≡ drop count text.now }
{
    &text[count.min(text.len())..]
}

#[tactic(auto, unfolding(crate::specs::Reading::exact))]
fn exact(scaled: u128, scale: u128) -> Option<u128>
    requires { 0 < scale }
    ensures { result ≡ exact scaled scale }
{
    if scaled % scale == 0 {
        Some(scaled / scale)
    } else {
        None
    }
}

fn power_of_ten(exponent: usize) -> u128
    requires { exponent ≤ 9 }
    ensures value { result ≡ 10 ^ exponent }
    ensures some { 0 < result }
    ensures bounded { result ≤ 10 ^ 9 }
{
    10_u128.pow(exponent as u32)
}

#[tactic(auto, unfolding(crate::specs::Reading::whole_seconds))]
fn whole_seconds(digits: &[u8]) -> Option<u128>
    ensures { result ≡ whole_seconds digits.now }
{
    Some(u128::from(number(digits)?) * 1000)
}

#[tactic(auto, unfolding(crate::specs::Reading::pointed_seconds))]
fn pointed_seconds(digits: &[u8], decimals: &[u8]) -> Option<u128>
    ensures { result ≡ pointed_seconds digits.now decimals.now }
{
    if decimals.len() > MAX_DECIMALS {
        return None;
    }
    let whole = u128::from(number(digits)?);
    let part = u128::from(number(decimals)?);
    let scale = power_of_ten(decimals.len());
    exact((whole * scale + part) * 1000, scale)
}

#[tactic(auto, unfolding(crate::specs::Reading::seconds_with))]
fn seconds_with(digits: &[u8], rest: &[u8]) -> Option<u128>
    ensures { result ≡ seconds_with digits.now rest.now }
{
    if same(rest, b"S") {
        return whole_seconds(digits);
    }
    let behind = without(1, rest);
    if begins_with(b'.', rest) && same(behind_digits(behind), b"S") {
        return pointed_seconds(digits, digits_of(behind));
    }
    None
}

#[tactic(auto, unfolding(crate::specs::Reading::seconds_behind))]
fn seconds_behind(text: &[u8]) -> Option<u128>
    ensures { result ≡ seconds_behind text.now }
{
    seconds_with(digits_of(text), behind_digits(text))
}

/// The milliseconds of `PT`, a number of seconds and `S`.
#[tactic(auto, unfolding(crate::specs::Reading::seconds_of))]
fn seconds_of(text: &[u8]) -> Option<u128>
    ensures { result ≡ seconds_of text.now }
{
    let front = &text[..text.len().min(2)];
    if same(front, b"PT") {
        seconds_behind(without(2, text))
    } else {
        None
    }
}

/// The milliseconds, where they are above 0 and within the limit of times.
fn within_limit(ms: u128) -> Option<i64>
    ensures { result ≡ option_map (λ n. pos n) (within_limit ms) }
{
    if 0 < ms && ms <= MAX_EVENT_TIME as u128 {
        Some(ms as i64)
    } else {
        None
    }
}

/// The milliseconds of a literal of TIME that isn't below 0.
fn literal_of(text: &[u8]) -> Option<u128>
    ensures some { IfSome result (λ ms. value_of ty.Time text.now ≡ Some (value ty.Time (pos ms))) }
    ensures none { IfNone result ((ms : ℕ) → value_of ty.Time text.now ≡ Some (value ty.Time (pos ms)) → ⊥) }
{
    match read_value(Ty::Time, text) {
        Ok(value) => {
            let n = value.n();
            if n < 0 { None } else { Some(n as u128) }
        }
        Err(_) => None,
    }
}

fn seconds_within(text: &[u8]) -> Option<i64>
    ensures { result ≡ option_map (λ n. pos n) (option_and_then within_limit (seconds_of text.now)) }
{
    within_limit(seconds_of(text)?)
}

fn literal_within(text: &[u8]) -> Option<i64>
    ensures some { IfSome result (λ n. (ms : ℕ) × (value_of ty.Time text.now ≡ Some (value ty.Time (pos ms))) × (Some n ≡ option_map (λ n. pos n) (within_limit ms))) }
    ensures none { IfNone result ((ms : ℕ) → value_of ty.Time text.now ≡ Some (value ty.Time (pos ms)) → within_limit ms ≡ None) }
{
    within_limit(literal_of(text)?)
}

/// The milliseconds of an interval, where a text is one.
pub fn interval_of(text: &[u8]) -> Option<i64>
    ensures some { IfSome result (λ n. (ms : ℕ) × IsInterval text.now ms × (n ≡ pos ms)) }
    ensures none { IfNone result ((ms : ℕ) → IsInterval text.now ms → ⊥) }
{
    let seconds = seconds_within(text);
    if seconds.is_some() {
        return seconds;
    }
    literal_within(text)
}

//! Lengths of time: parts of a number and a unit.
ghost use Rattle.std.specs.Prelude.{◌≡◌, ◌≤◌, ◌<◌, ◌+◌, ◌*◌, ◌^◌, ℕ, Some, None, IfSome, MatchOption, length};
ghost use Rattle.std.specs.Option.{option_map, unwrap_or};
ghost use Rattle.plcx_types.specs.Name.{in_lower_case};
ghost use Rattle.plcx_types.specs.Duration.{letters_of, milliseconds_of, units};
ghost use Rattle.plcx_types.specs.Reading.{part_at, count, exact, last_part, with_others, behind_gap, parts, time};

use crate::numeral::numeral;
use crate::reading::{behind, split_digits, split_letters};

/// A unit of a length of time.
#[derive(Clone, Copy)]
pub enum TimeUnit {
    Day,
    Hour,
    Minute,
    Second,
    Millisecond,
}

const UNITS: [TimeUnit; 5] = [
    TimeUnit::Day,
    TimeUnit::Hour,
    TimeUnit::Minute,
    TimeUnit::Second,
    TimeUnit::Millisecond,
];

impl TimeUnit {
    fn letters(self) -> &'static [u8]
        ensures { result.now ≡ letters_of self }
    {
        match self {
            TimeUnit::Day => b"d",
            TimeUnit::Hour => b"h",
            TimeUnit::Minute => b"m",
            TimeUnit::Second => b"s",
            TimeUnit::Millisecond => b"ms",
        }
    }

    fn milliseconds(self) -> u128
        ensures value { result ≡ milliseconds_of self }
        ensures bounded { result ≤ 86400000 }
    {
        match self {
            TimeUnit::Day => 86_400_000,
            TimeUnit::Hour => 3_600_000,
            TimeUnit::Minute => 60_000,
            TimeUnit::Second => 1000,
            TimeUnit::Millisecond => 1,
        }
    }
}

#[derive(Clone, Copy)]
struct Part<'t> {
    digits: &'t [u8],
    decimals: Option<&'t [u8]>,
    letters: &'t [u8],
    rest: &'t [u8],
}

#[tactic(auto, unfolding(crate::specs::Reading::part_at))]
fn part_at(text: &[u8]) -> Part<'_>
    ensures digits { in_lower_case result.digits.now ≡ (part_at (in_lower_case text.now)).digits }
    ensures decimals { option_map (λ decimals. in_lower_case decimals.now) result.decimals ≡ (part_at (in_lower_case text.now)).decimals }
    ensures letters { in_lower_case result.letters.now ≡ (part_at (in_lower_case text.now)).letters }
    ensures rest { in_lower_case result.rest.now ≡ (part_at (in_lower_case text.now)).rest }
{
    let (digits, tail) = split_digits(text);
    match behind(b".", tail) {
        Some(tail) => {
            let (decimals, tail) = split_digits(tail);
            let (letters, rest) = split_letters(tail);
            Part {
                digits,
                decimals: Some(decimals),
                letters,
                rest,
            }
        }
        None => {
            let (letters, rest) = split_letters(tail);
            Part {
                digits,
                decimals: None,
                letters,
                rest,
            }
        }
    }
}

#[tactic(auto, unfolding(crate::specs::Reading::count))]
fn count(most: usize, digits: &[u8]) -> Option<u128>
    ensures value { result ≡ count most (in_lower_case digits.now) }
    ensures bounded { IfSome result (λ n. n < 10 ^ most) }
    ensures few { IfSome result (λ n. length digits.now ≤ most) }
{
    if digits.is_empty() || most < digits.len() {
        return None;
    }
    numeral(10, digits)
}

#[tactic(auto, unfolding(crate::specs::Reading::exact))]
fn exact(scaled: u128, scale: u128) -> Option<u128>
    requires { 0 < scale }
    ensures value { result ≡ exact scaled scale }
    ensures bounded { IfSome result (λ ms. ms ≤ scaled) }
{
    if scaled % scale == 0 {
        Some(scaled / scale)
    } else {
        None
    }
}

fn power_of_ten(exponent: usize) -> u128
    requires { exponent ≤ 9 }
    ensures value { result ≡ 10 ^ exponent }
    ensures some { 0 < result }
    ensures bounded { result ≤ 10 ^ 9 }
{
    10_u128.pow(exponent as u32)
}

#[tactic(auto, unfolding(crate::specs::Reading::last_part))]
fn last_part(unit: TimeUnit, digits: &[u8], decimals: Option<&[u8]>) -> Option<u128>
    ensures value { result ≡ last_part unit (in_lower_case digits.now) (option_map (λ decimals. in_lower_case decimals.now) decimals.entry) }
    ensures bounded { IfSome result (λ ms. ms ≤ 2 * 10 ^ 29 * 86400000) }
{
    let n = count(20, digits)?;
    match decimals {
        None => Some(n * unit.milliseconds()),
        Some(decimals) => {
            let m = count(9, decimals)?;
            let scale = power_of_ten(decimals.len());
            exact((n * scale + m) * unit.milliseconds(), scale)
        }
    }
}

#[tactic(auto, unfolding(crate::specs::Reading::with_others))]
fn with_others(
    unit: TimeUnit,
    digits: &[u8],
    decimals: Option<&[u8]>,
    others: Option<u128>,
) -> Option<u128>
    requires { IfSome others (λ ms. ms ≤ 4 * (2 * 10 ^ 29 * 86400000)) }
    ensures value { result ≡ with_others unit (in_lower_case digits.now) (option_map (λ decimals. in_lower_case decimals.now) decimals.entry) others }
    ensures bounded { IfSome result (λ sum. sum ≤ 2 * 10 ^ 29 * 86400000 + unwrap_or others 0) }
{
    if decimals.is_some() {
        return None;
    }
    let n = count(20, digits)?;
    let ms = others?;
    Some(n * unit.milliseconds() + ms)
}

fn behind_gap(text: &[u8]) -> &[u8]
    ensures { in_lower_case result.now ≡ behind_gap (in_lower_case text.now) }
{
    match behind(b"_", text) {
        Some(rest) => rest,
        None => text,
    }
}

#[tactic(auto, unfolding(crate::specs::Reading::parts))]
fn parts(units: &[TimeUnit], text: &[u8]) -> Option<u128>
    requires { length units.now ≤ 5 }
    ensures value { result ≡ parts units.now (in_lower_case text.now) }
    ensures bounded { IfSome result (λ ms. ms ≤ length units.now * (2 * 10 ^ 29 * 86400000)) }
{
    let (unit, others) = units.split_first()?;
    let part = part_at(text);
    if part.letters.eq_ignore_ascii_case(unit.letters()) {
        if part.rest.is_empty() {
            last_part(*unit, part.digits, part.decimals)
        } else {
            let others = parts(others, behind_gap(part.rest));
            with_others(*unit, part.digits, part.decimals, others)
        }
    } else {
        parts(others, text)
    }
}

/// The milliseconds of a length of time.
#[tactic(auto, unfolding(crate::specs::Reading::time))]
pub(crate) fn time(text: &[u8]) -> Option<i128>
    ensures { result ≡ time (in_lower_case text.now) }
{
    if let Some(rest) = behind(b"-", text) {
        let ms = parts(&UNITS, rest)?;
        return Some(-(ms as i128));
    }
    let ms = parts(&UNITS, text)?;
    Some(ms as i128)
}

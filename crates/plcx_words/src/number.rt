//! Numbers among the words: decimal digits and nothing else.
ghost use Rattle.std.specs.Prelude.{◌≡◌, ◌≤◌, true, length, Option, Some, None, if◌then◌else◌};
ghost use Rattle.std.specs.List.{list_all};
ghost use Rattle.plcx_types.specs.Duration.{number};
ghost use Rattle.plcx_types.specs.Numeral.{is_digit};
ghost use Rattle.plcx_words.specs.Command.{are_turns, is_size};

fn are_digits(text: &[u8]) -> bool
    ensures { result ≡ list_all (is_digit 10) text.now }
{
    text.iter().all(|byte| byte.is_ascii_digit())
}

/// The number that up to 18 decimal digits stand for.
fn number(text: &[u8]) -> u64
    requires few { length text.now ≤ 18 }
    requires digits { list_all (is_digit 10) text.now ≡ true }
    ensures { result ≡ number text.now }
{
    let mut n = 0;
    for byte in text {
        n = n * 10 + u64::from(*byte - b'0');
    }
    n
}

/// The turns of a scan, which have 1 to 18 digits.
pub fn turns(text: &str) -> Option<u64>
    ensures { result ≡ (if are_turns text.now then Some (number text.now) else None) }
{
    let text = text.as_bytes();
    if !text.is_empty() && text.len() <= 18 && are_digits(text) {
        Some(number(text))
    } else {
        None
    }
}

/// The networks of a benchmark: 1 to 1000, and no zero in front.
pub fn size(text: &str) -> Option<u64>
    ensures { result ≡ (if is_size text.now then Some (number text.now) else None) }
{
    let text = text.as_bytes();
    if text.is_empty() || text.len() > 4 || !are_digits(text) || text[0] == b'0' {
        return None;
    }
    let networks = number(text);
    if networks <= 1000 {
        Some(networks)
    } else {
        None
    }
}

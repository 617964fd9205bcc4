//! What stands at the front of a text, whatever the case of its letters.
ghost use Rattle.std.specs.Prelude.{◌≡◌, Some, None};
ghost use Rattle.std.specs.Char.{to_ascii_lowercase};
ghost use Rattle.plcx_types.specs.Name.{in_lower_case};
ghost use Rattle.plcx_types.specs.Numeral.{is_digit};
ghost use Rattle.plcx_types.specs.Reading.{behind, GivesRest, front, back, is_letter};

/// The rest of a text that begins with a word, whatever the case of its letters.
#[tactic(auto)]
pub fn behind<'t>(word: &[u8], text: &'t [u8]) -> Option<&'t [u8]>
    ensures { GivesRest (λ rest. in_lower_case rest.now) result (behind (in_lower_case word.now) (in_lower_case text.now)) }
{
    if text.len() < word.len() {
        return None;
    }
    let (front, rest) = text.split_at(word.len());
    if front.eq_ignore_ascii_case(word) {
        Some(rest)
    } else {
        None
    }
}

fn is_decimal(byte: u8) -> bool
    ensures { result ≡ is_digit 10 (to_ascii_lowercase byte) }
{
    byte.is_ascii_digit()
}

fn is_letter(byte: u8) -> bool
    ensures { result ≡ is_letter (to_ascii_lowercase byte) }
{
    byte.is_ascii_alphabetic()
}

/// The decimal digits at the front, and the rest.
pub(crate) fn split_digits(text: &[u8]) -> (&[u8], &[u8])
    ensures digits { in_lower_case result.0.now ≡ front (is_digit 10) (in_lower_case text.now) }
    ensures rest { in_lower_case result.1.now ≡ back (is_digit 10) (in_lower_case text.now) }
{
    let mut count = 0;
    while count < text.len() && is_decimal(text[count]) {
        count += 1;
    }
    text.split_at(count)
}

/// The letters at the front, and the rest.
pub(crate) fn split_letters(text: &[u8]) -> (&[u8], &[u8])
    ensures letters { in_lower_case result.0.now ≡ front is_letter (in_lower_case text.now) }
    ensures rest { in_lower_case result.1.now ≡ back is_letter (in_lower_case text.now) }
{
    let mut count = 0;
    while count < text.len() && is_letter(text[count]) {
        count += 1;
    }
    text.split_at(count)
}

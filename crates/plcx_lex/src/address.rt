//! How long the address at the front of a text is.
ghost use Rattle.plcx_types.specs.Name.{in_lower_case};
ghost use Rattle.plcx_types.specs.Address.{ArePlaces, IsAddressForm};
ghost use Rattle.plcx_lex.specs.Scan.{Finds};

use crate::runs::{Class, prefix, run_len};
use plcx_types::{is_area, is_size};

/// How long the longest list of places is.
fn places_len(most: usize, text: &[u8]) -> Option<usize>
    ensures { Finds (ArePlaces most) (in_lower_case text.now) result }
{
    let n = run_len(Class::Decimal, prefix(9, text));
    if most == 0 || n == 0 {
        return None;
    }
    if n == text.len() || text[n] != b'.' {
        return Some(n);
    }
    match places_len(most - 1, &text[n + 1..]) {
        None => Some(n),
        Some(more) => Some(n + 1 + more),
    }
}

/// How long the longest address is.
pub(crate) fn address_len(text: &[u8]) -> Option<usize>
    ensures { Finds IsAddressForm (in_lower_case text.now) result }
{
    if text.len() < 3 || text[0] != b'%' || !is_area(text[1]) {
        return None;
    }
    if is_size(text[2]) {
        match places_len(8, &text[3..]) {
            None => None,
            Some(n) => Some(3 + n),
        }
    } else {
        match places_len(8, &text[2..]) {
            None => None,
            Some(n) => Some(2 + n),
        }
    }
}

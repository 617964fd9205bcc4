//! Texts in a diagram: names without the case of their letters, and expressions without white space around them.
ghost use Rattle.std.specs.Prelude.{◌≡◌, ◌≤◌, length, reverse, IfOk};
ghost use Rattle.std.specs.List.{prefix_len};
ghost use Rattle.plcx_types.specs.Name.{in_lower_case};
ghost use Rattle.plcx_rules.specs.Texts.{same_name, is_space, behind_space, before_space, trimmed};

use std::alloc::{AllocError, Global};

/// A text in lower case.
pub fn in_lower_case(alloc: Global, text: &[u8]) -> Result<Vec<u8>, AllocError>
    ensures { IfOk result (λ copy. copy.items ≡ in_lower_case text.now) }
{
    let mut copy = Vec::from_slice(alloc, text)?;
    copy.as_mut_slice().make_ascii_lowercase();
    Ok(copy)
}

/// Whether two texts are one name.
pub fn same_name(left: &[u8], right: &[u8]) -> bool
    ensures { result ≡ same_name left.now right.now }
{
    plcx_types::same_name(left, right)
}

fn is_space(byte: u8) -> bool
    ensures { result ≡ is_space byte }
{
    byte == b' ' || byte == b'\t' || byte == b'\r' || byte == b'\n'
}

/// The bytes of white space that a text begins with.
fn space_len(text: &[u8]) -> usize
    ensures value { result ≡ prefix_len is_space text.now }
    ensures within { result ≤ length text.now }
{
    text.iter().take_while(|byte| is_space(**byte)).count()
}

/// The bytes of white space that a text ends with.
fn end_space_len(text: &[u8]) -> usize
    ensures value { result ≡ prefix_len is_space (reverse text.now) }
    ensures within { result ≤ length text.now }
{
    text.iter()
        .rev()
        .take_while(|byte| is_space(**byte))
        .count()
}

fn behind_space(text: &[u8]) -> &[u8]
    ensures { result.now ≡ behind_space text.now }
{
    &text[space_len(text)..]
}

fn before_space(text: &[u8]) -> &[u8]
    ensures { result.now ≡ before_space text.now }
{
    &text[..text.len() - end_space_len(text)]
}

/// A text without the white space at both of its ends.
#[tactic(auto, unfolding(plcx_rules::specs::Texts::trimmed))]
pub fn trimmed(text: &[u8]) -> &[u8]
    ensures { result.now ≡ trimmed text.now }
{
    let text = behind_space(text);
    before_space(text)
}

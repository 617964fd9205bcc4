//! Runs of bytes at the front of a text.
ghost use Rattle.std.specs.Prelude.{◌≡◌, take};
ghost use Rattle.plcx_lex.specs.Scan.{belongs, IsRun};

/// Which bytes a run has.
#[derive(Clone, Copy)]
pub enum Class {
    Part,
    Decimal,
    Time,
}

fn belongs(class: Class, byte: u8) -> bool
    ensures { result ≡ belongs class byte }
{
    match class {
        Class::Part => byte.is_ascii_alphanumeric() || byte == b'_',
        Class::Decimal => byte.is_ascii_digit(),
        Class::Time => byte.is_ascii_alphanumeric() || byte == b'_' || byte == b'.' || byte == b'-',
    }
}

/// How many bytes at the front are of the class.
pub(crate) fn run_len(class: Class, text: &[u8]) -> usize
    ensures { IsRun (belongs class) text.now result }
{
    for i in 0..text.len() {
        if !belongs(class, text[i]) {
            return i;
        }
    }
    text.len()
}

/// The prefix of at most so many bytes.
pub(crate) fn prefix(most: usize, text: &[u8]) -> &[u8]
    ensures { result.now ≡ take most text.now }
{
    if most < text.len() {
        &text[..most]
    } else {
        text
    }
}

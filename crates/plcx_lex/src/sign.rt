//! The sign at the front of a text.
ghost use Rattle.std.specs.Prelude.{◌≡◌, [], ◌∷◌, true, false, codes, MatchOption};
ghost use Rattle.plcx_lex.specs.declared.token.TokenKind.TheVariants as kind;
ghost use Rattle.plcx_types.specs.Address.{is_one_of};
ghost use Rattle.plcx_lex.specs.Terminal.{terminal_of, kind_of};
ghost use Rattle.plcx_lex.specs.Scan.{NoneOf, LongestSign, Sign, is_pair, IsSign};

use crate::terminal::Terminal;

fn single(byte: u8) -> Option<Terminal>
    ensures { MatchOption result (is_one_of (codes ":;,.()+-*/=<>") byte ≡ false) (λ t. (is_one_of (codes ":;,.()+-*/=<>") byte ≡ true) × IsSign t (byte ∷ [])) }
{
    match byte {
        b':' => Some(Terminal::Colon),
        b';' => Some(Terminal::Semicolon),
        b',' => Some(Terminal::Comma),
        b'.' => Some(Terminal::Dot),
        b'(' => Some(Terminal::Open),
        b')' => Some(Terminal::Close),
        b'+' => Some(Terminal::Plus),
        b'-' => Some(Terminal::Minus),
        b'*' => Some(Terminal::Times),
        b'/' => Some(Terminal::Divide),
        b'=' => Some(Terminal::Equal),
        b'<' => Some(Terminal::Less),
        b'>' => Some(Terminal::Greater),
        _ => None,
    }
}

fn pair(byte: u8, next: u8) -> Option<Terminal>
    ensures { MatchOption result (is_pair byte next ≡ false) (λ t. (is_pair byte next ≡ true) × IsSign t (byte ∷ next ∷ [])) }
{
    match (byte, next) {
        (b':', b'=') => Some(Terminal::Assign),
        (b'<', b'>') => Some(Terminal::NotEqual),
        (b'<', b'=') => Some(Terminal::LessOrEqual),
        (b'>', b'=') => Some(Terminal::GreaterOrEqual),
        _ => None,
    }
}

/// The longest sign, and its length.
#[tactic(auto, using(crate::proofs::SignScan::sign_rules))]
pub(crate) fn sign(text: &[u8]) -> Option<(Terminal, usize)>
    ensures { MatchOption result (NoneOf Sign text.now) (λ s. LongestSign text.now s.0 s.1) }
{
    match text {
        [] => None,
        [byte] => {
            let terminal = single(*byte)?;
            Some((terminal, 1))
        }
        [byte, next, ..] => {
            if let Some(terminal) = pair(*byte, *next) {
                return Some((terminal, 2));
            }
            let terminal = single(*byte)?;
            Some((terminal, 1))
        }
    }
}

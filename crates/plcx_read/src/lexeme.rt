ghost use Rattle.std.specs.Prelude.{◌≡◌, ◌-◌, map, take, drop, IfOk, MatchResult};
ghost use Rattle.std.specs.Char.{to_ascii_uppercase};
ghost use Rattle.plcx_lex.specs.Lexis.{spelt};
ghost use Rattle.plcx_lex.specs.ReadNumber.{literal_of};
ghost use Rattle.plcx_lex.specs.Terminal.{terminal};
ghost use Rattle.plcx_st.specs.Grammar.{word, label};

use plcx_lex::{TextError, TextToken, number_of};
use plcx_st::{Terminal, Word};
use plcx_types::{Ident, Span, Ty};
use sqlite_items::Items;
use std::alloc::Global;
use std::marker::Model;

/// A token with its text, and what it is in the grammar.
#[derive(Debug, Drop)]
pub struct Lexeme<'s> {
    terminal: Terminal,
    text: &'s [u8],
    span: Span,
}

impl<'s> Model for Lexeme<'s> {
    ghost use Rattle.std.specs.Prelude.{◌≡◌};
    ghost use Rattle.plcx_lex.specs.Token.{Token};
    ghost use Rattle.plcx_lex.specs.Terminal.{terminal_of, kind_of};

    ghost Value = { Token };

    ghost view = { λ x. record { kind = kind_of x.terminal; text = x.text.now; span = x.span } };

    ghost invariant = { λ x. x.terminal ≡ terminal_of (kind_of x.terminal) x.text.now };
}

/// The bytes of the span.
fn text_at(bytes: &[u8], span: Span) -> &[u8]
    ensures { result.now ≡ take (span.end - span.start) (drop span.start bytes.now) }
{
    let end = bytes.len().min(span.end as usize);
    let start = end.min(span.start as usize);
    &bytes[start..end]
}

impl<'s> Lexeme<'s> {
    /// The token with its text.
    #[tactic(auto, unfolding(plcx_lex::specs::Terminal::terminal))]
    pub fn new(bytes: &'s [u8], token: TextToken) -> Lexeme<'s>
        requires { token.terminal ≡ terminal (spelt bytes.now token) }
        ensures { result ≡ spelt bytes.now token }
    {
        Lexeme {
            terminal: token.terminal,
            text: text_at(bytes, token.span),
            span: token.span,
        }
    }

    /// What it is in the grammar.
    pub fn terminal(&self) -> Terminal
        ensures { result ≡ terminal self.now }
    {
        self.terminal
    }

    /// Where it stands.
    pub fn span(&self) -> Span
        ensures { result ≡ self.now.span }
    {
        self.span
    }

    /// The name that it is. A name token has the form of a name, so that only memory can be missing.
    pub fn word(&self, alloc: Global) -> Result<Word, TextError>
        ensures value { IfOk result (λ w. w ≡ word self.now) }
        ensures error { MatchResult result (λ _. Unit {0}) (λ e. e ≡ TextError.NoMemory) }
    {
        match Ident::new(alloc, self.text) {
            Ok(name) => Ok(Word {
                name,
                span: self.span,
            }),
            Err(_) => Err(TextError::NoMemory),
        }
    }

    /// The type and the number of a literal.
    pub fn literal(&self) -> Option<(Ty, i128)>
        ensures { result ≡ literal_of self.now.text }
    {
        number_of(self.text)
    }

    /// The address that it is, in upper case.
    pub fn address(&self, alloc: Global) -> Result<Items<u8>, TextError>
        ensures value { IfOk result (λ a. a ≡ map to_ascii_uppercase self.now.text) }
        ensures error { MatchResult result (λ _. Unit {0}) (λ e. e ≡ TextError.NoMemory) }
    {
        let mut raised = Items::new(alloc);
        for byte in self.text {
            raised.push(byte.to_ascii_uppercase())?;
        }
        Ok(raised)
    }

    /// The number of its digits, or 2147483648 where that is greater.
    pub fn label(&self) -> u32
        ensures { result ≡ label self.now }
    {
        let mut n: u64 = 0;
        for byte in self.text {
            if byte.is_ascii_digit() {
                n = (n * 10 + u64::from(*byte - b'0')).min(2_147_483_648);
            }
        }
        n as u32
    }
}

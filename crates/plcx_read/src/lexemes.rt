//! The tokens that are left to read.
ghost use Rattle.std.specs.Prelude.{◌≡◌, ◌∷◌, [], ◌+◌, ◌==◌, length, map, MatchOption, All};
ghost use Rattle.plcx_lex.specs.Lexis.{spelt};
ghost use Rattle.plcx_lex.specs.Terminal.{terminal};

use crate::lexeme::Lexeme;
use plcx_lex::TextToken;
use std::marker::Model;

/// Tokens of a text with their texts. A text is cut out where it is asked for, so that a token takes room once.
#[derive(Debug, Drop)]
pub struct Lexemes<'t> {
    bytes: &'t [u8],
    tokens: &'t [TextToken],
}

impl<'t> Model for Lexemes<'t> {
    ghost use Rattle.std.specs.Prelude.{◌≡◌, List, map, All};
    ghost use Rattle.plcx_lex.specs.Token.{Token};
    ghost use Rattle.plcx_lex.specs.Lexis.{spelt};
    ghost use Rattle.plcx_lex.specs.Terminal.{terminal};

    ghost Value = { List Token };

    ghost view = { λ x. map (spelt x.bytes.now) x.tokens.now };

    ghost invariant = { λ x. All (λ t. t.terminal ≡ terminal (spelt x.bytes.now t)) x.tokens.now };
}

impl<'t> Lexemes<'t> {
    /// The tokens with their texts.
    pub fn new(bytes: &'t [u8], tokens: &'t [TextToken]) -> Lexemes<'t>
        requires { All (λ t. t.terminal ≡ terminal (spelt bytes.now t)) tokens.now }
        ensures { result ≡ map (spelt bytes.now) tokens.now }
    {
        Lexemes { bytes, tokens }
    }

    /// The same tokens once more.
    pub fn same(&self) -> Lexemes<'t>
        ensures { result ≡ self.now }
    {
        Lexemes {
            bytes: self.bytes,
            tokens: self.tokens,
        }
    }

    /// The first, and those behind it.
    pub fn split(&self) -> Option<(Lexeme<'t>, Lexemes<'t>)>
        ensures { MatchOption result (self.now ≡ []) (λ p. self.now ≡ p.0 ∷ p.1) }
    {
        match self.tokens {
            [] => None,
            [x, rest @ ..] => {
                let rest = Lexemes {
                    bytes: self.bytes,
                    tokens: rest,
                };
                Some((Lexeme::new(self.bytes, *x), rest))
            }
        }
    }

    /// Whether none is left.
    pub fn is_empty(&self) -> bool
        ensures { result ≡ (length self.now == 0) }
    {
        self.tokens.is_empty()
    }

    /// How often a loop that takes a token at least each time goes round at most, its last turn included.
    pub fn turns(&self) -> usize
        ensures { result ≡ length self.now + 1 }
    {
        self.tokens.len() + 1
    }
}

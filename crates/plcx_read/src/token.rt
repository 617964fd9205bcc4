ghost use Rattle.std.specs.Prelude.{◌≡◌, ℕ, drop, map};
ghost use Rattle.plcx_st.specs.Grammar.{word, number};
ghost use Rattle.plcx_read.specs.Reading as spec;
ghost use Rattle.plcx_st.specs.Place.{start_of};
ghost use Rattle.plcx_read.specs.Gives.{Gives, located};

use crate::lexemes::Lexemes;
use plcx_lex::TextError;
use plcx_st::{Number, Terminal, Word};
use sqlite_items::Items;
use std::alloc::Global;

/// What a reader gives: a value, its depth, and the tokens after it. Readers take the length of the text, which is the place where tokens are missing.
pub type Read<'t, T> = Result<(T, usize, Lexemes<'t>), TextError>;

/// What a reader of a part without depth gives: a value, and the tokens after it.
pub type Part<'t, T> = Result<(T, Lexemes<'t>), TextError>;

/// Whether both are the same terminal.
#[tactic(auto, unfolding(crate::specs::Reading::same))]
pub fn same(a: Terminal, b: Terminal) -> bool
    ensures { result ≡ spec.same a b }
{
    a == b
}

/// What the next token is.
pub fn next(tokens: &Lexemes<'_>) -> Terminal
    ensures { result ≡ spec.next tokens.now }
{
    match tokens.split() {
        None => Terminal::Other,
        Some((x, _)) => x.terminal(),
    }
}

/// Whether the next token is this terminal.
pub fn sees(terminal: Terminal, tokens: &Lexemes<'_>) -> bool
    ensures { result ≡ spec.sees terminal tokens.now }
{
    match tokens.split() {
        None => false,
        Some((x, _)) => same(x.terminal(), terminal),
    }
}

/// Where the first of the tokens begins, or the text ends.
fn start_of(end: u64, tokens: &Lexemes<'_>) -> u64
    ensures { result ≡ start_of tokens.now end }
{
    match tokens.split() {
        None => end,
        Some((x, _)) => x.span().start,
    }
}

/// The next token does not go on, or there is none.
pub fn unexpected(end: u64, tokens: &Lexemes<'_>) -> TextError
    ensures { result ≡ located end spec.syntax tokens.now }
{
    TextError::Syntax {
        at: start_of(end, tokens),
    }
}

/// The next token would go on if the text could be deeper.
pub fn too_deep(end: u64, tokens: &Lexemes<'_>) -> TextError
    ensures { result ≡ located end spec.too_deep tokens.now }
{
    TextError::TooDeep {
        at: start_of(end, tokens),
    }
}

/// The tokens behind the first.
pub fn behind<'t>(tokens: &Lexemes<'t>) -> Lexemes<'t>
    ensures { result ≡ drop 1 tokens.now }
{
    match tokens.split() {
        None => tokens.same(),
        Some((_, rest)) => rest,
    }
}

/// The list of what was found, with room for that alone.
pub fn listed<T: Drop>(mut found: Vec<T>) -> Items<T>
    ensures { result ≡ found.items }
{
    found.shrink_to_fit();
    Items::from_vec(found)
}

/// The tokens behind the first, which is this terminal.
#[tactic(auto, unfolding(crate::specs::Reading::expect))]
pub fn expect<'t>(
    end: u64,
    terminal: Terminal,
    tokens: &Lexemes<'t>,
) -> Result<Lexemes<'t>, TextError>
    ensures { Gives end (λ x. x) result (spec.expect terminal tokens.now) }
{
    match tokens.split() {
        None => Err(unexpected(end, tokens)),
        Some((x, rest)) => {
            if same(x.terminal(), terminal) {
                Ok(rest)
            } else {
                Err(unexpected(end, tokens))
            }
        }
    }
}

/// A name, and the tokens behind it.
#[tactic(auto, unfolding(crate::specs::Reading::name_at))]
pub fn name_at<'t>(alloc: Global, end: u64, tokens: &Lexemes<'t>) -> Part<'t, Word>
    ensures { Gives end (λ x. (x.0, 0, x.1)) result (spec.name_at tokens.now) }
{
    match tokens.split() {
        None => Err(unexpected(end, tokens)),
        Some((x, rest)) => {
            if same(x.terminal(), Terminal::Name) {
                Ok((x.word(alloc)?, rest))
            } else {
                Err(unexpected(end, tokens))
            }
        }
    }
}

/// A literal, and the tokens behind it.
#[tactic(auto, unfolding(crate::specs::Reading::literal_at))]
pub fn literal_at<'t>(end: u64, tokens: &Lexemes<'t>) -> Part<'t, Number>
    ensures { Gives end (λ x. (x.0, 0, x.1)) result (spec.literal_at tokens.now) }
{
    match tokens.split() {
        None => Err(unexpected(end, tokens)),
        Some((x, rest)) => {
            if same(x.terminal(), Terminal::Number) {
                match x.literal() {
                    None => Err(unexpected(end, tokens)),
                    Some((ty, n)) => Ok((
                        Number {
                            ty,
                            n,
                            span: x.span(),
                        },
                        rest,
                    )),
                }
            } else {
                Err(unexpected(end, tokens))
            }
        }
    }
}

/// There is room for what is inside, or the first token does not go on.
#[tactic(auto, unfolding(crate::specs::Reading::room))]
pub fn room(end: u64, allowance: usize, tokens: &Lexemes<'_>) -> Result<(), TextError>
    ensures { Gives end (λ x. x) result (spec.room allowance tokens.now) }
{
    if allowance == 0 {
        return Err(too_deep(end, tokens));
    }
    Ok(())
}

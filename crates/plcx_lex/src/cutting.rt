//! The tokens of a text.
ghost use Rattle.std.specs.Prelude.{◌≡◌, ◌≤◌, ◌+◌, ◌++◌, ℕ, length, map, MatchResult, IfOk, OnOk, All};
ghost use Rattle.plcx_lex.specs.Lexis.{AreTextTokens, spelt};
ghost use Rattle.plcx_lex.specs.Fails.{LexFails};
ghost use Rattle.plcx_lex.specs.Terminal.{terminal};
ghost use Rattle.plcx_lex.specs.Scan.{placed};

use crate::error::TextError;
use crate::pieces::{closes_before, piece};
use crate::terminal::Terminal;
use crate::token::TextToken;
use plcx_types::Span;
use std::alloc::{AllocError, Global};

fn keep(
    out: &mut Vec<TextToken>,
    terminal: Option<Terminal>,
    start: usize,
    end: usize,
) -> Result<(), AllocError>
    requires { start ≤ end }
    ensures { OnOk result (out.new.items ≡ out.old.items ++ placed terminal start end) }
{
    if let Some(terminal) = terminal {
        let span = Span {
            start: start as u64,
            end: end as u64,
        };
        out.push(TextToken { terminal, span })?;
    }
    Ok(())
}

/// The tokens that a text is made of, or the end of its longest prefix that is made of tokens and of what parts them.
pub fn tokens(alloc: Global, bytes: &[u8]) -> Result<Vec<TextToken>, TextError>
    ensures tokens { MatchResult result (λ found. AreTextTokens bytes.now (map (spelt bytes.now) found.items)) (LexFails bytes.now) }
    ensures terminals { IfOk result (λ found. All (λ t. t.terminal ≡ terminal (spelt bytes.now t)) found.items) }
{
    let mut out = Vec::new(alloc);
    let limit = closes_before(bytes);
    let mut at: usize = 0;
    while at < bytes.len() {
        let Some((terminal, n)) = piece(&bytes[at..], limit.saturating_sub(at)) else {
            return Err(TextError::Lex { at: at as u64 });
        };
        keep(&mut out, terminal, at, at + n)?;
        at += n;
    }
    Ok(out)
}

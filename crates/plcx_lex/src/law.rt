//! Laws of the definitions, each on a function of its own.
ghost use Rattle.std.specs.Prelude.{◌≡◌, ℕ, List};
ghost use Rattle.plcx_lex.specs.declared.token.TokenKind.{TokenKind};
ghost use Rattle.plcx_lex.specs.Token.{Token};
ghost use Rattle.plcx_lex.specs.Lexis.{IsToken, AreTextTokens};

/// A text is made of one list of tokens at most, and is a token of one kind at most.
#[tactic(auto, using(crate::proofs::MadeLaws::one_tokens, crate::proofs::OneKind::one_kind))]
pub fn one_list()
    ensures tokens { (bytes : List ℕ) (first second : List Token) → AreTextTokens bytes first → AreTextTokens bytes second → first ≡ second }
    ensures kind { (first second : TokenKind) (text : List ℕ) → IsToken first text → IsToken second text → first ≡ second }
{}

//! What a token is in the grammar, and how words and signs are looked up.
ghost use Rattle.std.specs.Prelude.{◌≡◌, true, map};
ghost use Rattle.std.specs.Str.{str_eq_ignore_ascii_case};
ghost use Rattle.plcx_types.specs.Name.{is_identifier};
ghost use Rattle.plcx_lex.specs.Scan.{told, IsTold};
ghost use Rattle.plcx_lex.specs.Terminal.{words, kind_of};

use crate::token::TokenKind;

/// What a token is in the grammar: a word, a sign, or one of a kind of tokens.
#[derive(Clone, Copy, Debug, PartialEq, Eq)]
pub enum Terminal {
    Program,
    EndProgram,
    FunctionBlock,
    EndFunctionBlock,
    Var,
    VarInput,
    VarOutput,
    VarInOut,
    VarTemp,
    EndVar,
    Constant,
    Retain,
    At,
    If,
    Then,
    EndIf,
    While,
    Do,
    EndWhile,
    Case,
    Of,
    EndCase,
    Or,
    Xor,
    And,
    Not,
    Mod,
    Assign,
    Colon,
    Semicolon,
    Comma,
    Dot,
    Open,
    Close,
    Plus,
    Minus,
    Times,
    Divide,
    Equal,
    NotEqual,
    Less,
    Greater,
    LessOrEqual,
    GreaterOrEqual,
    Name,
    Number,
    Digits,
    Address,
    /// A keyword that the grammar has no use for.
    Other,
}

impl Terminal {
    /// The kind of the tokens that are this.
    pub fn kind(self) -> TokenKind
        ensures { result ≡ kind_of self }
    {
        match self {
            Terminal::Name => TokenKind::Name,
            Terminal::Number => TokenKind::Number,
            Terminal::Digits => TokenKind::Digits,
            Terminal::Address => TokenKind::Address,
            Terminal::Assign
            | Terminal::Colon
            | Terminal::Semicolon
            | Terminal::Comma
            | Terminal::Dot
            | Terminal::Open
            | Terminal::Close
            | Terminal::Plus
            | Terminal::Minus
            | Terminal::Times
            | Terminal::Divide
            | Terminal::Equal
            | Terminal::NotEqual
            | Terminal::Less
            | Terminal::Greater
            | Terminal::LessOrEqual
            | Terminal::GreaterOrEqual => TokenKind::Sign,
            _ => TokenKind::Keyword,
        }
    }
}

/// The keywords, and what each is in the grammar.
const KEYWORDS: [(&str, Terminal); 44] = [
    ("PROGRAM", Terminal::Program),
    ("END_PROGRAM", Terminal::EndProgram),
    ("FUNCTION_BLOCK", Terminal::FunctionBlock),
    ("END_FUNCTION_BLOCK", Terminal::EndFunctionBlock),
    ("FUNCTION", Terminal::Other),
    ("END_FUNCTION", Terminal::Other),
    ("VAR", Terminal::Var),
    ("VAR_INPUT", Terminal::VarInput),
    ("VAR_OUTPUT", Terminal::VarOutput),
    ("VAR_IN_OUT", Terminal::VarInOut),
    ("VAR_TEMP", Terminal::VarTemp),
    ("VAR_EXTERNAL", Terminal::Other),
    ("VAR_GLOBAL", Terminal::Other),
    ("END_VAR", Terminal::EndVar),
    ("CONSTANT", Terminal::Constant),
    ("RETAIN", Terminal::Retain),
    ("AT", Terminal::At),
    ("IF", Terminal::If),
    ("THEN", Terminal::Then),
    ("ELSE", Terminal::Other),
    ("ELSIF", Terminal::Other),
    ("END_IF", Terminal::EndIf),
    ("WHILE", Terminal::While),
    ("DO", Terminal::Do),
    ("END_WHILE", Terminal::EndWhile),
    ("CASE", Terminal::Case),
    ("OF", Terminal::Of),
    ("END_CASE", Terminal::EndCase),
    ("FOR", Terminal::Other),
    ("TO", Terminal::Other),
    ("BY", Terminal::Other),
    ("END_FOR", Terminal::Other),
    ("REPEAT", Terminal::Other),
    ("UNTIL", Terminal::Other),
    ("END_REPEAT", Terminal::Other),
    ("EXIT", Terminal::Other),
    ("RETURN", Terminal::Other),
    ("AND", Terminal::And),
    ("OR", Terminal::Or),
    ("XOR", Terminal::Xor),
    ("NOT", Terminal::Not),
    ("MOD", Terminal::Mod),
    ("TRUE", Terminal::Number),
    ("FALSE", Terminal::Number),
];

fn reads(word: &[u8], entry: &str) -> bool
    ensures { result ≡ str_eq_ignore_ascii_case word.now entry.now }
{
    word.eq_ignore_ascii_case(entry.as_bytes())
}

/// What a word of the table is, whatever the case of its letters.
#[tactic(auto, unfolding(crate::specs::Scan::told))]
fn looked_up(table: &[(&str, Terminal)], word: &[u8]) -> Option<Terminal>
    ensures { result ≡ told (map (λ e. (e.0.now, e.1)) table.now) word.now }
{
    for entry in table {
        if reads(word, entry.0) {
            return Some(entry.1);
        }
    }
    None
}

/// What a keyword is in the grammar.
fn keyword(word: &[u8]) -> Option<Terminal>
    ensures { result ≡ told words word.now }
{
    looked_up(&KEYWORDS, word)
}

/// What a word is in the grammar. A word that is no keyword is a name.
pub(crate) fn word_terminal(word: &[u8]) -> Terminal
    requires { is_identifier word.now ≡ true }
    ensures { IsTold word.now result }
{
    match keyword(word) {
        Some(terminal) => terminal,
        None => Terminal::Name,
    }
}

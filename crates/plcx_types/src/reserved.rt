//! Which names no diagram and no text may give to what it declares.
ghost use Rattle.std.specs.Prelude.{◌≡◌, map};
ghost use Rattle.std.specs.List.{list_any};
ghost use Rattle.std.specs.Str.{str_eq_ignore_ascii_case};
ghost use Rattle.plcx_types.specs.Reserved.{is_in, is_keyword, is_conversion, is_of_library, is_listed, is_own, is_reserved};
ghost use Rattle.plcx_types.specs.TypeName.{all_types, type_name};

use crate::conversion::conversion_named;
use crate::ty::Ty;

/// The words of the text's grammar, also those that no statement has yet.
const KEYWORDS: [&str; 44] = [
    "PROGRAM",
    "END_PROGRAM",
    "FUNCTION_BLOCK",
    "END_FUNCTION_BLOCK",
    "FUNCTION",
    "END_FUNCTION",
    "VAR",
    "VAR_INPUT",
    "VAR_OUTPUT",
    "VAR_IN_OUT",
    "VAR_TEMP",
    "VAR_EXTERNAL",
    "VAR_GLOBAL",
    "END_VAR",
    "CONSTANT",
    "RETAIN",
    "AT",
    "IF",
    "THEN",
    "ELSE",
    "ELSIF",
    "END_IF",
    "WHILE",
    "DO",
    "END_WHILE",
    "CASE",
    "OF",
    "END_CASE",
    "FOR",
    "TO",
    "BY",
    "END_FOR",
    "REPEAT",
    "UNTIL",
    "END_REPEAT",
    "EXIT",
    "RETURN",
    "AND",
    "OR",
    "XOR",
    "NOT",
    "MOD",
    "TRUE",
    "FALSE",
];

/// The standard functions, but for the conversions and those that are keywords.
const FUNCTIONS: [&str; 21] = [
    "ADD", "MUL", "SUB", "DIV", "ABS", "MOVE", "SHL", "SHR", "ROL", "ROR", "SEL", "MAX", "MIN",
    "LIMIT", "MUX", "GT", "GE", "EQ", "LE", "LT", "NE",
];

/// The standard function blocks.
const BLOCKS: [&str; 10] = [
    "TON", "TOF", "TP", "CTU", "CTD", "CTUD", "SR", "RS", "R_TRIG", "F_TRIG",
];

/// The enables of functions and blocks.
const ENABLES: [&str; 2] = ["EN", "ENO"];

fn reads(word: &[u8], entry: &str) -> bool
    ensures { result ≡ str_eq_ignore_ascii_case word.now entry.now }
{
    word.eq_ignore_ascii_case(entry.as_bytes())
}

fn is_in(table: &[&str], word: &[u8]) -> bool
    ensures { result ≡ list_any (λ entry. str_eq_ignore_ascii_case word.now entry.now) table.now }
{
    table.iter().any(|entry| reads(word, entry))
}

fn is_type(word: &[u8]) -> bool
    ensures { result ≡ is_in (map type_name all_types) word.now }
{
    Ty::named(word).is_some()
}

fn is_conversion(word: &[u8]) -> bool
    ensures { result ≡ is_conversion word.now }
{
    conversion_named(word).is_some()
}

fn is_own(word: &[u8]) -> bool
    ensures { result ≡ is_own word.now }
{
    5 <= word.len() && word[..5].eq_ignore_ascii_case(b"PLCX_")
}

/// Whether a word belongs to the text's grammar.
pub fn is_keyword(word: &[u8]) -> bool
    ensures { result ≡ is_keyword word.now }
{
    is_in(&KEYWORDS, word)
}

fn is_of_library(word: &[u8]) -> bool
    ensures { result ≡ is_of_library word.now }
{
    is_in(&FUNCTIONS, word) || is_conversion(word) || is_in(&BLOCKS, word)
}

/// Whether a text may not declare the name.
pub fn is_listed(word: &[u8]) -> bool
    ensures { result ≡ is_listed word.now }
{
    is_keyword(word) || is_in(&ENABLES, word) || is_type(word) || is_of_library(word)
}

/// Whether a diagram may not declare the name.
pub fn is_reserved(word: &[u8]) -> bool
    ensures { result ≡ is_reserved word.now }
{
    is_listed(word) || is_own(word)
}

//! Texts and the tokens that they are cut into.
use plcx_lex::{TextError, TokenKind, number_of, tokens};
use plcx_types::Ty;
use std::alloc::Global;
use std::test::Fail;

/// A letter for each kind of token.
fn letter(kind: TokenKind) -> u8 {
    match kind {
        TokenKind::Keyword => b'k',
        TokenKind::Name => b'n',
        TokenKind::Number => b'l',
        TokenKind::Digits => b'd',
        TokenKind::Address => b'a',
        TokenKind::Sign => b's',
    }
}

/// The tokens of a text: for each its letter, its text and a line feed; or `!` and the place.
fn told(alloc: Global, text: &[u8]) -> Result<Vec<u8>, Fail> {
    let mut lines = Vec::new(alloc);
    match tokens(alloc, text) {
        Ok(found) => {
            for token in &found {
                lines.push(letter(token.terminal.kind()))?;
                let start = token.span.start as usize;
                let end = token.span.end as usize;
                if start <= end && end <= text.len() {
                    lines.extend_from_slice(&text[start..end])?;
                }
                lines.push(b'\n')?;
            }
        }
        Err(TextError::Lex { at }) => {
            let place = format!(in alloc; "!{at}")?;
            lines.extend_from_slice(place.as_bytes())?;
        }
        Err(_) => lines.push(b'?')?,
    }
    Ok(lines)
}

const CUT: [(&str, &str); 26] = [
    ("If x<=y THEN", "kIf\nnx\ns<=\nny\nkTHEN\n"),
    ("T#1.5ms", "lT#1.5m\nns\n"),
    ("INT#1_", "lINT#1\nn_\n"),
    ("INT#16#fF", "lINT#16#fF\n"),
    ("int#-5+3", "lint#-5\ns+\nd3\n"),
    (
        "BOOL#1 BOOL#5 BOOL#16#0 BOOL#False",
        "lBOOL#1\nlBOOL#5\nlBOOL#16#0\nlBOOL#False\n",
    ),
    ("true FALSEs", "ltrue\nnFALSEs\n"),
    ("time#1d_2h t#-5ms_", "ltime#1d_2h\nlt#-5ms\nn_\n"),
    ("T#1s1s", "lT#1s\nd1\nns\n"),
    ("1_000", "d1\nn_000\n"),
    ("%ix0.1.", "a%ix0.1\ns.\n"),
    ("%Q1234567890", "a%Q123456789\nd0\n"),
    ("%MW1.2.3.4.5.6.7.8.9", "a%MW1.2.3.4.5.6.7.8\ns.\nd9\n"),
    (":=:<>=>=<=", "s:=\ns:\ns<>\ns=\ns>=\ns<=\n"),
    ("(*a*)b(*)*)", "nb\n"),
    ("(*)", "s(\ns*\ns)\n"),
    ("(* a", "s(\ns*\nna\n"),
    ("a//b\nc", "na\nnc\n"),
    ("//(*\n*)", "s*\ns)\n"),
    ("a/ /b", "na\ns/\ns/\nnb\n"),
    ("", ""),
    ("INT#", "!3"),
    ("T#0.0001s", "!1"),
    ("a $ b", "!2"),
    ("(* a *) #", "!8"),
    ("%iy1", "!0"),
];

#[test]
fn cuts_texts(rt: HostRuntime) -> Result<(), Fail> {
    for (text, wanted) in CUT {
        let lines = told(rt.alloc(), text.as_bytes())?;
        assert_eq!(rt; lines.as_slice(), wanted.as_bytes(), "at {text}");
    }
    Ok(())
}

#[test]
fn takes_128_bytes_of_a_name(rt: HostRuntime) -> Result<(), Fail> {
    let text = vec![in rt.alloc(); b'a'; 129]?;
    let found = tokens(rt.alloc(), &text)?;
    assert_eq!(rt; found.len(), 2);
    assert_eq!(rt; found[0].span.end, 128);
    assert_eq!(rt; found[1].span.end, 129);
    Ok(())
}

#[test]
fn reads_numbers_outside_their_type(rt: HostRuntime) {
    let read = [
        ("BOOL#5", Ty::Bool, 5),
        ("usint#-1", Ty::Usint, -1),
        ("Int#16#FFFFF", Ty::Int, 1_048_575),
        (
            "t#99999999999999999999d",
            Ty::Time,
            8_639_999_999_999_999_999_913_600_000,
        ),
        ("TRUE", Ty::Bool, 1),
    ];
    for (text, ty, n) in read {
        assert_eq!(rt; number_of(text.as_bytes()), Some((ty, n)), "at {text}");
    }
    for text in ["5", "INT", "INT#", "INT#TRUE", "X#5", "INT#5 ", "TRUE#1"] {
        assert_eq!(rt; number_of(text.as_bytes()), None, "at {text}");
    }
}

//! Names, literals and printed values.
use plcx_types::{
    Ident, IdentError, Literal, NotLiteral, Ty, Val, is_reserved, print_literal, read_literal,
    read_value,
};
use std::test::Fail;

#[test]
fn copies_a_name(rt: HostRuntime) -> Result<(), Fail> {
    let name = Ident::new(rt.alloc(), b"Main")?;
    let copy = name.copy(rt.alloc())?;
    assert_eq!(rt; name.text(), b"Main".as_slice());
    assert_eq!(rt; copy.text(), b"Main".as_slice());
    assert!(rt; copy.same(&name));
    Ok(())
}

#[test]
fn refuses_a_text_that_is_no_name(rt: HostRuntime) {
    for text in ["", "1st", "Motor-1", "a.b"] {
        let name = Ident::new(rt.alloc(), text.as_bytes());
        assert!(rt; matches!(name, Err(IdentError::NotIdent)), "at {text}");
    }
}

#[test]
fn reserves_words(rt: HostRuntime) {
    for word in [
        "While",
        "eno",
        "Int",
        "MOVE",
        "r_trig",
        "PLCX_w1",
        "BOOL_TO_time",
    ] {
        assert!(rt; is_reserved(word.as_bytes()), "at {word}");
    }
    for word in ["Main", "INT_TO_INT", "INT_TO", "plc_x", "W1", ""] {
        assert!(rt; !is_reserved(word.as_bytes()), "at {word}");
    }
}

const VALUES: [(&str, Ty, i128); 16] = [
    ("true", Ty::Bool, 1),
    ("BOOL#False", Ty::Bool, 0),
    ("BOOL#16#1", Ty::Bool, 1),
    ("1_000", Ty::Int, 1000),
    ("+7", Ty::Usint, 7),
    ("-7", Ty::Lint, -7),
    ("2#1010_1010", Ty::Byte, 170),
    ("8#17", Ty::Word, 15),
    ("16#fF", Ty::Dword, 255),
    ("int#-32768", Ty::Int, -32768),
    (
        "ULINT#16#ffffffffffffffff",
        Ty::Ulint,
        18_446_744_073_709_551_615,
    ),
    ("T#1.5s", Ty::Time, 1500),
    ("TIME#1d_2h", Ty::Time, 93_600_000),
    ("t#-5MS", Ty::Time, -5),
    ("T#1d1h1m1s1ms", Ty::Time, 90_061_001),
    ("T#00000000000000000001ms", Ty::Time, 1),
];

const OTHERS: [(&str, Ty); 20] = [
    ("yes", Ty::Bool),
    ("BOOL#5", Ty::Bool),
    ("INT#TRUE", Ty::Int),
    ("1__000", Ty::Int),
    ("1_", Ty::Int),
    ("_1", Ty::Int),
    ("+-7", Ty::Lint),
    ("-16#7", Ty::Lint),
    ("2#2", Ty::Byte),
    ("8#", Ty::Word),
    ("INT#32768", Ty::Int),
    ("INT#1", Ty::Uint),
    ("256", Ty::Byte),
    ("100", Ty::Time),
    ("T#0.0001s", Ty::Time),
    ("T#1h1d", Ty::Time),
    ("T#1.5s1ms", Ty::Time),
    ("T#1s__1ms", Ty::Time),
    ("T#000000000000000000001ms", Ty::Time),
    ("T#", Ty::Time),
];

#[test]
fn reads_each_form(rt: HostRuntime) {
    for (text, ty, n) in VALUES {
        let read = read_value(ty, text.as_bytes());
        assert!(rt; matches!(read, Ok(value) if value.n() == n), "at {text}");
    }
}

#[test]
fn refuses_each_neighbour(rt: HostRuntime) {
    for (text, ty) in OTHERS {
        let read = read_value(ty, text.as_bytes());
        assert!(rt; matches!(read, Err(NotLiteral)), "at {text}");
    }
}

#[test]
fn keeps_a_whole_number_without_a_type(rt: HostRuntime) {
    let greatest = b"170141183460469231731687303715884105727";
    let read = read_literal(greatest);
    assert!(rt; matches!(read, Ok(Literal::Whole(n)) if n == i128::MAX));
    let above = read_literal(b"170141183460469231731687303715884105728");
    assert!(rt; matches!(above, Err(NotLiteral)));
}

#[test]
fn prints_values(rt: HostRuntime) -> Result<(), Fail> {
    for (ty, n, text) in [
        (Ty::Bool, 1, "TRUE"),
        (Ty::Time, -5, "T#-5ms"),
        (Ty::Int, -32768, "INT#-32768"),
    ] {
        let value = Val::new(ty, n).expect(&rt, "a value");
        let bytes = print_literal(rt.alloc(), value)?;
        assert_eq!(rt; bytes.as_slice(), text.as_bytes());
    }
    Ok(())
}

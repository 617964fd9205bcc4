//! What is printed of texts that were read.
use plcx_read::{read, read_printed};
use plcx_st::{Unit, print};
use sqlite_items::Items;
use std::alloc::Global;
use std::test::Fail;

/// The printed form of what a text reads as.
fn printed(alloc: Global, text: &str) -> Result<Vec<u8>, Fail> {
    let unit = read(alloc, text.as_bytes())?;
    Ok(print(alloc, &unit)?)
}

/// Texts, and what is printed of them.
const PRINTED: [(&str, &str); 6] = [
    (
        "PROGRAM P X := (A OR B) AND NOT (C = D); END_PROGRAM",
        "PROGRAM P\n  X := (A OR B) AND NOT (C = D);\nEND_PROGRAM\n",
    ),
    (
        "PROGRAM P X := (A AND B) OR C; END_PROGRAM",
        "PROGRAM P\n  X := A AND B OR C;\nEND_PROGRAM\n",
    ),
    (
        "PROGRAM P X := (A - B) - (C - (D)); END_PROGRAM",
        "PROGRAM P\n  X := A - B - (C - D);\nEND_PROGRAM\n",
    ),
    (
        "program p var_input constant a at %ix0.0:bool:=bool#1;end_var(* b *)x:=(a or b)and not(c=d);// end\n\tcase n of 007:end_case;end_program",
        "PROGRAM p\nVAR_INPUT CONSTANT\n  a AT %IX0.0 : bool := TRUE;\nEND_VAR\n  x := (a OR b) AND NOT (c = d);\n  CASE n OF\n    7:\n  END_CASE;\nEND_PROGRAM\n",
    ),
    (
        "PROGRAM P X := int#16#f_f + INT#-0_7; T := time#1h_1.5s; END_PROGRAM",
        "PROGRAM P\n  X := INT#255 + INT#-7;\n  T := T#3601500ms;\nEND_PROGRAM\n",
    ),
    (
        "PROGRAM P X := bool#5; Y := BOOL#16#0; Z := usint#-1; END_PROGRAM",
        "PROGRAM P\n  X := BOOL#5;\n  Y := FALSE;\n  Z := USINT#-1;\nEND_PROGRAM\n",
    ),
];

/// Texts in their printed form.
const KEPT: [&str; 4] = [
    concat!(
        "PROGRAM Main\n",
        "VAR\n",
        "  Start : BOOL;\n",
        "  Stop : BOOL;\n",
        "  Motor : BOOL;\n",
        "END_VAR\n",
        "VAR_TEMP\n",
        "  PLCX_W2 : BOOL;\n",
        "  PLCX_W3 : BOOL;\n",
        "  PLCX_W4 : BOOL;\n",
        "  PLCX_W5 : BOOL;\n",
        "END_VAR\n",
        "  PLCX_W2 := TRUE AND Start;\n",
        "  PLCX_W3 := TRUE AND Motor;\n",
        "  PLCX_W4 := (PLCX_W2 OR PLCX_W3) AND NOT Stop;\n",
        "  PLCX_W5 := PLCX_W4;\n",
        "  Motor := PLCX_W5;\n",
        "END_PROGRAM\n",
    ),
    concat!(
        "FUNCTION_BLOCK Loop\n",
        "VAR\n",
        "  X : INT;\n",
        "END_VAR\n",
        "VAR_TEMP\n",
        "  PLCX_W2 : INT;\n",
        "  PLCX_W4_OUT : INT;\n",
        "  PLCX_W6 : INT;\n",
        "  PLCX_W8_OUT : BOOL;\n",
        "  PLCX_W9 : BOOL;\n",
        "  PLCX_N : DINT;\n",
        "END_VAR\n",
        "  PLCX_N := DINT#0;\n",
        "  WHILE PLCX_N < DINT#3 DO\n",
        "    CASE PLCX_N OF\n",
        "      0:\n",
        "        PLCX_N := DINT#1;\n",
        "      1:\n",
        "        PLCX_W2 := X;\n",
        "        PLCX_W4_OUT := PLCX_W2 + INT#1;\n",
        "        X := PLCX_W4_OUT;\n",
        "        PLCX_N := DINT#2;\n",
        "      2:\n",
        "        PLCX_W6 := X;\n",
        "        PLCX_W8_OUT := PLCX_W6 < INT#5;\n",
        "        PLCX_W9 := PLCX_W8_OUT;\n",
        "        PLCX_N := DINT#3;\n",
        "        IF PLCX_W9 THEN\n",
        "          PLCX_N := DINT#0;\n",
        "        END_IF;\n",
        "    END_CASE;\n",
        "  END_WHILE;\n",
        "END_FUNCTION_BLOCK\n",
        "PROGRAM Main\n",
        "VAR\n",
        "  Z : INT;\n",
        "  K : Loop;\n",
        "END_VAR\n",
        "  K();\n",
        "  Z := INT#1;\n",
        "END_PROGRAM\n",
    ),
    concat!(
        "PROGRAM Press\n",
        "VAR\n",
        "  Go AT %IX0.0 : BOOL;\n",
        "  Lamp AT %QX0.0 : BOOL;\n",
        "  T1 : TON;\n",
        "  C1 : CTU;\n",
        "END_VAR\n",
        "VAR RETAIN\n",
        "  Total : INT := INT#0;\n",
        "END_VAR\n",
        "VAR_TEMP\n",
        "  PLCX_W2 : BOOL;\n",
        "  PLCX_W3_Q : BOOL;\n",
        "  PLCX_W3_ET : TIME;\n",
        "  PLCX_W5 : BOOL;\n",
        "  PLCX_W7 : BOOL;\n",
        "  PLCX_W8_ENO : BOOL;\n",
        "  PLCX_W8_Q : BOOL;\n",
        "  PLCX_W8_CV : INT;\n",
        "END_VAR\n",
        "  PLCX_W2 := TRUE AND Go;\n",
        "  T1(IN := PLCX_W2, PT := T#100ms);\n",
        "  PLCX_W3_Q := T1.Q;\n",
        "  PLCX_W3_ET := T1.ET;\n",
        "  PLCX_W5 := PLCX_W3_Q;\n",
        "  Lamp := PLCX_W5;\n",
        "  PLCX_W7 := TRUE AND Lamp;\n",
        "  PLCX_W8_ENO := TRUE;\n",
        "  IF PLCX_W8_ENO THEN\n",
        "    C1(CU := PLCX_W7, PV := INT#3);\n",
        "  END_IF;\n",
        "  PLCX_W8_Q := C1.Q;\n",
        "  PLCX_W8_CV := C1.CV;\n",
        "  Total := PLCX_W8_CV;\n",
        "END_PROGRAM\n",
    ),
    "FUNCTION_BLOCK Inc\nVAR_IN_OUT\n  V : INT;\nEND_VAR\n  V := V + INT#1;\nEND_FUNCTION_BLOCK\nPROGRAM Main\nVAR\n  X : INT;\n  K : Inc;\nEND_VAR\n  K(V := X);\n  K(V := X);\nEND_PROGRAM\n",
];

#[test]
fn prints_texts(rt: HostRuntime) -> Result<(), Fail> {
    for (text, wanted) in PRINTED {
        let bytes = printed(rt.alloc(), text)?;
        assert_eq!(rt; bytes.as_slice(), wanted.as_bytes(), "of {text}");
    }
    Ok(())
}

#[test]
fn keeps_printed_texts(rt: HostRuntime) -> Result<(), Fail> {
    for text in KEPT {
        let bytes = printed(rt.alloc(), text)?;
        assert_eq!(rt; bytes.as_slice(), text.as_bytes(), "of {text}");
    }
    Ok(())
}

#[test]
fn reads_an_empty_unit_again(rt: HostRuntime) -> Result<(), Fail> {
    let nothing = Unit {
        pous: Items::new(rt.alloc()),
    };
    let again = read_printed(rt.alloc(), &nothing)?;
    assert!(rt; again.pous.is_empty());
    Ok(())
}

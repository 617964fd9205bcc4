//! Units that texts are.
use plcx_read::read;
use plcx_st::{Expr, Mark, Op, Stmt, TextBlock, TextClass, TextKind, Word};
use plcx_types::Ty;
use std::test::Fail;

const PROGRAM: &[u8] = b"program Main var retain x at %qw1 : int := int#7; end_var
case x - Y - z of 0: k(V := not a.b and f(INT#1 , TRUE)); 9999999999: end_case; end_program";

const HEADINGS: &[u8] = b"(* two *) FUNCTION_BLOCK Inc // one
VAR CONSTANT END_VAR VAR_INPUT END_VAR VAR_OUTPUT END_VAR VAR_TEMP END_VAR
VAR_IN_OUT V : INT; END_VAR END_FUNCTION_BLOCK PROGRAM Main END_PROGRAM";

fn is_word(word: &Word, name: &[u8], start: u64) -> bool {
    word.name.text() == name && word.span.start == start
}

fn is_name(expr: &Expr, name: &[u8], start: u64) -> bool {
    match expr {
        Expr::Name(word) => is_word(word, name, start),
        _ => false,
    }
}

fn is_number(expr: &Expr, ty: Ty, n: i128, start: u64) -> bool {
    match expr {
        Expr::Number(number) => number.ty == ty && number.n == n && number.span.start == start,
        _ => false,
    }
}

// x - Y - z, taken from the left
fn is_difference(expr: &Expr) -> bool {
    let Expr::Binary { op, left, right } = expr else {
        return false;
    };
    let Expr::Binary {
        op: inner,
        left: first,
        right: second,
    } = left.get()
    else {
        return false;
    };
    *op == Op::Minus
        && *inner == Op::Minus
        && is_name(first.get(), b"x", 63)
        && is_name(second.get(), b"Y", 67)
        && is_name(right.get(), b"z", 71)
}

// not a.b and f(INT#1, TRUE), where NOT binds tighter than AND
fn is_value(expr: &Expr) -> bool {
    let Expr::Binary { op, left, right } = expr else {
        return false;
    };
    let Expr::Not { operand, span } = left.get() else {
        return false;
    };
    let Expr::Member { instance, output } = operand.get() else {
        return false;
    };
    let Expr::Call { function, args } = right.get() else {
        return false;
    };
    let [first, second] = args.as_slice() else {
        return false;
    };
    *op == Op::And
        && span.start == 86
        && is_word(instance, b"a", 90)
        && is_word(output, b"b", 92)
        && is_word(function, b"f", 98)
        && is_number(first, Ty::Int, 1, 100)
        && is_number(second, Ty::Bool, 1, 108)
}

fn is_call(statement: &Stmt) -> bool {
    let Stmt::Call { instance, args } = statement else {
        return false;
    };
    let [arg] = args.as_slice() else {
        return false;
    };
    is_word(instance, b"k", 79) && is_word(&arg.formal, b"V", 81) && is_value(&arg.value)
}

fn is_case(statement: &Stmt) -> bool {
    let Stmt::Case { value, arms } = statement else {
        return false;
    };
    let [first, second] = arms.as_slice() else {
        return false;
    };
    let [call] = first.body.as_slice() else {
        return false;
    };
    is_difference(value)
        && first.label == 0
        && first.span.start == 76
        && is_call(call)
        && second.label == 2_147_483_648
        && second.span.start == 116
        && second.body.is_empty()
}

fn is_block(block: &TextBlock) -> bool {
    let [decl] = block.decls.as_slice() else {
        return false;
    };
    block.class == TextClass::Var
        && block.mark == Mark::Retain
        && is_word(&decl.name, b"x", 24)
        && matches!(&decl.address, Some(address) if address.as_slice() == b"%QW1".as_slice())
        && is_word(&decl.ty, b"int", 36)
        && matches!(&decl.initial, Some(number) if number.n == 7 && number.span.end == 48)
}

#[test]
fn reads_each_part(rt: HostRuntime) -> Result<(), Fail> {
    let unit = read(rt.alloc(), PROGRAM)?;
    assert_eq!(rt; unit.pous.len(), 1);
    let pou = &unit.pous.as_slice()[0];
    assert!(rt; pou.kind == TextKind::Program && is_word(&pou.name, b"Main", 8));
    assert!(rt; pou.blocks.len() == 1 && pou.blocks.as_slice().iter().all(is_block));
    assert!(rt; pou.body.len() == 1 && pou.body.as_slice().iter().all(is_case));
    Ok(())
}

#[test]
fn reads_each_heading(rt: HostRuntime) -> Result<(), Fail> {
    let unit = read(rt.alloc(), HEADINGS)?;
    let kinds = [TextKind::FunctionBlock, TextKind::Program];
    assert_eq!(rt; unit.pous.len(), 2);
    for (pou, kind) in unit.pous.as_slice().iter().zip(kinds) {
        assert!(rt; pou.kind == kind);
    }
    let classes = [
        (TextClass::Var, Mark::Constant),
        (TextClass::Input, Mark::Plain),
        (TextClass::Output, Mark::Plain),
        (TextClass::Temp, Mark::Plain),
        (TextClass::InOut, Mark::Plain),
    ];
    let first = &unit.pous.as_slice()[0];
    assert_eq!(rt; first.blocks.len(), 5);
    for (block, (class, mark)) in first.blocks.as_slice().iter().zip(classes) {
        assert!(rt; block.class == class && block.mark == mark);
    }
    Ok(())
}

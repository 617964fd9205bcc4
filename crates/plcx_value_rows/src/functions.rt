//! The standard functions: names, pins, and what they give.
use plcx_funcs::{Class, Func, apply, fits_signature, lookup, signature};
use plcx_types::{Fault, Ty, Val};
use std::alloc::Global;
use std::test::Fail;

#[test]
fn finds_functions(rt: HostRuntime) {
    assert_eq!(rt; lookup(b"Limit"), Some(Func::Limit));
    let to = Ty::Ulint;
    assert_eq!(rt;
        lookup(b"time_TO_ulint"),
        Some(Func::Conv { from: Ty::Time, to })
    );
    for word in [
        "",
        "INT_TO_INT",
        "INT_TO_",
        "ADDS",
        "INT_AS_DINT",
        "_TO_INT",
    ] {
        assert_eq!(rt; lookup(word.as_bytes()), None);
    }
}

#[test]
fn has_the_pins_of_a_choice(rt: HostRuntime) {
    assert_eq!(rt; signature(Func::Mux, 2), None);
    assert_eq!(rt; signature(Func::Mux, 64), None);
    if let Some(pins) = signature(Func::Mux, 3) {
        let second = pins.input(1);
        assert_eq!(rt; second.name.letters, "IN");
        assert_eq!(rt; second.name.number, Some(0));
        assert_eq!(rt; pins.input(0).class, Class::Lone);
        assert_eq!(rt; pins.out(), Class::Group);
        assert!(rt; pins.allowed.has(Ty::Time));
    } else {
        assert!(rt; false);
    }
}

fn given(
    func: Func,
    ty: Ty,
    args: &[(Ty, i128)],
    alloc: Global,
) -> Result<Result<(Ty, i128), Fault>, Fail> {
    let mut values = Vec::new(alloc);
    for (ty, n) in args {
        if let Some(value) = Val::new(*ty, *n) {
            values.push(value)?;
        }
    }
    if !fits_signature(func, ty, &values) {
        return Ok(Ok((Ty::Time, -1)));
    }
    Ok(apply(func, ty, &values).map(|value| (value.ty(), value.n())))
}

fn alike(func: Func, ty: Ty, numbers: &[i128], alloc: Global) -> Result<Result<i128, Fault>, Fail> {
    let mut args = Vec::new(alloc);
    for n in numbers {
        args.push((ty, *n))?;
    }
    Ok(given(func, ty, &args, alloc)?.map(|(_, n)| n))
}

const ALIKE: [(Func, Ty, &[i128], Result<i128, Fault>); 52] = [
    (Func::Add, Ty::Int, &[32_767, 0, -1], Ok(32_766)),
    (Func::Add, Ty::Int, &[32_767, 1, -1], Err(Fault::Range)),
    (
        Func::Add,
        Ty::Time,
        &[9_223_372_036_854_775_807, 0],
        Ok(9_223_372_036_854_775_807),
    ),
    (
        Func::Add,
        Ty::Time,
        &[9_223_372_036_854_775_807, 1],
        Err(Fault::Range),
    ),
    (Func::Mul, Ty::Usint, &[16, 15], Ok(240)),
    (Func::Mul, Ty::Usint, &[16, 16], Err(Fault::Range)),
    (
        Func::Mul,
        Ty::Ulint,
        &[18_446_744_073_709_551_615, 18_446_744_073_709_551_615],
        Err(Fault::Range),
    ),
    (Func::Sub, Ty::Sint, &[127, 127], Ok(0)),
    (Func::Sub, Ty::Uint, &[0, 1], Err(Fault::Range)),
    (Func::Sub, Ty::Time, &[5, 7], Ok(-2)),
    (Func::Div, Ty::Sint, &[-7, 2], Ok(-3)),
    (Func::Div, Ty::Sint, &[-128, -1], Err(Fault::Range)),
    (
        Func::Div,
        Ty::Ulint,
        &[18_446_744_073_709_551_615, 2],
        Ok(9_223_372_036_854_775_807),
    ),
    (Func::Div, Ty::Int, &[1, 0], Err(Fault::DivByZero)),
    (Func::Mod, Ty::Int, &[7, 0], Ok(0)),
    (Func::Mod, Ty::Int, &[-7, 3], Ok(-1)),
    (
        Func::Mod,
        Ty::Lint,
        &[-9_223_372_036_854_775_808, -1],
        Ok(0),
    ),
    (Func::Abs, Ty::Sint, &[-127], Ok(127)),
    (Func::Abs, Ty::Sint, &[-128], Err(Fault::Range)),
    (Func::Move, Ty::Bool, &[1], Ok(1)),
    (
        Func::Move,
        Ty::Lword,
        &[18_446_744_073_709_551_615],
        Ok(18_446_744_073_709_551_615),
    ),
    (Func::Move, Ty::Time, &[-5], Ok(-5)),
    (Func::And, Ty::Bool, &[1, 0, 1], Ok(0)),
    (Func::And, Ty::Byte, &[255, 15], Ok(15)),
    (Func::Or, Ty::Bool, &[0, 0, 1], Ok(1)),
    (Func::Or, Ty::Word, &[256, 1], Ok(257)),
    (Func::Xor, Ty::Bool, &[1, 1, 1], Ok(1)),
    (Func::Xor, Ty::Byte, &[5, 3, 1], Ok(7)),
    (Func::Not, Ty::Bool, &[1], Ok(0)),
    (Func::Not, Ty::Lword, &[0], Ok(18_446_744_073_709_551_615)),
    (Func::Max, Ty::Bool, &[0, 1], Ok(1)),
    (Func::Max, Ty::Int, &[-32_768, 32_767, 2], Ok(32_767)),
    (Func::Min, Ty::Byte, &[255, 0], Ok(0)),
    (Func::Min, Ty::Time, &[3, -7, 2], Ok(-7)),
    (Func::Limit, Ty::Int, &[1, 9, 5], Ok(5)),
    (Func::Limit, Ty::Int, &[9, 3, 5], Ok(5)),
    (Func::Limit, Ty::Time, &[-3, -9, 5], Ok(-3)),
    (Func::Mux, Ty::Int, &[0, 5, 6], Ok(5)),
    (Func::Mux, Ty::Int, &[2, 5, 6], Err(Fault::Range)),
    (Func::Mux, Ty::Int, &[-1, 5, 6], Err(Fault::Range)),
    (Func::Gt, Ty::Int, &[3, 2, 1], Ok(1)),
    (Func::Gt, Ty::Byte, &[3, 2, 2], Ok(0)),
    (Func::Ge, Ty::Time, &[3, 2, 2], Ok(1)),
    (Func::Ge, Ty::Int, &[3, 2, 4], Ok(0)),
    (Func::Eq, Ty::Bool, &[1, 1, 1], Ok(1)),
    (Func::Eq, Ty::Time, &[4, 4, 5], Ok(0)),
    (Func::Le, Ty::Int, &[1, 1, 2], Ok(1)),
    (Func::Le, Ty::Word, &[2, 1], Ok(0)),
    (Func::Lt, Ty::Bool, &[0, 1], Ok(1)),
    (Func::Lt, Ty::Int, &[1, 2, 2], Ok(0)),
    (Func::Ne, Ty::Byte, &[1, 2], Ok(1)),
    (Func::Ne, Ty::Time, &[2, 2], Ok(0)),
];

const MIXED: [(Func, Ty, &[(Ty, i128)], Result<i128, Fault>); 22] = [
    (Func::Shl, Ty::Byte, &[(Ty::Byte, 129), (Ty::Int, 1)], Ok(2)),
    (
        Func::Shl,
        Ty::Word,
        &[(Ty::Word, 65_535), (Ty::Usint, 16)],
        Ok(0),
    ),
    (
        Func::Shr,
        Ty::Byte,
        &[(Ty::Byte, 129), (Ty::Int, 1)],
        Ok(64),
    ),
    (Func::Shr, Ty::Byte, &[(Ty::Byte, 129), (Ty::Int, 8)], Ok(0)),
    (
        Func::Shr,
        Ty::Byte,
        &[(Ty::Byte, 129), (Ty::Int, -1)],
        Err(Fault::Range),
    ),
    (Func::Rol, Ty::Byte, &[(Ty::Byte, 129), (Ty::Int, 9)], Ok(3)),
    (
        Func::Rol,
        Ty::Lword,
        &[(Ty::Lword, 1), (Ty::Ulint, 64)],
        Ok(1),
    ),
    (
        Func::Ror,
        Ty::Byte,
        &[(Ty::Byte, 129), (Ty::Int, 1)],
        Ok(192),
    ),
    (
        Func::Ror,
        Ty::Dword,
        &[(Ty::Dword, 1), (Ty::Sint, -1)],
        Err(Fault::Range),
    ),
    (
        Func::Sel,
        Ty::Time,
        &[(Ty::Bool, 0), (Ty::Time, 4), (Ty::Time, 8)],
        Ok(4),
    ),
    (
        Func::Sel,
        Ty::Int,
        &[(Ty::Bool, 1), (Ty::Int, 4), (Ty::Int, 8)],
        Ok(8),
    ),
    (
        Func::Mux,
        Ty::Time,
        &[(Ty::Usint, 1), (Ty::Time, 5), (Ty::Time, 6)],
        Ok(6),
    ),
    (
        Func::Conv {
            from: Ty::Int,
            to: Ty::Bool,
        },
        Ty::Bool,
        &[(Ty::Int, -3)],
        Ok(1),
    ),
    (
        Func::Conv {
            from: Ty::Time,
            to: Ty::Bool,
        },
        Ty::Bool,
        &[(Ty::Time, 0)],
        Ok(0),
    ),
    (
        Func::Conv {
            from: Ty::Word,
            to: Ty::Byte,
        },
        Ty::Bool,
        &[(Ty::Word, 258)],
        Ok(2),
    ),
    (
        Func::Conv {
            from: Ty::Byte,
            to: Ty::Word,
        },
        Ty::Bool,
        &[(Ty::Byte, 255)],
        Ok(255),
    ),
    (
        Func::Conv {
            from: Ty::Lword,
            to: Ty::Lint,
        },
        Ty::Bool,
        &[(Ty::Lword, 18_446_744_073_709_551_615)],
        Err(Fault::Range),
    ),
    (
        Func::Conv {
            from: Ty::Int,
            to: Ty::Sint,
        },
        Ty::Bool,
        &[(Ty::Int, -128)],
        Ok(-128),
    ),
    (
        Func::Conv {
            from: Ty::Int,
            to: Ty::Sint,
        },
        Ty::Bool,
        &[(Ty::Int, 258)],
        Err(Fault::Range),
    ),
    (
        Func::Conv {
            from: Ty::Sint,
            to: Ty::Usint,
        },
        Ty::Bool,
        &[(Ty::Sint, -1)],
        Err(Fault::Range),
    ),
    (
        Func::Conv {
            from: Ty::Bool,
            to: Ty::Time,
        },
        Ty::Bool,
        &[(Ty::Bool, 1)],
        Ok(1),
    ),
    (
        Func::Conv {
            from: Ty::Time,
            to: Ty::Int,
        },
        Ty::Bool,
        &[(Ty::Time, 40_000)],
        Err(Fault::Range),
    ),
];

#[test]
fn functions_of_one_type(rt: HostRuntime) -> Result<(), Fail> {
    for (func, ty, numbers, expected) in ALIKE {
        let given = alike(func, ty, numbers, rt.alloc())?;
        assert!(rt; given == expected);
    }
    Ok(())
}

#[test]
fn functions_of_other_types(rt: HostRuntime) -> Result<(), Fail> {
    for (func, ty, args, expected) in MIXED {
        let given = given(func, ty, args, rt.alloc())?.map(|(_, n)| n);
        assert!(rt; given == expected);
    }
    Ok(())
}

#[test]
fn the_type_of_a_result(rt: HostRuntime) -> Result<(), Fail> {
    let compared = given(Func::Gt, Ty::Int, &[(Ty::Int, 2), (Ty::Int, 1)], rt.alloc())?;
    assert_eq!(rt; compared, Ok((Ty::Bool, 1)));
    Ok(())
}

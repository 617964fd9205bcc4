//! Desks and sinks that fail: what a call says of them, and what it has written by then.
use crate::calls::{Failing, NONE, called};
use crate::files::ONE_WIRE_TEXT;
use plcx_command::Status;
use plcx_steps::Silent;
use std::test::Fail;

/// Calls, and the files that they read, in this order.
const READS: [(&str, &str); 3] = [
    ("compile wire.xml", "wire.xml"),
    (
        "simulate kept-wire.xml wire.csv --retain kept.csv",
        "kept-wire.xml kept.csv wire.csv",
    ),
    (
        "migrate kept-wire.xml wire.xml --retain kept.csv",
        "kept-wire.xml wire.xml kept.csv",
    ),
];

#[test]
fn blames_the_file_that_cannot_be_read(rt: HostRuntime) -> Result<(), Fail> {
    let alloc = rt.alloc();
    for (words, names) in READS {
        let mut read = 0u64;
        for name in names.split_whitespace() {
            let line = format!(in alloc; "plcx: cannot read {name}\n")?;
            for _ in 0..2 {
                read = read.saturating_add(1);
                let left = called(alloc, words, Failing { read, ..NONE }, &mut Silent)?;
                assert!(rt;
                    left.is(Status::ReadFault, "", line.as_str()),
                    "{words}, at {read}"
                );
            }
        }
    }
    Ok(())
}

#[test]
fn blames_the_output_that_cannot_be_written(rt: HostRuntime) -> Result<(), Fail> {
    let alloc = rt.alloc();
    for words in [
        "compile wire.xml",
        "simulate kept-wire.xml wire.csv --retain kept.csv",
        "cover motor.xml motor.csv",
        "run motor.st motor.csv",
    ] {
        let left = called(alloc, words, Failing { out: 1, ..NONE }, &mut Silent)?;
        assert!(rt;
            left.is(Status::WriteFault, "", "plcx: cannot write\n"),
            "{words}"
        );
    }
    let failing = Failing { out: 2, ..NONE };
    let front = called(alloc, "compile wire.xml", failing, &mut Silent)?;
    assert!(rt;
        front.is(
            Status::WriteFault,
            &ONE_WIRE_TEXT[..64],
            "plcx: cannot write\n"
        )
    );
    Ok(())
}

#[test]
fn tells_a_line_that_cannot_be_written_by_its_status(rt: HostRuntime) -> Result<(), Fail> {
    let alloc = rt.alloc();
    let usage = called(alloc, "compile", Failing { err: 2, ..NONE }, &mut Silent)?;
    assert!(rt; usage.status == Status::WriteFault);
    assert!(rt; usage.out.is_empty());
    assert_eq!(rt; usage.err.len(), 64);
    let words = "simulate wire.xml wire.csv --program Nope";
    let program = called(alloc, words, Failing { err: 1, ..NONE }, &mut Silent)?;
    assert!(rt; program.is(Status::WriteFault, "", ""));
    Ok(())
}

//! What someone who listens is told: each output that a simulation evaluates, and nothing else.
use crate::calls::{Failing, NONE, called};
use crate::files::{MOTOR_COUNTS, MOTOR_TRACE, TASK_ROWS};
use plcx_command::Status;
use plcx_steps::LogWatch;
use plcx_types::Ty;
use std::alloc::Global;
use std::test::Fail;

/// The elements that a motor's three scans evaluate, each with its value.
const MOTOR_TOLD: &str = "2=1 3=0 4=1 5=1 2=0 3=1 4=1 5=1 2=0 3=1 4=0 5=0 ";

/// What a watch was told of BOOL at the first wires of the elements of the first POU.
fn told_by(alloc: Global, watch: &LogWatch) -> Result<String, Fail> {
    let mut all = String::new(alloc);
    for told in watch.list() {
        if told.pou == 0 && told.pin == 0 && told.value.ty() == Ty::Bool {
            let local_id = told.local_id;
            let n = told.value.n();
            all.push_str(format!(in alloc; "{local_id}={n} ")?.as_str())?;
        }
    }
    Ok(all)
}

#[test]
fn tells_what_a_simulation_evaluates(rt: HostRuntime) -> Result<(), Fail> {
    let alloc = rt.alloc();
    let words = "simulate motor.xml motor.csv";
    let mut watch = LogWatch::new(alloc, 20)?;
    let done = called(alloc, words, NONE, &mut watch)?;
    assert!(rt; done.is(Status::Done, MOTOR_TRACE, ""));
    assert_eq!(rt; watch.list().len(), 12);
    assert_eq!(rt; told_by(alloc, &watch)?.as_str(), MOTOR_TOLD);

    let mut unwritten = LogWatch::new(alloc, 20)?;
    let fault = called(alloc, words, Failing { out: 1, ..NONE }, &mut unwritten)?;
    assert!(rt; fault.is(Status::WriteFault, "", "plcx: cannot write\n"));
    assert_eq!(rt; unwritten.list(), watch.list());
    Ok(())
}

#[test]
fn tells_nothing_else(rt: HostRuntime) -> Result<(), Fail> {
    let alloc = rt.alloc();
    for (words, status, out, err) in [
        ("cover motor.xml motor.csv", Status::Done, MOTOR_COUNTS, ""),
        ("run motor.st motor.csv", Status::Done, MOTOR_TRACE, ""),
        ("cycle tasks.xml ticks.csv", Status::Done, TASK_ROWS, ""),
        (
            "simulate motor.xml broken.csv",
            Status::EventsBroken,
            "",
            "plcx: events row 1\n",
        ),
    ] {
        let mut watch = LogWatch::new(alloc, 20)?;
        let left = called(alloc, words, NONE, &mut watch)?;
        assert!(rt; left.is(status, out, err), "{words}");
        assert!(rt; watch.list().is_empty(), "{words}");
    }
    Ok(())
}

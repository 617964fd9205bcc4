//! The program: it makes the real files and streams, and does what the words say.
#![tactic(auto)]

use plcx_command::{Status, Words, plcx};
use plcx_io::{FileDesk, StdSink};
use plcx_steps::Silent;
use plcx_types::NoMemory;
use std::alloc::Global;
use std::env;
use std::io::ErrorKind;
use std::process::ExitCode;

/// The words behind the program's name; none where one of them is no text, since no command has such a word.
fn words_of(rt: &HostRuntime, alloc: Global) -> Result<Words, NoMemory> {
    let mut words = Words::new(alloc);
    let args = match env::args(rt) {
        Ok(args) => args,
        Err(error) if error.kind() == ErrorKind::OutOfMemory => return Err(NoMemory),
        Err(_) => return Ok(words),
    };
    for word in args.skip(1) {
        words.push(word.as_str())?;
    }
    Ok(words)
}

fn main(rt: HostRuntime) -> ExitCode {
    let alloc = rt.alloc();
    let status = match words_of(&rt, alloc) {
        Ok(words) => plcx(
            alloc,
            &words,
            &mut FileDesk::new(rt),
            &mut StdSink::out(rt),
            &mut StdSink::err(rt),
            &mut Silent,
        ),
        Err(NoMemory) => Status::NoMemory,
    };
    ExitCode::from(status.number())
}

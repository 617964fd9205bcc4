//! Calls over files in memory, and what they leave behind.
use crate::files::FILES;
use plcx_command::{Status, Words, plcx};
use plcx_io::{MemDesk, MemFile, MemSink};
use plcx_steps::Watch;
use std::alloc::Global;
use std::test::Fail;

/// What a call left behind.
#[derive(Drop)]
pub struct Left {
    pub status: Status,
    pub out: Vec<u8>,
    pub err: Vec<u8>,
}

impl Left {
    /// Whether it is this status, with exactly these bytes at either sink.
    pub fn is(&self, status: Status, out: &str, err: &str) -> bool {
        self.status == status
            && self.out.as_slice() == out.as_bytes()
            && self.err.as_slice() == err.as_bytes()
    }
}

/// The numbers of the calls that fail; 0 is none.
#[derive(Clone, Copy)]
pub struct Failing {
    pub read: u64,
    pub out: u64,
    pub err: u64,
}

pub const NONE: Failing = Failing {
    read: 0,
    out: 0,
    err: 0,
};

/// The words, over the desk and sinks that take 64 bytes a call, with someone who listens.
pub fn called<W: Watch>(
    alloc: Global,
    words: &str,
    failing: Failing,
    watch: &mut W,
) -> Result<Left, Fail> {
    let mut said = Words::new(alloc);
    for word in words.split_whitespace() {
        said.push(word)?;
    }
    let mut stored = Vec::new(alloc);
    for (name, text) in FILES {
        let name = String::from_str(alloc, name)?;
        stored.push(MemFile::new(name, text.as_bytes().to_vec(alloc)?))?;
    }
    let mut desk = MemDesk::new(stored, vec![in alloc; failing.read]?);
    let mut out = MemSink::new(alloc, 4096, 64, vec![in alloc; failing.out]?)?;
    let mut err = MemSink::new(alloc, 4096, 64, vec![in alloc; failing.err]?)?;
    let status = plcx(alloc, &said, &mut desk, &mut out, &mut err, watch);
    Ok(Left {
        status,
        out: out.bytes().to_vec(alloc)?,
        err: err.bytes().to_vec(alloc)?,
    })
}

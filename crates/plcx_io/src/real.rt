ghost use Rattle.std.specs.Prelude.{◌≡◌, ◌≤◌, ◌<◌, None, length, if◌then◌else◌, IfOk, OnErr};
ghost use Rattle.std.specs.Io.{ReadsAtMost};
ghost use Rattle.std.specs.Result.{is_err};
ghost use Rattle.plcx_io.specs.Counts.{raised, Rose};

use crate::desk::{Desk, Failed};
use crate::sink::Sink;
use std::fs::File;
use std::io;
use std::io::{Read, Seek, SeekFrom, Write};
use std::marker::Model;
use std::rt::{HostRuntime, Stderr, Stdout};

/// The files of the system. It tells no bytes; contracts see its one count, which serves every name.
#[derive(Drop)]
pub struct FileDesk {
    rt: HostRuntime,
    faults: u64,
}

impl Model for FileDesk {
    ghost use Rattle.std.specs.Prelude.{ℕ};

    ghost Value = { ℕ };

    ghost view = { λ desk. desk.faults };
}

impl FileDesk {
    /// No fault so far.
    pub fn new(rt: HostRuntime) -> FileDesk
        ensures { result ≡ 0 }
    {
        FileDesk { rt, faults: 0 }
    }
}

fn read_at(rt: &HostRuntime, name: &str, from: u64, buf: &mut [u8]) -> io::Result<usize> {
    let mut file = File::open(rt, name)?;
    file.seek(SeekFrom::Start(from))?;
    file.read(buf)
}

impl Desk for FileDesk {
    ghost file = { λ _ _. None };

    ghost faults = { λ desk _. desk };

    fn read(&mut self, name: &str, from: u64, buf: &mut [u8]) -> Result<usize, Failed>
        ensures bound { ReadsAtMost result buf.new }
        ensures later { self.old ≤ self.new }
        ensures cause { OnErr result (Rose self.old self.new) }
        ensures counted { self.new ≡ (if is_err result then raised self.old else self.old) }
    {
        match read_at(&self.rt, name, from, buf) {
            Ok(count) if count <= buf.len() => Ok(count),
            _ => {
                self.faults = self.faults.saturating_add(1);
                Err(Failed)
            }
        }
    }
}

/// A stream of the system. It tells no bytes; contracts see its count.
#[derive(Drop)]
pub struct StdSink<W: Write> {
    stream: W,
    faults: u64,
}

impl<W: Write> Model for StdSink<W> {
    ghost use Rattle.std.specs.Prelude.{ℕ};

    ghost Value = { ℕ };

    ghost view = { λ sink. sink.faults };
}

impl<W: Write> StdSink<W> {
    /// No fault so far.
    pub fn new(stream: W) -> StdSink<W>
        ensures { result ≡ 0 }
    {
        StdSink { stream, faults: 0 }
    }
}

impl StdSink<Stdout> {
    /// The standard output.
    pub fn out(rt: HostRuntime) -> StdSink<Stdout>
        ensures { result ≡ 0 }
    {
        StdSink::new(rt.stdout())
    }
}

impl StdSink<Stderr> {
    /// The standard error.
    pub fn err(rt: HostRuntime) -> StdSink<Stderr>
        ensures { result ≡ 0 }
    {
        StdSink::new(rt.stderr())
    }
}

impl<W: Write> Sink for StdSink<W> {
    ghost written = { λ _. None };

    ghost faults = { λ sink. sink };

    fn write(&mut self, piece: &[u8]) -> Result<usize, Failed>
        requires { 0 < length piece.now }
        ensures bound { IfOk result (λ count. (0 < count) × (count ≤ length piece.now)) }
        ensures later { self.old ≤ self.new }
        ensures cause { OnErr result (Rose self.old self.new) }
        ensures counted { self.new ≡ (if is_err result then raised self.old else self.old) }
    {
        match self.stream.write(piece) {
            Ok(count) if 0 < count && count <= piece.len() => Ok(count),
            _ => {
                self.faults = self.faults.saturating_add(1);
                Err(Failed)
            }
        }
    }
}

#[cfg(test)]
mod tests {
    use super::*;
    use crate::loading::{LoadError, load};
    use crate::putting::{PutError, put_all};
    use std::test::Fail;
    use std::{fs, process};

    const LONG: usize = 70_000;

    #[test]
    fn loads_what_was_put_into_a_file(rt: HostRuntime) -> Result<(), Fail> {
        let id = process::id(rt.process());
        let name = format!(in rt.alloc(); "/tmp/plcx_io_{id}")?;
        let bytes = vec![in rt.alloc(); 7; LONG]?;
        put_all(&mut StdSink::new(fs::create(&rt, name.as_str())?), &bytes)?;
        let mut desk = FileDesk::new(rt);
        let loaded = load(rt.alloc(), &mut desk, name.as_str(), LONG as u64);
        let over = load(rt.alloc(), &mut desk, name.as_str(), LONG as u64 - 1);
        fs::remove_file(&rt, name.as_str())?;
        let gone = load(rt.alloc(), &mut desk, name.as_str(), LONG as u64);
        assert!(rt; loaded? == bytes);
        assert!(rt; matches!(over, Err(LoadError::TooLong { .. })));
        assert!(rt; matches!(gone, Err(LoadError::Read)));
        assert_eq!(rt; desk.faults, 1);
        Ok(())
    }

    #[test]
    fn counts_a_write_that_takes_nothing(rt: HostRuntime) {
        let mut room = [0u8; 4];
        let mut sink = StdSink::new(room.as_mut_slice());
        assert_eq!(rt; put_all(&mut sink, b"12345"), Err(PutError::Write));
        assert_eq!(rt; sink.faults, 1);
        assert_eq!(rt; room, *b"1234");
    }

    #[test]
    fn writes_to_the_standard_streams(rt: HostRuntime) -> Result<(), Fail> {
        put_all(&mut StdSink::out(rt), b"out\n")?;
        put_all(&mut StdSink::err(rt), b"err\n")?;
        Ok(())
    }
}

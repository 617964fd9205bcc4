ghost use Rattle.std.specs.Prelude.{◌≤◌, OnOk, OnErr};
ghost use Rattle.std.specs.Io.KnownBytes.{Appends};
ghost use Rattle.plcx_io.specs.Counts.{Rose};
ghost use Rattle.plcx_io.specs.Told.{AppendsFront};

use crate::sink::Sink;
use thiserror::Error;

/// Why not all bytes went out.
#[derive(Clone, Copy, Debug, PartialEq, Eq, Error)]
pub enum PutError {
    #[error("the bytes cannot be written")]
    Write,
}

/// Writes all the bytes, in order.
pub fn put_all<S: Sink>(sink: &mut S, bytes: &[u8]) -> Result<(), PutError>
    ensures all { OnOk result (Appends (S.written sink.old) (S.written sink.new) bytes.now) }
    ensures front { OnErr result (AppendsFront (S.written sink.old) (S.written sink.new) bytes.now) }
    ensures later { S.faults sink.old ≤ S.faults sink.new }
    ensures cause { OnErr result (Rose (S.faults sink.old) (S.faults sink.new)) }
{
    let mut done = 0;
    while done < bytes.len() {
        match sink.write(&bytes[done..]) {
            Ok(count) => done += count,
            Err(_) => return Err(PutError::Write),
        }
    }
    Ok(())
}

#[cfg(test)]
mod tests {
    use super::*;
    use crate::memory_sink::MemSink;
    use std::test::Fail;

    const TEXT: &[u8] = b"0123456789";

    #[test]
    fn puts_all_bytes_in_steps(rt: HostRuntime) -> Result<(), Fail> {
        let mut sink = MemSink::new(rt.alloc(), 10, 3, Vec::new(rt.alloc()))?;
        assert_eq!(rt; sink.bytes(), b"".as_slice());
        put_all(&mut sink, TEXT)?;
        assert_eq!(rt; sink.bytes(), TEXT);
        Ok(())
    }

    #[test]
    fn stops_where_a_write_fails(rt: HostRuntime) -> Result<(), Fail> {
        for (failing, out) in [(1, 0), (2, 3), (3, 6), (4, 9), (5, 10)] {
            let mut sink = MemSink::new(rt.alloc(), 20, 3, vec![in rt.alloc(); failing]?)?;
            let put = put_all(&mut sink, TEXT);
            assert_eq!(rt; put.is_err(), out < 10, "at {failing}");
            assert_eq!(rt; sink.bytes(), &TEXT[..out], "at {failing}");
        }
        Ok(())
    }

    #[test]
    fn stops_where_no_room_is_left(rt: HostRuntime) -> Result<(), Fail> {
        let mut sink = MemSink::new(rt.alloc(), 7, 3, Vec::new(rt.alloc()))?;
        assert_eq!(rt; put_all(&mut sink, TEXT), Err(PutError::Write));
        assert_eq!(rt; sink.bytes(), &TEXT[..7]);
        Ok(())
    }
}

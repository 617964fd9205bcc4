//! An answer is written.
ghost use Rattle.plcx_command.specs.Answer.{refusal, output};
ghost use Rattle.plcx_command.specs.Ends.{Written, change};

use crate::status::{Refused, Status};
use plcx_io::{Sink, put_all};

/// Writes the line of a refusal.
pub fn refuse<O: Sink, E: Sink>(why: Refused, line: &[u8], out: &mut O, err: &mut E) -> Status
    ensures { Written (refusal why line.now) result
        (change (O.written out.old) (O.written out.new) (O.faults out.old) (O.faults out.new))
        (change (E.written err.old) (E.written err.new) (E.faults err.old) (E.faults err.new)) }
{
    match put_all(err, line) {
        Ok(()) => why.status(),
        Err(_) => Status::WriteFault,
    }
}

/// Writes the whole output.
pub fn put<O: Sink, E: Sink>(bytes: &[u8], out: &mut O, err: &mut E) -> Status
    ensures { Written (output bytes.now) result
        (change (O.written out.old) (O.written out.new) (O.faults out.old) (O.faults out.new))
        (change (E.written err.old) (E.written err.new) (E.faults err.old) (E.faults err.new)) }
{
    match put_all(out, bytes) {
        Ok(()) => Status::Done,
        Err(_) => {
            let _ = put_all(err, b"plcx: cannot write\n");
            Status::WriteFault
        }
    }
}

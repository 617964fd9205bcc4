ghost use Rattle.std.specs.Prelude.{◌≡◌, ◌≤◌, ◌<◌, [], length, Some, if◌then◌else◌, IfOk, OnErr};
ghost use Rattle.std.specs.Io.KnownBytes.{WriteAppends};
ghost use Rattle.std.specs.Result.{is_err};
ghost use Rattle.plcx_io.specs.Counts.{Rose};
ghost use Rattle.plcx_io.specs.Memory.{write_fails, write_takes, sink_after, sink_after_fault};

use crate::desk::Failed;
use crate::sink::Sink;
use plcx_types::NoMemory;
use std::alloc::Global;
use std::marker::Model;

/// A sink in memory. It tells its bytes.
#[derive(Debug, Drop)]
pub struct MemSink {
    taken: Vec<u8>,
    room: usize,
    step: usize,
    failing: Vec<u64>,
    calls: u64,
    faults: u64,
}

impl Model for MemSink {
    ghost use Rattle.std.specs.Prelude.{◌-◌, ◌≤◌, vec_len};
    ghost use Rattle.std.specs.Vec.{vec_capacity};
    ghost use Rattle.plcx_io.specs.Memory.{MemorySink};

    ghost Value = { MemorySink };

    ghost view = { λ sink. record {
      bytes = sink.taken.items;
      room = sink.room - vec_len sink.taken;
      step = sink.step;
      failing = sink.failing.items;
      calls = sink.calls;
      faults = sink.faults;
    } };

    ghost invariant = { λ sink. (vec_len sink.taken ≤ sink.room)
        × (sink.room ≤ vec_capacity sink.taken)
        × (1 ≤ sink.step) };
}

impl MemSink {
    /// Room for so many bytes, at most `step` in a write, and the numbers of the calls that fail, from 1.
    pub fn new(
        alloc: Global,
        room: usize,
        step: usize,
        failing: Vec<u64>,
    ) -> Result<MemSink, NoMemory>
        requires { 1 ≤ step }
        ensures { IfOk result (λ sink. sink ≡ record {
          bytes = [];
          room = room;
          step = step;
          failing = failing.items;
          calls = 0;
          faults = 0;
        }) }
    {
        Ok(MemSink {
            taken: Vec::with_capacity(alloc, room)?,
            room,
            step,
            failing,
            calls: 0,
            faults: 0,
        })
    }

    /// All that was written.
    pub fn bytes(&self) -> &[u8]
        ensures { result.now ≡ self.now.bytes }
    {
        self.taken.as_slice()
    }
}

impl Sink for MemSink {
    ghost written = { λ sink. Some sink.bytes };

    ghost faults = { λ sink. sink.faults };

    fn write(&mut self, piece: &[u8]) -> Result<usize, Failed>
        requires { 0 < length piece.now }
        ensures bound { IfOk result (λ count. (0 < count) × (count ≤ length piece.now)) }
        ensures bytes { WriteAppends (Some self.old.bytes) (Some self.new.bytes) result piece.now }
        ensures later { self.old.faults ≤ self.new.faults }
        ensures cause { OnErr result (Rose self.old.faults self.new.faults) }

        // Beyond any sink: which calls fail, how much the others take, and what is counted.
        ensures fails { is_err result ≡ write_fails self.old }
        ensures count { IfOk result (λ count. count ≡ write_takes self.old piece.now) }
        ensures after { self.new
            ≡ (if is_err result then sink_after_fault self.old else sink_after self.old piece.now) }
    {
        self.calls = self.calls.saturating_add(1);
        let room = self.room - self.taken.len();
        if room == 0 || self.failing.contains(&self.calls) {
            self.faults = self.faults.saturating_add(1);
            return Err(Failed);
        }
        let count = piece.len().min(self.step).min(room);
        self.taken.extend_from_slice(&piece[..count]).unwrap();
        Ok(count)
    }
}

//! Sides: programs between two events.
ghost use Rattle.std.specs.Prelude.{◌≡◌, ◌≢◌, ◌<◌, ℕ, List, Some, IfOk, length, slice_get, nat_abs};
ghost use Rattle.plcx_types.specs.Lists.{Each};
ghost use Rattle.plcx_types.specs.Range.{InRange};
ghost use Rattle.plcx_types.specs.Value.{Value};
ghost use Rattle.plcx_meaning.specs.Layout.{Warm, Cold};
ghost use Rattle.plcx_meaning.specs.Run.{Machine, Again};
ghost use Rattle.plcx_meaning.specs.Run.{Side as Meant};
ghost use Rattle.plcx_state.specs.Layouts.{Laid, all_meant};
ghost use Rattle.plcx_state.specs.Retains.{Pairwise};
ghost use Rattle.plcx_state.specs.Lines.{retained_lines};
ghost use Rattle.plcx_scan.specs.Events.{IsNext, IsInput, scan_of};
ghost use Rattle.plcx_scan.specs.Sides.{Tells, Brings, Shows, HasTypeOf};

use crate::event::Input;
use plcx_state::Layout;
use plcx_types::{Fault, NoMemory, Val};
use std::alloc::Global;

/// What is told of an event.
#[derive(Clone, Copy, Debug, PartialEq, Eq)]
pub enum Outcome {
    /// The scan went to its end.
    Ended,
    /// A fault ended the scan, and halted the side.
    Fault(Fault),
    /// The budget of turns ended the scan, and halted the side.
    OutOfTurns,
    /// The side is halted, and the scan changed nothing.
    Halted,
    /// The event was a restart.
    Restarted,
}

/// A program between two events, which has one layout for its whole life.
pub trait Side {
    /// What the meaning keeps from one event to the next.
    ghost State: { Type 0 };

    /// The machine of the meaning: what a scan and a restart do, and what is shown.
    ghost machine: { Self → Machine State };

    /// It stands for this side of the machine.
    ghost stands_for: { Self → Meant State → Type 0 };

    /// Its leaves and its memories.
    ghost laid: { Self → Laid };

    /// The values of its leaves, by number.
    ghost held: { Self → List Value };

    /// The time of the last scan, 0 before the first.
    ghost last: { Self → ℕ };

    /// Its layout.
    fn layout(&self) -> &Layout
        ensures laid { result.now ≡ laid self.now }
        ensures meaning { all_meant (laid self.now).leaves ≡ (machine self.now).layout };

    /// The value of a leaf.
    fn value(&self, leaf: u32) -> Val
        requires { leaf < length (laid self.now).leaves }
        ensures value { slice_get (held self.now) leaf ≡ Some result }
        ensures range { InRange result.ty result.n };

    /// The values of all leaves, by number.
    fn values(&self) -> &[Val]
        ensures held { result.now ≡ held self.now }
        ensures typed { Pairwise HasTypeOf (laid self.now).leaves result.now }
        ensures meaning { Shows (machine self.now) (laid self.now).leaves (stands_for self.now) result.now };

    /// A scan at a time with its inputs, which are written in order. It may spend so many turns.
    fn scan(&mut self, time: i64, inputs: &[Input], turns: u64) -> Outcome
        requires time { IsNext (last self.old) time }
        requires inputs { Each (IsInput (laid self.old).leaves) inputs.now }
        ensures outcome { Tells (machine self.old) turns (scan_of (laid self.old).leaves time inputs.now) (stands_for self.old) result }
        ensures meaning { Brings (machine self.old) turns (scan_of (laid self.old).leaves time inputs.now) (stands_for self.old) (stands_for self.new) }
        ensures machine { machine self.new ≡ machine self.old }
        ensures laid { laid self.new ≡ laid self.old }
        ensures time { last self.new ≡ nat_abs time };

    /// A warm restart: what isn't retained begins again.
    fn warm(&mut self)
        ensures meaning { Brings (machine self.old) 0 (Again Warm) (stands_for self.old) (stands_for self.new) }
        ensures machine { machine self.new ≡ machine self.old }
        ensures laid { laid self.new ≡ laid self.old }
        ensures time { last self.new ≡ last self.old };

    /// A cold restart: all begins again.
    fn cold(&mut self)
        ensures meaning { Brings (machine self.old) 0 (Again Cold) (stands_for self.old) (stands_for self.new) }
        ensures machine { machine self.new ≡ machine self.old }
        ensures laid { laid self.new ≡ laid self.old }
        ensures time { last self.new ≡ last self.old };

    /// The retained lines of its values.
    fn retained_text(&self, alloc: Global) -> Result<Vec<u8>, NoMemory>
        ensures { IfOk result (λ text. text.items ≡ retained_lines (laid self.now).leaves (held self.now)) };
}

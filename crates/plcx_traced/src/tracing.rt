//! The trace of a side over the events of a file.
ghost use Rattle.std.specs.Prelude.{◌≡◌, ◌≤◌, ℕ, List, Option, IfOk, IfErr, OnOk};
ghost use Rattle.plcx_io.specs.Counts.{Rose};
ghost use Rattle.plcx_types.specs.Lists.{Each};
ghost use Rattle.plcx_state.specs.Tables.{HasPlainNames};
ghost use Rattle.plcx_traced.specs.Files.{IsLoaded, IsTraceOf, WhyNotFollowed, Stops};

use crate::error::RunError;
use plcx_io::{Desk, LoadError, load};
use plcx_scan::{EventError, Side, read_events, run_to_text};
use plcx_types::limits::MAX_FILE_BYTES;
use std::alloc::Global;

/// The trace over the events of a file.
fn trace_in<S: Side>(
    alloc: Global,
    side: &mut S,
    bytes: &[u8],
    turns: u64,
) -> Result<Vec<u8>, RunError>
    requires { S.last side.old ≡ 0 }
    ensures ok { IfOk result (λ text. (told : Option (List ℕ)) → IsLoaded told bytes.now
        → IsTraceOf told (S.machine side.old) turns (S.stands_for side.old) (S.stands_for side.new) text.items) }
    ensures plain { OnOk result (Each HasPlainNames (S.laid side.old).leaves) }
    ensures err { IfErr result (λ e. (told : Option (List ℕ)) → IsLoaded told bytes.now
        → WhyNotFollowed told ⊥ (S.machine side.old).layout e) }
    ensures stops { IfErr result (λ e. (told : Option (List ℕ)) → IsLoaded told bytes.now
        → Stops told (S.machine side.old) turns (S.stands_for side.old) (S.stands_for side.new) (side.new ≡ side.old) e) }
{
    match read_events(alloc, side.layout(), bytes) {
        Ok(events) => Ok(run_to_text(alloc, side, &events, turns)?),
        Err(EventError::Row { row }) => Err(RunError::Row { row }),
        Err(EventError::NoMemory) => Err(RunError::NoMemory),
    }
}

/// The trace of a side, before its first event, over the events of a file.
pub fn traced<D: Desk, S: Side>(
    alloc: Global,
    desk: &mut D,
    side: &mut S,
    events: &str,
    turns: u64,
) -> Result<Vec<u8>, RunError>
    requires { S.last side.old ≡ 0 }
    ensures ok { IfOk result (λ text.
        IsTraceOf (D.file desk.old events.now) (S.machine side.old) turns (S.stands_for side.old) (S.stands_for side.new) text.items) }
    ensures plain { OnOk result (Each HasPlainNames (S.laid side.old).leaves) }
    ensures err { IfErr result (WhyNotFollowed (D.file desk.old events.now)
        (Rose (D.faults desk.old events.now) (D.faults desk.new events.now)) (S.machine side.old).layout) }
    ensures stops { IfErr result (Stops (D.file desk.old events.now) (S.machine side.old) turns
        (S.stands_for side.old) (S.stands_for side.new) (side.new ≡ side.old)) }
    ensures files { (other : List ℕ) → D.file desk.new other ≡ D.file desk.old other }
    ensures later { (other : List ℕ) → D.faults desk.old other ≤ D.faults desk.new other }
{
    match load(alloc, desk, events, MAX_FILE_BYTES) {
        Ok(bytes) => trace_in(alloc, side, &bytes, turns),
        Err(LoadError::Read) => Err(RunError::EventsRead),
        Err(LoadError::TooLong { limit: _ }) => Err(RunError::Row { row: 0 }),
        Err(LoadError::NoMemory) => Err(RunError::NoMemory),
    }
}

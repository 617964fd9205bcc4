//! Runs: a side over a list of events.
ghost use Rattle.std.specs.Prelude.{◌≡◌, IfOk, OnOk, OnErr};
ghost use Rattle.plcx_types.specs.Lists.{Each};
ghost use Rattle.plcx_state.specs.Layouts.{all_meant};
ghost use Rattle.plcx_scan.specs.Events.{meant_event, meant_events, CanBeNext, CanFollow, last_after, last_at_end};
ghost use Rattle.plcx_scan.specs.Entries.{event_of};
ghost use Rattle.plcx_scan.specs.Sides.{Tells, Brings, BringsAll, BringsSome, HasLine, HasLines};
ghost use Rattle.plcx_scan.specs.Rows.{shown_numbers, meant_line, meant_lines, IsRowOf};

use crate::event::{Entry, Events, Input};
use crate::row::{Shown, Trace, TraceRow};
use crate::side::{Outcome, Side};
use plcx_types::NoMemory;
use sqlite_items::Items;
use std::alloc::Global;

/// One event, a scan with the whole budget of turns.
fn step<S: Side>(side: &mut S, entry: Entry, inputs: &[Input], turns: u64) -> Outcome
    requires { CanBeNext (S.laid side.old).leaves (S.last side.old) (event_of entry inputs.now) }
    ensures outcome { Tells (S.machine side.old) turns (meant_event (S.laid side.old).leaves (event_of entry inputs.now)) (S.stands_for side.old) result }
    ensures meaning { Brings (S.machine side.old) turns (meant_event (S.laid side.old).leaves (event_of entry inputs.now)) (S.stands_for side.old) (S.stands_for side.new) }
    ensures machine { S.machine side.new ≡ S.machine side.old }
    ensures laid { S.laid side.new ≡ S.laid side.old }
    ensures time { S.last side.new ≡ last_after (S.last side.old) (event_of entry inputs.now) }
{
    match entry {
        Entry::Scan { time, count: _ } => side.scan(time, inputs, turns),
        Entry::Warm => {
            side.warm();
            Outcome::Restarted
        }
        Entry::Cold => {
            side.cold();
            Outcome::Restarted
        }
    }
}

/// One event, and the row of what it tells. Where memory is wanted for the row, the event is over all the same.
fn row_after<S: Side>(
    alloc: Global,
    side: &mut S,
    shown: &Shown,
    entry: Entry,
    inputs: &[Input],
    turns: u64,
) -> Result<TraceRow, NoMemory>
    requires event { CanBeNext (S.laid side.old).leaves (S.last side.old) (event_of entry inputs.now) }
    requires shown { shown.now ≡ shown_numbers (S.laid side.old).leaves }
    requires layout { all_meant (S.laid side.old).leaves ≡ (S.machine side.old).layout }
    ensures line { IfOk result (λ row. HasLine (S.machine side.old) turns (meant_event (S.laid side.old).leaves (event_of entry inputs.now)) (S.stands_for side.old) (meant_line row)) }
    ensures row { IfOk result (IsRowOf (S.laid side.old).leaves) }
    ensures meaning { Brings (S.machine side.old) turns (meant_event (S.laid side.old).leaves (event_of entry inputs.now)) (S.stands_for side.old) (S.stands_for side.new) }
    ensures machine { S.machine side.new ≡ S.machine side.old }
    ensures laid { S.laid side.new ≡ S.laid side.old }
    ensures time { S.last side.new ≡ last_after (S.last side.old) (event_of entry inputs.now) }
{
    let outcome = step(side, entry, inputs, turns);
    Ok(shown.row(alloc, outcome, side.values())?)
}

/// Each event in turn, with the whole budget of turns for each scan, and a row for each.
pub fn run<S: Side>(
    alloc: Global,
    side: &mut S,
    events: &Events,
    turns: u64,
) -> Result<Trace, NoMemory>
    requires { CanFollow (S.laid side.old).leaves (S.last side.old) events.now }
    ensures lines { IfOk result (λ trace. HasLines (S.machine side.old) turns (meant_events (S.laid side.old).leaves events.now) (S.stands_for side.old) (meant_lines trace.rows)) }
    ensures rows { IfOk result (λ trace. Each (IsRowOf (S.laid side.old).leaves) trace.rows) }
    ensures meaning { OnOk result (BringsAll (S.machine side.old) turns (meant_events (S.laid side.old).leaves events.now) (S.stands_for side.old) (S.stands_for side.new)) }
    ensures stopped { OnErr result (BringsSome (S.machine side.old) turns (meant_events (S.laid side.old).leaves events.now) (S.stands_for side.old) (S.stands_for side.new)) }
    ensures machine { S.machine side.new ≡ S.machine side.old }
    ensures laid { S.laid side.new ≡ S.laid side.old }
    ensures time { OnOk result (S.last side.new ≡ last_at_end (S.last side.old) events.now) }
{
    let shown = Shown::of(alloc, side.layout())?;
    let mut rows = Vec::new(alloc);
    let mut rest = events.inputs.as_slice();
    for entry in &events.entries {
        let (inputs, others) = rest.split_at(entry.count());
        rest = others;
        let row = row_after(alloc, side, &shown, *entry, inputs, turns)?;
        rows.push(row)?;
    }
    Ok(Trace {
        rows: Items::from_vec(rows),
    })
}

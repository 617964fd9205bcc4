//! Runs of a side whose wires are counted.
ghost use Rattle.std.specs.Prelude.{◌≡◌, IfOk, OnOk, OnErr};
ghost use Rattle.plcx_types.specs.Lists.{Each};
ghost use Rattle.plcx_scan.specs.Events.{meant_events, CanFollow, last_at_end};
ghost use Rattle.plcx_scan.specs.Rows.{meant_lines, IsRowOf};
ghost use Rattle.plcx_scan.specs.Sides.{HasLines};
ghost use Rattle.plcx_eval.specs.Sides.{machine_of, laid_of, last_of, StandsFor};
ghost use Rattle.plcx_cover.specs.Covers.{Covers, CoversSome, Grows, GrowsSome};

use crate::counting::Cover;
use plcx_eval::{DiagramSide, Watched, watch_is_told};
use plcx_scan::{Events, Trace, run};
use plcx_types::NoMemory;
use std::alloc::Global;

/// Each event in turn, as `run` has it, where a cover listens to the side: each output that is heard is counted. Where
/// memory is wanted, the side and the counts are those over the same events, which came before.
pub fn run_listened(
    alloc: Global,
    side: &mut Watched<'_, '_, Cover>,
    events: &Events,
    turns: u64,
) -> Result<Trace, NoMemory>
    requires { CanFollow (laid_of side.old.side.now).leaves (last_of side.old.side.now) events.now }
    ensures same_side { side.new.side.ghost_name ≡ side.old.side.ghost_name }
    ensures same_cover { side.new.watch.ghost_name ≡ side.old.watch.ghost_name }
    ensures lines { IfOk result (λ trace. HasLines (machine_of side.old.side.now) turns
        (meant_events (laid_of side.old.side.now).leaves events.now) (StandsFor side.old.side.now) (meant_lines trace.rows)) }
    ensures rows { IfOk result (λ trace. Each (IsRowOf (laid_of side.old.side.now).leaves) trace.rows) }
    ensures covers { OnOk result (Covers turns (meant_events (laid_of side.old.side.now).leaves events.now)
        side.old.side.now side.new.side.now side.old.watch.now side.new.watch.now) }
    ensures stopped { OnErr result (CoversSome turns (meant_events (laid_of side.old.side.now).leaves events.now)
        side.old.side.now side.new.side.now side.old.watch.now side.new.watch.now) }
    ensures machine { machine_of side.new.side.now ≡ machine_of side.old.side.now }
    ensures laid { laid_of side.new.side.now ≡ laid_of side.old.side.now }
    ensures time { OnOk result (last_of side.new.side.now ≡ last_at_end (last_of side.old.side.now) events.now) }
{
    watch_is_told::<Cover>();
    run(alloc, side, events, turns)
}

/// Each event in turn, as `run` has it, and each output that is heard of the scans is counted. Where memory is wanted,
/// the counts are those over the events that came before.
pub fn run_covered(
    alloc: Global,
    side: &mut DiagramSide<'_>,
    events: &Events,
    turns: u64,
    cover: &mut Cover,
) -> Result<Trace, NoMemory>
    requires { CanFollow (laid_of side.old).leaves (last_of side.old) events.now }
    ensures lines { IfOk result (λ trace. HasLines (machine_of side.old) turns (meant_events (laid_of side.old).leaves events.now) (StandsFor side.old) (meant_lines trace.rows)) }
    ensures rows { IfOk result (λ trace. Each (IsRowOf (laid_of side.old).leaves) trace.rows) }
    ensures counts { OnOk result (Grows turns (meant_events (laid_of side.old).leaves events.now) side.old cover.old cover.new) }
    ensures stopped { OnErr result (GrowsSome turns (meant_events (laid_of side.old).leaves events.now) side.old cover.old cover.new) }
{
    let mut watched = Watched::new(side, cover);
    run_listened(alloc, &mut watched, events, turns)
}

//! The scans of a diagram, to which someone listens.
ghost use Rattle.std.specs.Prelude.{◌≡◌};
ghost use Rattle.std.specs.List.{fold};
ghost use Rattle.plcx_meaning.specs.Evaluate.{DiagramState};
ghost use Rattle.plcx_meaning.specs.Run.{Side as Meant};
ghost use Rattle.plcx_meaning.specs.Watch.{heard_over};
ghost use Rattle.plcx_eval.specs.Sides.{diagrams, program as program_of, machine_of, last_of, StandsFor};
ghost use Rattle.plcx_bench.specs.Summary.{turns, ten_scans, sum_after};

use crate::scanning::sum_of_scans;
use plcx_eval::{DiagramSide, Watched, watch_is_told, watched_runs};
use plcx_steps::Watch;

/// The sum behind the scans of a diagram to which someone listens.
fn sum_listened<W: Watch>(side: &mut Watched<'_, '_, W>) -> i128
    requires time { last_of side.old.side.now ≡ 0 }
    requires stands { (g : Meant DiagramState) × StandsFor side.old.side.now g }
    ensures same_watch { side.new.watch.ghost_name ≡ side.old.watch.ghost_name }
    ensures sum { (g : Meant DiagramState) → StandsFor side.old.side.now g → result ≡ sum_after (machine_of side.old.side.now) ten_scans g }
    ensures heard { (g : Meant DiagramState) → StandsFor side.old.side.now g
        → side.new.watch.now ≡ fold W.told side.old.watch.now (heard_over (diagrams side.old.side.now) (program_of side.old.side.now) turns ten_scans g) }
{
    watched_runs::<W>();
    watch_is_told::<W>();
    sum_of_scans(side)
}

/// The sum of all variables of a diagram behind ten scans. The watch is told what is heard of them.
pub(crate) fn sum_of_diagram<W: Watch>(side: &mut DiagramSide<'_>, watch: &mut W) -> i128
    requires time { last_of side.old ≡ 0 }
    requires stands { (g : Meant DiagramState) × StandsFor side.old g }
    ensures sum { (g : Meant DiagramState) → StandsFor side.old g → result ≡ sum_after (machine_of side.old) ten_scans g }
    ensures heard { (g : Meant DiagramState) → StandsFor side.old g
        → watch.new ≡ fold W.told watch.old (heard_over (diagrams side.old) (program_of side.old) turns ten_scans g) }
{
    let mut watched = Watched::new(side, watch);
    sum_listened(&mut watched)
}

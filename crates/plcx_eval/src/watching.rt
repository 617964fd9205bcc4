//! A side to whose scans someone listens.
ghost use Rattle.std.specs.Prelude.{◌≡◌};
ghost use Rattle.plcx_eval.specs.Watching.{WatchedRuns, HeardInOrder};
ghost use Rattle.plcx_eval.specs.Listening.{WatchIsTold};

use crate::side::DiagramSide;
use plcx_scan::{Input, Outcome, Side};
use plcx_state::Layout;
use plcx_steps::Watch;
use plcx_types::{NoMemory, Val};
use std::alloc::Global;

/// A side, and someone who listens to its scans.
#[derive(Drop)]
pub struct Watched<'a, 's, W> {
    side: &'s mut DiagramSide<'a>,
    watch: &'s mut W,
}

impl<'a, 's, W> Watched<'a, 's, W> {
    /// The side, to whose scans someone listens from now on.
    pub fn new(side: &'s mut DiagramSide<'a>, watch: &'s mut W) -> Watched<'a, 's, W>
        ensures side { result.side.now ≡ side.old }
        ensures watch { result.watch.now ≡ watch.old }
        ensures same_side { result.side.ghost_name ≡ side.entry.ghost_name }
        ensures same_watch { result.watch.ghost_name ≡ watch.entry.ghost_name }
    {
        Watched { side, watch }
    }
}

impl<W: Watch> Side for Watched<'_, '_, W> {
    ghost use Rattle.std.specs.Borrow.{MutBor};
    ghost use Rattle.plcx_eval.specs.Watching.{Listened};
    ghost use Rattle.plcx_eval.specs.Listening.{watched_machine, ListensTo, watched_laid, watched_held, watched_last};

    ghost State = { Listened (MutBor W) };

    ghost machine = { watched_machine W.told };

    ghost stands_for = { ListensTo };

    ghost laid = { watched_laid };

    ghost held = { watched_held };

    ghost last = { watched_last };

    fn layout(&self) -> &Layout {
        self.side.layout()
    }

    fn value(&self, leaf: u32) -> Val {
        self.side.value(leaf)
    }

    fn values(&self) -> &[Val] {
        self.side.values()
    }

    fn scan(&mut self, time: i64, inputs: &[Input], turns: u64) -> Outcome {
        self.side.scan_watched(time, inputs, turns, self.watch)
    }

    fn warm(&mut self) {
        self.side.warm();
    }

    fn cold(&mut self) {
        self.side.cold();
    }

    fn retained_text(&self, alloc: Global) -> Result<Vec<u8>, NoMemory> {
        self.side.retained_text(alloc)
    }
}

/// Whoever listens changes nothing of what a diagram tells and shows over events, and hears what is heard of it.
pub fn watched_runs<W: Watch>()
    ensures { WatchedRuns W.told }
{}

/// What is heard of a front of events comes first in what is heard of them all.
pub fn heard_in_order()
    ensures { HeardInOrder }
{}

/// A watch was told what is heard over the events that its side has gone through.
pub fn watch_is_told<W: Watch>()
    ensures { WatchIsTold W.told }
{}

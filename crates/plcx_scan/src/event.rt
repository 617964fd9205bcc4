//! Events: scans with their inputs, and restarts.
ghost use Rattle.std.specs.Prelude.{◌≡◌, List};
ghost use Rattle.plcx_scan.specs.declared.event.Input.{Input};
ghost use Rattle.plcx_scan.specs.Events.{last_after};
ghost use Rattle.plcx_scan.specs.Entries.{count_of, event_of};

use plcx_types::Val;
use std::marker::Model;

/// A value for the leaf of this number, before a scan.
#[derive(Clone, Copy, Debug)]
pub struct Input {
    pub leaf: u32,
    pub value: Val,
}

/// An event without its inputs: a scan at a time in milliseconds with so many inputs, or a restart.
#[derive(Clone, Copy, Debug)]
pub(crate) enum Entry {
    Scan { time: i64, count: usize },
    Warm,
    Cold,
}

impl Entry {
    /// How many inputs it has.
    pub(crate) fn count(self) -> usize
        ensures { result ≡ count_of self }
    {
        match self {
            Entry::Scan { time: _, count } => count,
            Entry::Warm | Entry::Cold => 0,
        }
    }

    /// The time of the last scan after it.
    pub(crate) fn last_after(self, last: u64) -> u64
        ensures { (inputs : List Input) → result ≡ last_after last (event_of self inputs) }
    {
        match self {
            Entry::Scan { time, count: _ } => time.unsigned_abs(),
            Entry::Warm | Entry::Cold => last,
        }
    }
}

/// Scans with their inputs and restarts, in order. All inputs stand in one list, those of a scan behind those of the scans before it.
#[derive(Debug, Drop)]
pub struct Events {
    pub(crate) entries: Vec<Entry>,
    pub(crate) inputs: Vec<Input>,
}

impl Model for Events {
    ghost use Rattle.std.specs.Prelude.{◌≡◌, List, length};
    ghost use Rattle.plcx_scan.specs.Events.{Event};
    ghost use Rattle.plcx_scan.specs.Entries.{count_all, events_of};

    ghost Value = { List Event };

    ghost view = { λ e. events_of e.entries.items e.inputs.items };

    ghost invariant = { λ e. count_all e.entries.items ≡ length e.inputs.items };
}

//! The state of a block: its leaves, and one call.
ghost use Rattle.std.specs.Prelude.{◌≡◌, ◌<◌, Some, IfSome, slice_get, slice_set, length};
ghost use Rattle.plcx_std.specs.State.{kind_of, default_state, values, stepped};

use crate::counter::{ctd, ctu, ctud};
use crate::edge::{f_trig, r_trig};
use crate::kind::StdKind;
use crate::latch::{rs, sr};
use crate::leaves::{DownCounter, Edge, Latch, OnDelay, Timer, UpCounter, UpDownCounter};
use crate::on_delay::ton;
use crate::timer::{tof, tp};
use plcx_types::Val;

/// The leaves of one block.
#[derive(Clone, Copy, Debug, PartialEq, Eq)]
pub enum StdState {
    Ton(OnDelay),
    Tof(Timer),
    Tp(Timer),
    Ctu(UpCounter),
    Ctd(DownCounter),
    Ctud(UpDownCounter),
    Sr(Latch),
    Rs(Latch),
    RTrig(Edge),
    FTrig(Edge),
}

const DEFAULT_ON_DELAY: OnDelay = OnDelay {
    input: false,
    preset: 0,
    output: false,
    elapsed: 0,
    running: false,
    start: 0,
};

const DEFAULT_TIMER: Timer = Timer {
    input: false,
    preset: 0,
    output: false,
    elapsed: 0,
    memory: false,
    running: false,
    start: 0,
};

const DEFAULT_UP: UpCounter = UpCounter {
    up: false,
    reset: false,
    preset: 0,
    output: false,
    count: 0,
    memory: false,
};

const DEFAULT_DOWN: DownCounter = DownCounter {
    down: false,
    load: false,
    preset: 0,
    output: false,
    count: 0,
    memory: false,
};

const DEFAULT_UP_DOWN: UpDownCounter = UpDownCounter {
    up: false,
    down: false,
    reset: false,
    load: false,
    preset: 0,
    output_up: false,
    output_down: false,
    count: 0,
    memory_up: false,
    memory_down: false,
};

const DEFAULT_LATCH: Latch = Latch {
    set: false,
    reset: false,
    output: false,
};

const DEFAULT_EDGE: Edge = Edge {
    clock: false,
    output: false,
    memory: false,
};

impl StdState {
    /// The state of that block with all leaves at default.
    pub fn new(k: StdKind) -> StdState
        ensures { result ≡ default_state k }
    {
        match k {
            StdKind::Ton => StdState::Ton(DEFAULT_ON_DELAY),
            StdKind::Tof => StdState::Tof(DEFAULT_TIMER),
            StdKind::Tp => StdState::Tp(DEFAULT_TIMER),
            StdKind::Ctu => StdState::Ctu(DEFAULT_UP),
            StdKind::Ctd => StdState::Ctd(DEFAULT_DOWN),
            StdKind::Ctud => StdState::Ctud(DEFAULT_UP_DOWN),
            StdKind::Sr => StdState::Sr(DEFAULT_LATCH),
            StdKind::Rs => StdState::Rs(DEFAULT_LATCH),
            StdKind::RTrig => StdState::RTrig(DEFAULT_EDGE),
            StdKind::FTrig => StdState::FTrig(DEFAULT_EDGE),
        }
    }

    /// The block whose leaves these are.
    pub fn kind(&self) -> StdKind
        ensures { result ≡ kind_of self.now }
    {
        match *self {
            StdState::Ton(_) => StdKind::Ton,
            StdState::Tof(_) => StdKind::Tof,
            StdState::Tp(_) => StdKind::Tp,
            StdState::Ctu(_) => StdKind::Ctu,
            StdState::Ctd(_) => StdKind::Ctd,
            StdState::Ctud(_) => StdKind::Ctud,
            StdState::Sr(_) => StdKind::Sr,
            StdState::Rs(_) => StdKind::Rs,
            StdState::RTrig(_) => StdKind::RTrig,
            StdState::FTrig(_) => StdKind::FTrig,
        }
    }

    /// The value of a leaf, by its place among the pins.
    pub fn get(&self, leaf: u32) -> Val
        requires { leaf < length (values self.now) }
        ensures { slice_get (values self.now) leaf ≡ Some result }
    {
        match *self {
            StdState::Ton(leaves) => leaves.get(leaf),
            StdState::Tof(leaves) => leaves.get(leaf),
            StdState::Tp(leaves) => leaves.get(leaf),
            StdState::Ctu(leaves) => leaves.get(leaf),
            StdState::Ctd(leaves) => leaves.get(leaf),
            StdState::Ctud(leaves) => leaves.get(leaf),
            StdState::Sr(leaves) => leaves.get(leaf),
            StdState::Rs(leaves) => leaves.get(leaf),
            StdState::RTrig(leaves) => leaves.get(leaf),
            StdState::FTrig(leaves) => leaves.get(leaf),
        }
    }

    /// Gives a leaf a value of its type.
    pub fn set(&mut self, leaf: u32, v: Val)
        requires leaf { leaf < length (values self.old) }
        requires ty { IfSome (slice_get (values self.old) leaf) (λ old. old.ty ≡ v.ty) }
        ensures values { values self.new ≡ slice_set (values self.old) leaf v }
        ensures kind { kind_of self.new ≡ kind_of self.old }
    {
        *self = match *self {
            StdState::Ton(leaves) => StdState::Ton(leaves.with(leaf, v)),
            StdState::Tof(leaves) => StdState::Tof(leaves.with(leaf, v)),
            StdState::Tp(leaves) => StdState::Tp(leaves.with(leaf, v)),
            StdState::Ctu(leaves) => StdState::Ctu(leaves.with(leaf, v)),
            StdState::Ctd(leaves) => StdState::Ctd(leaves.with(leaf, v)),
            StdState::Ctud(leaves) => StdState::Ctud(leaves.with(leaf, v)),
            StdState::Sr(leaves) => StdState::Sr(leaves.with(leaf, v)),
            StdState::Rs(leaves) => StdState::Rs(leaves.with(leaf, v)),
            StdState::RTrig(leaves) => StdState::RTrig(leaves.with(leaf, v)),
            StdState::FTrig(leaves) => StdState::FTrig(leaves.with(leaf, v)),
        };
    }
}

/// One call of the block at a time, which takes no memory.
pub fn step(_k: StdKind, s: &mut StdState, now: i64)
    requires { kind_of s.old ≡ _k }
    ensures { s.new ≡ stepped s.old now }
{
    *s = match *s {
        StdState::Ton(leaves) => StdState::Ton(ton(leaves, now)),
        StdState::Tof(leaves) => StdState::Tof(tof(leaves, now)),
        StdState::Tp(leaves) => StdState::Tp(tp(leaves, now)),
        StdState::Ctu(leaves) => StdState::Ctu(ctu(leaves)),
        StdState::Ctd(leaves) => StdState::Ctd(ctd(leaves)),
        StdState::Ctud(leaves) => StdState::Ctud(ctud(leaves)),
        StdState::Sr(leaves) => StdState::Sr(sr(leaves)),
        StdState::Rs(leaves) => StdState::Rs(rs(leaves)),
        StdState::RTrig(leaves) => StdState::RTrig(r_trig(leaves)),
        StdState::FTrig(leaves) => StdState::FTrig(f_trig(leaves)),
    };
}

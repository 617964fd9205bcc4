/// The leaves of a TON: IN, PT, Q, ET, RUN and START.
#[derive(Clone, Copy, Debug, PartialEq, Eq)]
pub struct OnDelay {
    pub input: bool,
    pub preset: i64,
    pub output: bool,
    pub elapsed: i64,
    pub running: bool,
    pub start: i64,
}

/// The leaves of a TOF or a TP: IN, PT, Q, ET, M, RUN and START.
#[derive(Clone, Copy, Debug, PartialEq, Eq)]
pub struct Timer {
    pub input: bool,
    pub preset: i64,
    pub output: bool,
    pub elapsed: i64,
    pub memory: bool,
    pub running: bool,
    pub start: i64,
}

/// The leaves of a CTU: CU, R, PV, Q, CV and M.
#[derive(Clone, Copy, Debug, PartialEq, Eq)]
pub struct UpCounter {
    pub up: bool,
    pub reset: bool,
    pub preset: i16,
    pub output: bool,
    pub count: i16,
    pub memory: bool,
}

/// The leaves of a CTD: CD, LD, PV, Q, CV and M.
#[derive(Clone, Copy, Debug, PartialEq, Eq)]
pub struct DownCounter {
    pub down: bool,
    pub load: bool,
    pub preset: i16,
    pub output: bool,
    pub count: i16,
    pub memory: bool,
}

/// The leaves of a CTUD: CU, CD, R, LD, PV, QU, QD, CV, MU and MD.
#[derive(Clone, Copy, Debug, PartialEq, Eq)]
pub struct UpDownCounter {
    pub up: bool,
    pub down: bool,
    pub reset: bool,
    pub load: bool,
    pub preset: i16,
    pub output_up: bool,
    pub output_down: bool,
    pub count: i16,
    pub memory_up: bool,
    pub memory_down: bool,
}

/// The leaves of an SR or an RS: S1 or S, R or R1, and Q1.
#[derive(Clone, Copy, Debug, PartialEq, Eq)]
pub struct Latch {
    pub set: bool,
    pub reset: bool,
    pub output: bool,
}

/// The leaves of an R_TRIG or an F_TRIG: CLK, Q and M.
#[derive(Clone, Copy, Debug, PartialEq, Eq)]
pub struct Edge {
    pub clock: bool,
    pub output: bool,
    pub memory: bool,
}

//! TOF and TP.
ghost use Rattle.std.specs.Prelude.{◌≡◌, ◌<ℤ◌, true};
ghost use Rattle.plcx_std.specs.Step.{since, limit, off_timed, off_started, tof, pulse_ended, pulse_begun, pulse_shown, tp};

use crate::elapsed::{lesser, limit, since};
use crate::leaves::Timer;

fn off_started(leaves: Timer, now: i64) -> Timer
    ensures { result ≡ off_started leaves now }
{
    if leaves.memory {
        Timer {
            memory: false,
            running: true,
            start: now,
            ..leaves
        }
    } else {
        leaves
    }
}

fn off_timed(leaves: Timer, now: i64) -> Timer
    ensures { result ≡ off_timed leaves now }
{
    let elapsed = since(leaves.start, now);
    let limit = limit(leaves.preset);
    if !leaves.running {
        Timer {
            output: false,
            ..leaves
        }
    } else if elapsed < i128::from(limit) {
        Timer {
            output: true,
            elapsed: lesser(elapsed, limit),
            ..leaves
        }
    } else {
        Timer {
            output: false,
            elapsed: limit,
            running: false,
            ..leaves
        }
    }
}

/// One call of a TOF.
pub fn tof(leaves: Timer, now: i64) -> Timer
    ensures { result ≡ tof leaves now }
{
    if leaves.input {
        Timer {
            memory: true,
            running: false,
            start: 0,
            output: true,
            elapsed: 0,
            ..leaves
        }
    } else {
        off_timed(off_started(leaves, now), now)
    }
}

fn pulse_ended(leaves: Timer, now: i64) -> Timer
    ensures value { result ≡ pulse_ended leaves now }
    ensures open { result.running ≡ true → since result.start now <ℤ limit result.preset }
{
    let limit = limit(leaves.preset);
    if leaves.running && i128::from(limit) <= since(leaves.start, now) {
        Timer {
            running: false,
            elapsed: limit,
            ..leaves
        }
    } else {
        leaves
    }
}

fn pulse_begun(leaves: Timer, now: i64) -> Timer
    requires { leaves.running ≡ true → since leaves.start now <ℤ limit leaves.preset }
    ensures value { result ≡ pulse_begun leaves now }
    ensures open { result.running ≡ true → since result.start now <ℤ limit result.preset }
{
    if leaves.input && !leaves.memory && !leaves.running {
        if 0 < limit(leaves.preset) {
            Timer {
                elapsed: 0,
                running: true,
                start: now,
                ..leaves
            }
        } else {
            Timer {
                elapsed: 0,
                ..leaves
            }
        }
    } else {
        leaves
    }
}

fn pulse_shown(leaves: Timer, now: i64) -> Timer
    requires { leaves.running ≡ true → since leaves.start now <ℤ limit leaves.preset }
    ensures { result ≡ pulse_shown leaves now }
{
    if leaves.running {
        Timer {
            output: true,
            elapsed: since(leaves.start, now) as i64,
            ..leaves
        }
    } else {
        Timer {
            output: false,
            elapsed: if leaves.input { leaves.elapsed } else { 0 },
            ..leaves
        }
    }
}

/// One call of a TP.
pub fn tp(leaves: Timer, now: i64) -> Timer
    ensures { result ≡ tp leaves now }
{
    let begun = pulse_begun(pulse_ended(leaves, now), now);
    Timer {
        memory: leaves.input,
        ..pulse_shown(begun, now)
    }
}

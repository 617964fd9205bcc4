//! TON.
ghost use Rattle.std.specs.Prelude.{◌≡◌};
ghost use Rattle.plcx_std.specs.Step.{on_started, on_timed, ton};

use crate::elapsed::{lesser, limit, since};
use crate::leaves::OnDelay;

fn on_started(leaves: OnDelay, now: i64) -> OnDelay
    ensures { result ≡ on_started leaves now }
{
    if leaves.running {
        leaves
    } else {
        OnDelay {
            running: true,
            start: now,
            ..leaves
        }
    }
}

fn on_timed(leaves: OnDelay, now: i64) -> OnDelay
    ensures { result ≡ on_timed leaves now }
{
    let elapsed = since(leaves.start, now);
    let limit = limit(leaves.preset);
    OnDelay {
        output: i128::from(limit) <= elapsed,
        elapsed: lesser(elapsed, limit),
        ..leaves
    }
}

/// One call of a TON.
pub fn ton(leaves: OnDelay, now: i64) -> OnDelay
    ensures { result ≡ ton leaves now }
{
    if leaves.input {
        on_timed(on_started(leaves, now), now)
    } else {
        OnDelay {
            running: false,
            start: 0,
            output: false,
            elapsed: 0,
            ..leaves
        }
    }
}

//! The time that has gone by, and presets.
ghost use Rattle.std.specs.Prelude.{◌≡◌, ◌≤ℤ◌, pos};
ghost use Rattle.plcx_std.specs.Step.{since, limit, lesser};

pub(crate) fn since(start: i64, now: i64) -> i128
    ensures value { result ≡ since start now }
    ensures sign { pos 0 ≤ℤ result }
{
    let elapsed = i128::from(now) - i128::from(start);
    if 0 < elapsed { elapsed } else { 0 }
}

pub(crate) fn limit(preset: i64) -> i64
    ensures value { result ≡ limit preset }
    ensures sign { pos 0 ≤ℤ result }
{
    if 0 < preset { preset } else { 0 }
}

pub(crate) fn lesser(elapsed: i128, limit: i64) -> i64
    requires elapsed { pos 0 ≤ℤ elapsed }
    ensures { result ≡ lesser elapsed limit }
{
    if elapsed < i128::from(limit) {
        elapsed as i64
    } else {
        limit
    }
}

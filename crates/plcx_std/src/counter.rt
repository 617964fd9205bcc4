//! CTU, CTD and CTUD.
ghost use Rattle.std.specs.Prelude.{◌≡◌};
ghost use Rattle.plcx_std.specs.Step.{rises, one_more, one_less, ctu, ctd, ctud, count_of_ctud};

use crate::leaves::{DownCounter, UpCounter, UpDownCounter};

fn rises(input: bool, memory: bool) -> bool
    ensures { result ≡ rises input memory }
{
    input && !memory
}

fn one_more(count: i16) -> i16
    ensures { result ≡ one_more count }
{
    if count < 32_767 { count + 1 } else { count }
}

fn one_less(count: i16) -> i16
    ensures { result ≡ one_less count }
{
    if -32_768 < count { count - 1 } else { count }
}

/// One call of a CTU.
pub fn ctu(leaves: UpCounter) -> UpCounter
    ensures { result ≡ ctu leaves }
{
    let count = if leaves.reset {
        0
    } else if rises(leaves.up, leaves.memory) {
        one_more(leaves.count)
    } else {
        leaves.count
    };
    UpCounter {
        output: leaves.preset <= count,
        count,
        memory: leaves.up,
        ..leaves
    }
}

/// One call of a CTD.
pub fn ctd(leaves: DownCounter) -> DownCounter
    ensures { result ≡ ctd leaves }
{
    let count = if leaves.load {
        leaves.preset
    } else if rises(leaves.down, leaves.memory) {
        one_less(leaves.count)
    } else {
        leaves.count
    };
    DownCounter {
        output: count <= 0,
        count,
        memory: leaves.down,
        ..leaves
    }
}

fn count_of_ctud(leaves: UpDownCounter) -> i16
    ensures { result ≡ count_of_ctud leaves }
{
    if leaves.reset {
        return 0;
    }
    if leaves.load {
        return leaves.preset;
    }
    let up = rises(leaves.up, leaves.memory_up);
    let down = rises(leaves.down, leaves.memory_down);
    if up && down {
        leaves.count
    } else if up {
        one_more(leaves.count)
    } else if down {
        one_less(leaves.count)
    } else {
        leaves.count
    }
}

/// One call of a CTUD.
pub fn ctud(leaves: UpDownCounter) -> UpDownCounter
    ensures { result ≡ ctud leaves }
{
    let count = count_of_ctud(leaves);
    UpDownCounter {
        output_up: leaves.preset <= count,
        output_down: count <= 0,
        count,
        memory_up: leaves.up,
        memory_down: leaves.down,
        ..leaves
    }
}

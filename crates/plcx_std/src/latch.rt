//! SR and RS.
ghost use Rattle.std.specs.Prelude.{◌≡◌};
ghost use Rattle.plcx_std.specs.Step.{sr, rs};

use crate::leaves::Latch;

/// One call of an SR, in which setting wins.
pub fn sr(leaves: Latch) -> Latch
    ensures { result ≡ sr leaves }
{
    Latch {
        output: leaves.set || (!leaves.reset && leaves.output),
        ..leaves
    }
}

/// One call of an RS, in which resetting wins.
pub fn rs(leaves: Latch) -> Latch
    ensures { result ≡ rs leaves }
{
    Latch {
        output: !leaves.reset && (leaves.set || leaves.output),
        ..leaves
    }
}

//! R_TRIG and F_TRIG.
ghost use Rattle.std.specs.Prelude.{◌≡◌};
ghost use Rattle.plcx_std.specs.Step.{r_trig, f_trig};

use crate::leaves::Edge;

/// One call of an R_TRIG.
pub fn r_trig(leaves: Edge) -> Edge
    ensures { result ≡ r_trig leaves }
{
    Edge {
        output: leaves.clock && !leaves.memory,
        memory: leaves.clock,
        ..leaves
    }
}

/// One call of an F_TRIG.
pub fn f_trig(leaves: Edge) -> Edge
    ensures { result ≡ f_trig leaves }
{
    Edge {
        output: !leaves.clock && !leaves.memory,
        memory: !leaves.clock,
        ..leaves
    }
}

//! What holds of the definitions.
ghost use Rattle.std.specs.Prelude.{◌≡◌, ℕ, List};
ghost use Rattle.plcx_bench.specs.Summary.{IsSummary};

use plcx_fits::one_diagram;

/// A number of networks has one summary.
pub fn one_summary()
    ensures { (n : ℕ) (a b : List ℕ) → IsSummary n a → IsSummary n b → a ≡ b }
{
    one_diagram();
}

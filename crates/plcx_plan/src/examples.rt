//! Worked examples of intervals.
ghost use Rattle.std.specs.Prelude.{ℕ, codes};
ghost use Rattle.plcx_plan.specs.Intervals.{IsInterval};

/// Intervals by either form, and texts that are none.
pub fn examples_of_intervals()
    ensures literal { IsInterval (codes "T#10ms") 10 }
    ensures seconds { IsInterval (codes "PT0.02S") 20 }
    ensures zeros { IsInterval (codes "PT0000000000000000000000001S") 1000 }
    ensures zero { (ms : ℕ) → IsInterval (codes "T#0ms") ms → ⊥ }
    ensures lower_case { (ms : ℕ) → IsInterval (codes "pt1s") ms → ⊥ }
    ensures no_digit { (ms : ℕ) → IsInterval (codes "PT.5S") ms → ⊥ }
    ensures no_whole { (ms : ℕ) → IsInterval (codes "PT0.0001S") ms → ⊥ }
{}

//! What holds of the counts.
ghost use Rattle.plcx_cover.specs.Counts.{CountsGrow};

/// A cover that is told outputs one after another has counted all of them.
#[tactic(auto, using(crate::proofs::Growing::counts_grow))]
pub fn counts_grow()
    ensures { CountsGrow }
{}

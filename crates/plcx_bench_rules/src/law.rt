//! What holds of the project that a bench measures.
ghost use Rattle.std.specs.Prelude.{ℕ, None};
ghost use Rattle.plcx_bench_project.specs.Bench.{IsMeasured, IsBench};
ghost use Rattle.plcx_model.specs.declared.project.Project.{Project};
ghost use Rattle.plcx_rules.specs.CheckVerdict.{CheckVerdict};

/// A project that is measured breaks none of the rules on references, pins, names and types, however many networks it
/// has.
pub fn bench_breaks_no_rule()
    ensures { (n : ℕ) (project : Project) → IsMeasured n → IsBench n project → CheckVerdict project None }
{}

//! The project that a bench measures, checked.
ghost use Rattle.std.specs.Prelude.{ℕ, IfOk};
ghost use Rattle.plcx_bench_project.specs.Bench.{IsMeasured, IsBench};
ghost use Rattle.plcx_check.specs.Checks.{IsCheckedOf};
ghost use Rattle.plcx_model.specs.Sound.{Sound};

use crate::law::bench_breaks_no_rule;
use plcx_check::{CheckError, Checked, check};
use plcx_model::Project;
use plcx_rules::one_check_verdict;
use plcx_types::NoMemory;
use std::alloc::Global;

/// Checks a project that is measured: since it breaks no rule, only want of memory hinders that.
pub fn checked_bench(alloc: Global, project: Project) -> Result<Checked, NoMemory>
    requires sound { Sound project }
    requires bench { (n : ℕ) × IsMeasured n × IsBench n project }
    ensures { IfOk result (IsCheckedOf project) }
{
    bench_breaks_no_rule();
    one_check_verdict();
    match check(alloc, project) {
        Ok(checked) => Ok(checked),
        Err(CheckError::Broken { .. }) => unreachable!(),
        Err(CheckError::NoMemory { .. }) => Err(NoMemory),
    }
}

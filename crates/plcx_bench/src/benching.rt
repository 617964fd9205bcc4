//! A bench from its number of networks on.
ghost use Rattle.std.specs.Prelude.{◌≡◌, IfOk, MatchResult};
ghost use Rattle.std.specs.List.{fold};
ghost use Rattle.plcx_bench_project.specs.Bench.{IsMeasured};
ghost use Rattle.plcx_bench.specs.Summary.{IsSummary};
ghost use Rattle.plcx_bench.specs.Watching.{HearsAll, HearsSome};

use crate::summary::summary_of;
use plcx_bench_file::bench_project;
use plcx_bench_rules::checked_bench;
use plcx_steps::Watch;
use plcx_types::NoMemory;
use std::alloc::Global;

/// The summary of n networks: the file of their project is made, read, judged and compiled, its text is read back, and both are
/// run. The watch is told what is heard of the diagram.
pub fn bench<W: Watch>(alloc: Global, n: u64, watch: &mut W) -> Result<Vec<u8>, NoMemory>
    requires { IsMeasured n }
    ensures summary { IfOk result (λ text. IsSummary n text.items) }
    ensures heard { MatchResult result
        (λ _. HearsAll n (λ heard. watch.new ≡ fold W.told watch.old heard))
        (λ _. HearsSome n (λ heard. watch.new ≡ fold W.told watch.old heard)) }
{
    let project = bench_project(alloc, n)?;
    let checked = checked_bench(alloc, project)?;
    summary_of(alloc, &checked, n, watch)
}

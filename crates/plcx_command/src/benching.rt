//! What a bench answers.
ghost use Rattle.std.specs.Prelude.{◌≡◌, IfOk, MatchResult};
ghost use Rattle.std.specs.List.{fold};
ghost use Rattle.plcx_bench_project.specs.Bench.{IsMeasured};
ghost use Rattle.plcx_command.specs.Answer.{memory_answer};
ghost use Rattle.plcx_command.specs.Benched.{AnswersBench};
ghost use Rattle.plcx_command.specs.Hears.{HearsBench};
ghost use Rattle.plcx_command.specs.ReplyOf.{answer_of};

use crate::reply::Reply;
use plcx_bench::bench;
use plcx_steps::Watch;
use plcx_types::NoMemory;
use std::alloc::Global;

/// What so many networks answer that are measured. No file is read, and only want of memory hinders it.
pub fn bench_reply<W: Watch>(alloc: Global, n: u64, watch: &mut W) -> Result<Reply, NoMemory>
    requires { IsMeasured n }
    ensures says { IfOk result (λ reply. AnswersBench n (answer_of reply)) }
    ensures heard { MatchResult result
        (λ reply. HearsBench (λ heard. watch.new ≡ fold W.told watch.old heard) n (answer_of reply))
        (λ _. HearsBench (λ heard. watch.new ≡ fold W.told watch.old heard) n memory_answer) }
{
    Ok(Reply::Output(bench(alloc, n, watch)?))
}

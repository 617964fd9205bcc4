//! The top call.
ghost use Rattle.std.specs.Prelude.{◌≡◌, None};
ghost use Rattle.std.specs.List.{fold};
ghost use Rattle.plcx_io.specs.Counts.{Rose};
ghost use Rattle.plcx_words.specs.Command.{command_of};
ghost use Rattle.plcx_command.specs.Ends.{Ends, change};
ghost use Rattle.plcx_command.specs.Headline.{BenchesExactly, ChecksExactly, CompilesExactly, CoversExactly, CyclesExactly, MigratesExactly, RunsExactly, SimulatesExactly, WatchesExactly, TellsSources, TellsAll};
ghost use Rattle.plcx_command.specs.Headline.{RefusesUsage, RefusesBroken, RefusesFor, BlamesReads, BlamesWrites, TellsMemory, IsComplete};
ghost use Rattle.plcx_command.specs.declared.status.Refused.TheVariants.{TextBroken, NoProgram, EventsBroken, TasksBroken};

use crate::deciding::decide;
use crate::finishing::{put, refuse};
use crate::law::{one_list_of_diagrams, one_verdict};
use crate::reply::Reply;
use crate::status::{Refused, Status};
use plcx_coverage::one_coverage;
use plcx_cycle::one_cycle;
use plcx_io::{Desk, Sink};
use plcx_plan::no_plan;
use plcx_simulate::one_outcome;
use plcx_steps::Watch;
use plcx_text_run::one_outcome as one_text_outcome;
use plcx_words::Words;
use plcx_xml::one_tree;
use std::alloc::Global;

fn run<D: Desk, O: Sink, E: Sink, W: Watch>(
    alloc: Global,
    words: &Words,
    desk: &mut D,
    out: &mut O,
    err: &mut E,
    watch: &mut W,
) -> Status
    ensures ends { Ends (D.file desk.old) (λ name. Rose (D.faults desk.old name) (D.faults desk.new name))
        (λ heard. watch.new ≡ fold W.told watch.old heard) (command_of words.now) result
        (change (O.written out.old) (O.written out.new) (O.faults out.old) (O.faults out.new))
        (change (E.written err.old) (E.written err.new) (E.faults err.old) (E.faults err.new)) }
    ensures untouched { command_of words.now ≡ None → desk.new ≡ desk.old }
{
    match decide(alloc, words, desk, watch) {
        Ok(Reply::Output(bytes)) => put(&bytes, out, err),
        Ok(Reply::Refusal(why, line)) => refuse(why, &line, out, err),
        Err(_) => refuse(Refused::NoMemory, b"plcx: no memory\n", out, err),
    }
}

/// All that the program does, for the words behind its name. No output is begun before it is whole.
pub fn plcx<D: Desk, O: Sink, E: Sink, W: Watch>(
    alloc: Global,
    words: &Words,
    desk: &mut D,
    out: &mut O,
    err: &mut E,
    watch: &mut W,
) -> Status
    ensures ends { Ends (D.file desk.old) (λ name. Rose (D.faults desk.old name) (D.faults desk.new name))
        (λ heard. watch.new ≡ fold W.told watch.old heard) (command_of words.now) result
        (change (O.written out.old) (O.written out.new) (O.faults out.old) (O.faults out.new))
        (change (E.written err.old) (E.written err.new) (E.faults err.old) (E.faults err.new)) }

    ensures compiles { CompilesExactly (D.file desk.old) (command_of words.now) result
        (change (O.written out.old) (O.written out.new) (O.faults out.old) (O.faults out.new))
        (change (E.written err.old) (E.written err.new) (E.faults err.old) (E.faults err.new)) }

    ensures checks { ChecksExactly (D.file desk.old) (command_of words.now) result
        (change (O.written out.old) (O.written out.new) (O.faults out.old) (O.faults out.new))
        (change (E.written err.old) (E.written err.new) (E.faults err.old) (E.faults err.new)) }

    ensures simulates { SimulatesExactly (D.file desk.old) (command_of words.now) result
        (change (O.written out.old) (O.written out.new) (O.faults out.old) (O.faults out.new))
        (change (E.written err.old) (E.written err.new) (E.faults err.old) (E.faults err.new)) }

    ensures covers { CoversExactly (D.file desk.old) (command_of words.now) result
        (change (O.written out.old) (O.written out.new) (O.faults out.old) (O.faults out.new))
        (change (E.written err.old) (E.written err.new) (E.faults err.old) (E.faults err.new)) }

    ensures runs { RunsExactly (D.file desk.old) (command_of words.now) result
        (change (O.written out.old) (O.written out.new) (O.faults out.old) (O.faults out.new))
        (change (E.written err.old) (E.written err.new) (E.faults err.old) (E.faults err.new)) }

    ensures cycles { CyclesExactly (D.file desk.old) (command_of words.now) result
        (change (O.written out.old) (O.written out.new) (O.faults out.old) (O.faults out.new))
        (change (E.written err.old) (E.written err.new) (E.faults err.old) (E.faults err.new)) }

    ensures benches { BenchesExactly (command_of words.now) result
        (change (O.written out.old) (O.written out.new) (O.faults out.old) (O.faults out.new))
        (change (E.written err.old) (E.written err.new) (E.faults err.old) (E.faults err.new)) }

    ensures migrates { MigratesExactly (D.file desk.old) (command_of words.now) result
        (change (O.written out.old) (O.written out.new) (O.faults out.old) (O.faults out.new))
        (change (E.written err.old) (E.written err.new) (E.faults err.old) (E.faults err.new)) }

    ensures watches { WatchesExactly (D.file desk.old) (λ heard. watch.new ≡ fold W.told watch.old heard) (command_of words.now) result }

    ensures complete { IsComplete (D.file desk.old) (λ name. Rose (D.faults desk.old name) (D.faults desk.new name))
        (command_of words.now) result
        (change (O.written out.old) (O.written out.new) (O.faults out.old) (O.faults out.new))
        (change (E.written err.old) (E.written err.new) (E.faults err.old) (E.faults err.new)) }

    ensures usage { RefusesUsage (command_of words.now) result
        (change (O.written out.old) (O.written out.new) (O.faults out.old) (O.faults out.new))
        (change (E.written err.old) (E.written err.new) (E.faults err.old) (E.faults err.new)) }

    ensures untouched { command_of words.now ≡ None → desk.new ≡ desk.old }

    ensures broken { RefusesBroken (D.file desk.old) (command_of words.now) result
        (change (O.written out.old) (O.written out.new) (O.faults out.old) (O.faults out.new))
        (change (E.written err.old) (E.written err.new) (E.faults err.old) (E.faults err.new)) }

    ensures text_broken { RefusesFor TextBroken (TellsSources (D.file desk.old) (command_of words.now)) (D.file desk.old) (command_of words.now) result
        (change (O.written out.old) (O.written out.new) (O.faults out.old) (O.faults out.new))
        (change (E.written err.old) (E.written err.new) (E.faults err.old) (E.faults err.new)) }

    ensures no_program { RefusesFor NoProgram (TellsSources (D.file desk.old) (command_of words.now)) (D.file desk.old) (command_of words.now) result
        (change (O.written out.old) (O.written out.new) (O.faults out.old) (O.faults out.new))
        (change (E.written err.old) (E.written err.new) (E.faults err.old) (E.faults err.new)) }

    ensures events_broken { RefusesFor EventsBroken (TellsAll (D.file desk.old) (command_of words.now)) (D.file desk.old) (command_of words.now) result
        (change (O.written out.old) (O.written out.new) (O.faults out.old) (O.faults out.new))
        (change (E.written err.old) (E.written err.new) (E.faults err.old) (E.faults err.new)) }

    ensures tasks_broken { RefusesFor TasksBroken (TellsSources (D.file desk.old) (command_of words.now)) (D.file desk.old) (command_of words.now) result
        (change (O.written out.old) (O.written out.new) (O.faults out.old) (O.faults out.new))
        (change (E.written err.old) (E.written err.new) (E.faults err.old) (E.faults err.new)) }

    ensures read_fault { BlamesReads (D.file desk.old) (λ name. Rose (D.faults desk.old name) (D.faults desk.new name))
        (command_of words.now) result
        (change (O.written out.old) (O.written out.new) (O.faults out.old) (O.faults out.new))
        (change (E.written err.old) (E.written err.new) (E.faults err.old) (E.faults err.new)) }

    ensures write_fault { BlamesWrites (D.file desk.old) (λ name. Rose (D.faults desk.old name) (D.faults desk.new name))
        (λ heard. watch.new ≡ fold W.told watch.old heard) (command_of words.now) result
        (change (O.written out.old) (O.written out.new) (O.faults out.old) (O.faults out.new))
        (change (E.written err.old) (E.written err.new) (E.faults err.old) (E.faults err.new)) }

    ensures no_memory { TellsMemory result
        (change (O.written out.old) (O.written out.new) (O.faults out.old) (O.faults out.new))
        (change (E.written err.old) (E.written err.new) (E.faults err.old) (E.faults err.new)) }
{
    one_verdict();
    one_list_of_diagrams();
    one_outcome();
    one_coverage();
    one_text_outcome();
    one_tree();
    one_cycle();
    no_plan();
    run(alloc, words, desk, out, err, watch)
}

//! Traces as texts.
ghost use Rattle.std.specs.Prelude.{◌≡◌, ◌++◌, ◌∷◌, [], IfOk, OnOk, OnErr, map};
ghost use Rattle.std.specs.Fmt.{decimal};
ghost use Rattle.std.specs.List.{flat_map};
ghost use Rattle.plcx_types.specs.Printed.{printed};
ghost use Rattle.plcx_state.specs.declared.layout.Leaf.{Leaf};
ghost use Rattle.plcx_state.specs.Layouts.{dotted};
ghost use Rattle.plcx_scan.specs.Events.{meant_events, CanFollow, last_at_end};
ghost use Rattle.plcx_scan.specs.Sides.{told, BringsAll, BringsSome};
ghost use Rattle.plcx_scan.specs.Rows.{shown_leaves};
ghost use Rattle.plcx_scan.specs.Texts.{word, behind_comma, values_text, row_text, rows_text, layout_header, trace_text, HasTrace};

use crate::event::Events;
use crate::row::{Trace, TraceRow};
use crate::running::run;
use crate::side::{Outcome, Side};
use plcx_state::{Layout, Leaf};
use plcx_types::{Fault, NoMemory, Val, print_literal};
use std::alloc::Global;

/// The word for what is told of an event.
pub fn outcome_word(outcome: Outcome) -> &'static [u8]
    ensures { result.now ≡ word (told outcome) }
{
    match outcome {
        Outcome::Ended => b"ok",
        Outcome::Fault(Fault::DivByZero) => b"fault DivByZero",
        Outcome::Fault(Fault::Range) => b"fault Range",
        Outcome::OutOfTurns => b"turns",
        Outcome::Halted => b"halted",
        Outcome::Restarted => b"restart",
    }
}

fn push_value(alloc: Global, text: &mut Vec<u8>, value: Val) -> Result<(), NoMemory>
    ensures { OnOk result (text.new.items ≡ text.old.items ++ behind_comma (printed value)) }
{
    let literal = print_literal(alloc, value)?;
    text.push(b',')?;
    text.extend_from_slice(&literal)?;
    Ok(())
}

fn push_values(alloc: Global, text: &mut Vec<u8>, values: &[Val]) -> Result<(), NoMemory>
    ensures { OnOk result (text.new.items ≡ text.old.items ++ values_text values.now) }
{
    for value in values {
        push_value(alloc, text, *value)?;
    }
    Ok(())
}

/// A number in decimal digits, behind a text.
pub fn push_number(alloc: Global, text: &mut Vec<u8>, number: u64) -> Result<(), NoMemory>
    ensures { OnOk result (text.new.items ≡ text.old.items ++ decimal number) }
{
    let digits = format!(in alloc; "{number}")?;
    text.extend_from_slice(digits.as_bytes())?;
    Ok(())
}

fn push_row(alloc: Global, text: &mut Vec<u8>, number: u64, row: &TraceRow) -> Result<(), NoMemory>
    ensures { OnOk result (text.new.items ≡ text.old.items ++ row_text number row.now) }
{
    push_number(alloc, text, number)?;
    text.push(b',')?;
    text.extend_from_slice(outcome_word(row.outcome))?;
    push_values(alloc, text, row.values.as_slice())?;
    text.push(b'\n')?;
    Ok(())
}

fn push_rows(alloc: Global, text: &mut Vec<u8>, rows: &[TraceRow]) -> Result<(), NoMemory>
    ensures { OnOk result (text.new.items ≡ text.old.items ++ rows_text 1 rows.now) }
{
    for (place, row) in rows.iter().enumerate() {
        push_row(alloc, text, place as u64 + 1, row)?;
    }
    Ok(())
}

fn push_name(alloc: Global, text: &mut Vec<u8>, leaf: &Leaf) -> Result<(), NoMemory>
    ensures { OnOk result (text.new.items ≡ text.old.items ++ flat_map behind_comma (map (λ (l : Leaf). dotted l.path) (shown_leaves (leaf.now ∷ [])))) }
{
    if leaf.shown {
        let name = leaf.path.text(alloc)?;
        text.push(b',')?;
        text.extend_from_slice(&name)?;
    }
    Ok(())
}

fn header(alloc: Global, leaves: &[Leaf]) -> Result<Vec<u8>, NoMemory>
    ensures { IfOk result (λ text. text.items ≡ layout_header leaves.now) }
{
    let mut text = Vec::from_slice(alloc, b"event,result")?;
    for leaf in leaves {
        push_name(alloc, &mut text, leaf)?;
    }
    text.push(b'\n')?;
    Ok(text)
}

/// A trace as a text: a header with the names of the shown leaves, a line for each row, and the retained lines.
pub fn trace_text(
    alloc: Global,
    layout: &Layout,
    trace: &Trace,
    retained: &[u8],
) -> Result<Vec<u8>, NoMemory>
    ensures { IfOk result (λ text. text.items ≡ trace_text layout.now.leaves trace.now.rows retained.now) }
{
    let mut text = header(alloc, layout.leaves())?;
    push_rows(alloc, &mut text, trace.rows.as_slice())?;
    text.extend_from_slice(retained)?;
    Ok(text)
}

/// A run as a text: the trace of each event in turn, and the retained lines at its end.
pub fn run_to_text<S: Side>(
    alloc: Global,
    side: &mut S,
    events: &Events,
    turns: u64,
) -> Result<Vec<u8>, NoMemory>
    requires { CanFollow (S.laid side.old).leaves (S.last side.old) events.now }
    ensures text { IfOk result (λ text. HasTrace (S.machine side.old) turns (meant_events (S.laid side.old).leaves events.now) (S.stands_for side.old) text.items) }
    ensures meaning { OnOk result (BringsAll (S.machine side.old) turns (meant_events (S.laid side.old).leaves events.now) (S.stands_for side.old) (S.stands_for side.new)) }
    ensures stopped { OnErr result (BringsSome (S.machine side.old) turns (meant_events (S.laid side.old).leaves events.now) (S.stands_for side.old) (S.stands_for side.new)) }
    ensures machine { S.machine side.new ≡ S.machine side.old }
    ensures laid { S.laid side.new ≡ S.laid side.old }
    ensures time { OnOk result (S.last side.new ≡ last_at_end (S.last side.old) events.now) }
{
    let trace = run(alloc, side, events, turns)?;
    let _ = side.values();
    let retained = side.retained_text(alloc)?;
    Ok(trace_text(alloc, side.layout(), &trace, &retained)?)
}

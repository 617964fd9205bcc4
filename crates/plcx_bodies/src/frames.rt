//! Where the wires and in-outs of each body stand: those of each level behind those of the levels below it.
ghost use Rattle.std.specs.Prelude.{◌≡◌, ◌+◌, IfOk, length};
ghost use Rattle.plcx_types.specs.Lists.{Each};
ghost use Rattle.plcx_bodies.specs.Framed.{IsBelow, HasRoom, AreStarts, framed, AreFramed};

use crate::counting::{greater, sum};
use plcx_steps::Body;
use plcx_types::NoMemory;
use std::alloc::Global;

/// Where wires and in-outs begin, or how many there are.
#[derive(Clone, Copy, Debug)]
pub(crate) struct Start {
    pub(crate) wire: usize,
    pub(crate) in_out: usize,
}

/// A level that no body is above.
fn highest(bodies: &[Body]) -> usize
    ensures { Each (IsBelow result) bodies.now }
{
    let mut most = 0;
    for body in bodies {
        most = greater(most, body.level);
    }
    most
}

fn with_room(room: Start, level: usize, body: &Body) -> Start
    ensures grown { (room.wire ≤ result.wire) × (room.in_out ≤ result.in_out) }
    ensures enough { HasRoom level result body.now }
{
    if body.level == level {
        Start {
            wire: greater(room.wire, body.width),
            in_out: greater(room.in_out, body.in_outs),
        }
    } else {
        room
    }
}

ghost use Rattle.std.specs.Prelude.{◌≤◌};

/// Room enough for each body of a level.
fn room(bodies: &[Body], level: usize) -> Start
    ensures { Each (HasRoom level result) bodies.now }
{
    let mut most = Start { wire: 0, in_out: 0 };
    for body in bodies {
        most = with_room(most, level, body);
    }
    most
}

fn behind(start: Start, room: Start) -> Result<Start, NoMemory>
    ensures { IfOk result (λ next. (next.wire ≡ start.wire + room.wire) × (next.in_out ≡ start.in_out + room.in_out)) }
{
    let wire = sum(start.wire, room.wire)?;
    let in_out = sum(start.in_out, room.in_out)?;
    Ok(Start { wire, in_out })
}

/// Where each level begins.
fn starts(alloc: Global, bodies: &[Body]) -> Result<Vec<Start>, NoMemory>
    ensures { IfOk result (λ starts. AreStarts bodies.now starts.items) }
{
    let highest = highest(bodies);
    let mut last = Start { wire: 0, in_out: 0 };
    let mut starts = Vec::new(alloc);
    starts.push(last)?;
    for level in 0..highest {
        last = behind(last, room(bodies, level))?;
        starts.push(last)?;
    }
    Ok(starts)
}

fn framed(starts: &[Start], mut body: Body) -> Body
    ensures { result ≡ framed starts.now body }
{
    if let Some(start) = starts.get(body.level) {
        body.first_wire = start.wire;
        body.first_in_out = start.in_out;
    }
    body
}

/// The same bodies, each with its place behind those of lower levels.
pub fn with_frames(alloc: Global, bodies: Vec<Body>) -> Result<Vec<Body>, NoMemory>
    ensures { IfOk result (λ all. AreFramed bodies.items all.items) }
{
    let starts = starts(alloc, &bodies)?;
    let mut all = Vec::new(alloc);
    for body in bodies {
        all.push(framed(&starts, body))?;
    }
    Ok(all)
}

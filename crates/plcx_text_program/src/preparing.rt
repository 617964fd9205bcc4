//! The prepared text of a unit.
ghost use Rattle.std.specs.Prelude.{◌≡◌, IfOk};
ghost use Rattle.plcx_st.specs.Meant.{meant};
ghost use Rattle.plcx_text_numbered.specs.Texts.{IsTextOf};
ghost use Rattle.plcx_text_order.specs.Laws.{HasMade};
ghost use Rattle.plcx_text_program.specs.Making.{made_of};

use crate::bodies::bodies_of;
use crate::pous::{Pous, pous_of};
use plcx_bodies::with_frames;
use plcx_steps::{Body, Program};
use plcx_text_order::ordered_is_text;
use plcx_text_steps::Text;
use plcx_text_tables::Tables;
use plcx_types::NoMemory;
use plcx_unit::Ready;
use std::alloc::Global;

/// A program of these bodies and a text, with what is prepared of POUs.
fn joined(all: Pous, bodies: Vec<Body>) -> (Program, Text)
    ensures made { HasMade result.0 result.1 (made_of all) }
    ensures bodies { result.0.bodies ≡ bodies }
{
    let Pous { prepared, entries } = all;
    let program = Program {
        bodies,
        bindings: prepared.bindings,
        arguments: prepared.arguments,
    };
    let text = Text {
        entries,
        sections: prepared.sections,
        arms: prepared.arms,
    };
    (program, text)
}

/// What is prepared of a unit that is ready: a program and a text, in which no name is left.
pub fn prepared(alloc: Global, ready: &Ready) -> Result<(Program, Text), NoMemory>
    ensures { IfOk result (λ r. IsTextOf (meant ready.now) r.0 r.1) }
{
    let unit = ready.unit();
    let pous = unit.pous.as_slice();
    let tables = Tables::of(alloc, pous)?;
    let all = pous_of(alloc, &tables, pous)?;
    let bodies = with_frames(alloc, bodies_of(alloc, &tables, &all.entries)?)?;
    ordered_is_text();
    Ok(joined(all, bodies))
}

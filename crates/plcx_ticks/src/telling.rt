//! The rows of a run as a text.
ghost use Rattle.std.specs.Prelude.{◌≡◌, ◌++◌, ◌∷◌, List, drop, IfOk, OnOk, slice_get};
ghost use Rattle.plcx_state.specs.declared.layout.Leaf.{Leaf};
ghost use Rattle.plcx_scan.specs.Rows.{shown_leaves};
ghost use Rattle.plcx_ticks.specs.Texts.{name_in, leaves_in, named_value, named_values, row_front, row_line, task_text};

use plcx_scan::{outcome_word, push_number};
use plcx_state::{Layout, Leaf};
use plcx_tasks::{Instance, TaskPlan, TaskRow, TaskTrace};
use plcx_types::{NoMemory, Val, print_literal};
use std::alloc::Global;

fn name_at(instances: &[Instance], place: u32) -> &[u8]
    ensures { result.now ≡ name_in (slice_get instances.now place) }
{
    match instances.get(place as usize) {
        None => &[],
        Some(instance) => instance.name.text(),
    }
}

fn leaves_at(layouts: &[Layout], place: u32) -> &[Leaf]
    ensures { result.now ≡ leaves_in (slice_get layouts.now place) }
{
    match layouts.get(place as usize) {
        None => &[],
        Some(layout) => layout.leaves(),
    }
}

fn push_value(alloc: Global, text: &mut Vec<u8>, leaf: &Leaf, value: Val) -> Result<(), NoMemory>
    ensures { OnOk result (text.new.items ≡ text.old.items ++ named_value leaf.now value) }
{
    let name = leaf.path.text(alloc)?;
    let literal = print_literal(alloc, value)?;
    text.push(b',')?;
    text.extend_from_slice(&name)?;
    text.push(b'=')?;
    text.extend_from_slice(&literal)?;
    Ok(())
}

/// The value of a leaf, if it is shown: the value at a place. The answer is the place of the next value.
fn push_shown(
    alloc: Global,
    text: &mut Vec<u8>,
    leaf: &Leaf,
    values: &[Val],
    place: usize,
) -> Result<usize, NoMemory>
    ensures { IfOk result (λ next. (leaves : List Leaf) → text.new.items ++ named_values (shown_leaves leaves) (drop next values.now) ≡ text.old.items ++ named_values (shown_leaves (leaf.now ∷ leaves)) (drop place values.now)) }
{
    if !leaf.shown {
        return Ok(place);
    }
    let Some(value) = values.get(place) else {
        return Ok(place);
    };
    push_value(alloc, text, leaf, *value)?;
    Ok(place + 1)
}

/// The values of the shown leaves, in order.
fn push_values(
    alloc: Global,
    text: &mut Vec<u8>,
    leaves: &[Leaf],
    values: &[Val],
) -> Result<(), NoMemory>
    ensures { OnOk result (text.new.items ≡ text.old.items ++ named_values (shown_leaves leaves.now) values.now) }
{
    let mut place = 0;
    for leaf in leaves {
        place = push_shown(alloc, text, leaf, values, place)?;
    }
    Ok(())
}

fn push_front(
    alloc: Global,
    text: &mut Vec<u8>,
    plan: &TaskPlan,
    row: &TaskRow,
) -> Result<(), NoMemory>
    ensures { OnOk result (text.new.items ≡ text.old.items ++ row_front plan.now row.now) }
{
    push_number(alloc, text, row.event)?;
    text.push(b',')?;
    text.extend_from_slice(name_at(plan.instances.as_slice(), row.instance))?;
    text.push(b',')?;
    Ok(())
}

fn push_row(
    alloc: Global,
    text: &mut Vec<u8>,
    plan: &TaskPlan,
    layouts: &[Layout],
    row: &TaskRow,
) -> Result<(), NoMemory>
    ensures { OnOk result (text.new.items ≡ text.old.items ++ row_line plan.now layouts.now row.now) }
{
    push_front(alloc, text, plan, row)?;
    text.extend_from_slice(outcome_word(row.outcome))?;
    push_values(
        alloc,
        text,
        leaves_at(layouts, row.instance),
        row.values.as_slice(),
    )?;
    text.push(b'\n')?;
    Ok(())
}

/// The rows of a run as a text: a header, and a line for each row with the number of its event, the name of its
/// instance, what is told of the event, and the shown leaves with their values. The layouts go by the instances.
pub fn task_text(
    alloc: Global,
    plan: &TaskPlan,
    layouts: &[Layout],
    trace: &TaskTrace,
) -> Result<Vec<u8>, NoMemory>
    ensures { IfOk result (λ text. text.items ≡ task_text plan.now layouts.now trace.now.rows) }
{
    let mut text = Vec::from_slice(alloc, b"event,instance,result\n")?;
    for row in trace.rows.as_slice() {
        push_row(alloc, &mut text, plan, layouts, row)?;
    }
    Ok(text)
}

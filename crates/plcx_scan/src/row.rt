//! The rows of a trace: what is told of each event, and the values of the shown leaves after it.
ghost use Rattle.std.specs.Prelude.{◌≡◌, ◌<◌, ◌^◌, ◌++◌, ◌∷◌, [], IfOk, OnOk, length};
ghost use Rattle.plcx_scan.specs.Rows.{shown_numbers, picked};

use crate::side::Outcome;
use plcx_state::{Layout, Leaf};
use plcx_types::{NoMemory, Val};
use sqlite_items::Items;
use std::alloc::Global;
use std::marker::Model;

/// What is told of an event, and the values of the shown leaves after it, in the order of the layout.
#[derive(Debug, Drop)]
pub struct TraceRow {
    pub outcome: Outcome,
    pub values: Items<Val>,
}

/// A row for each event.
#[derive(Debug, Drop)]
pub struct Trace {
    pub rows: Items<TraceRow>,
}

/// The numbers of the shown leaves of a layout. It is made once for many rows.
#[derive(Debug, Drop)]
pub struct Shown {
    numbers: Vec<u32>,
}

impl Model for Shown {
    ghost use Rattle.std.specs.Prelude.{ℕ, List};

    ghost Value = { List ℕ };

    ghost view = { λ s. s.numbers.items };
}

fn shown_numbers(alloc: Global, leaves: &[Leaf]) -> Result<Vec<u32>, NoMemory>
    requires { length leaves.now < 2 ^ 32 }
    ensures { IfOk result (λ numbers. numbers.items ≡ shown_numbers leaves.now) }
{
    let mut numbers = Vec::new(alloc);
    for number in 0..leaves.len() {
        if leaves[number].shown {
            numbers.push(number as u32)?;
        }
    }
    Ok(numbers)
}

/// The value of this number at the end of the others, if there is one.
fn push_value(shown: &mut Vec<Val>, values: &[Val], number: u32) -> Result<(), NoMemory>
    ensures { OnOk result (shown.new.items ≡ shown.old.items ++ picked (number ∷ []) values.now) }
{
    if let Some(value) = values.get(number as usize) {
        shown.push(*value)?;
    }
    Ok(())
}

impl Shown {
    /// The shown leaves of a layout.
    pub fn of(alloc: Global, layout: &Layout) -> Result<Shown, NoMemory>
        ensures { IfOk result (λ shown. shown ≡ shown_numbers layout.now.leaves) }
    {
        let numbers = shown_numbers(alloc, layout.leaves())?;
        Ok(Shown { numbers })
    }

    fn values(&self, alloc: Global, values: &[Val]) -> Result<Vec<Val>, NoMemory>
        ensures { IfOk result (λ shown. shown.items ≡ picked self.now values.now) }
    {
        let mut shown = Vec::new(alloc);
        for number in &self.numbers {
            push_value(&mut shown, values, *number)?;
        }
        Ok(shown)
    }

    /// A row with the values of the shown leaves, of the values of all leaves by number.
    pub fn row(&self, alloc: Global, outcome: Outcome, values: &[Val]) -> Result<TraceRow, NoMemory>
        ensures outcome { IfOk result (λ row. row.outcome ≡ outcome) }
        ensures values { IfOk result (λ row. row.values ≡ picked self.now values.now) }
    {
        let values = Items::from_vec(self.values(alloc, values)?);
        Ok(TraceRow { outcome, values })
    }
}

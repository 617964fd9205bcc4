//! The values of a retained file, in a new version.
ghost use Rattle.std.specs.Prelude.{◌≡◌, ◌≤◌, ℕ, List, Option, IfOk, IfErr, OnOk};
ghost use Rattle.plcx_io.specs.Counts.{Rose};
ghost use Rattle.plcx_types.specs.Lists.{Each};
ghost use Rattle.plcx_state.specs.Retains.{IsRetainedOf};
ghost use Rattle.plcx_state.specs.Tables.{HasPlainNames};
ghost use Rattle.plcx_traced.specs.Files.{TellsRetained};
ghost use Rattle.plcx_keep.specs.Carries.{carry_of};
ghost use Rattle.plcx_keep.specs.States.{AreRowsOf};
ghost use Rattle.plcx_migrate.specs.Migrations.{AreLinesOf, IsWritten, IsMigrated, WhyNotMigrated};

use crate::error::MigrateError;
use plcx_io::Desk;
use plcx_keep::{Carry, carried, carried_lines, carry_over, lines_are_read_again, report_text};
use plcx_state::{Layout, Retained};
use plcx_traced::{RunError, begun};
use plcx_types::NoMemory;
use std::alloc::Global;

/// What is written of a migration.
#[derive(Clone, Copy, Debug, PartialEq, Eq)]
pub enum Form {
    /// The retained lines of the new version.
    Lines,
    /// What became of each value.
    Report,
}

/// The state that the retained file of the old version stands for.
fn kept<D: Desk>(
    alloc: Global,
    desk: &mut D,
    before: &Layout,
    retain: &str,
) -> Result<Retained, MigrateError>
    ensures ok { IfOk result (λ kept. TellsRetained (D.file desk.old retain.now) before.now.leaves kept) }
    ensures state { IfOk result (λ kept. IsRetainedOf before.now.leaves kept) }
    ensures err { IfErr result (WhyNotMigrated (D.file desk.old retain.now)
        (Rose (D.faults desk.old retain.now) (D.faults desk.new retain.now)) before.now.leaves) }
    ensures files { (other : List ℕ) → D.file desk.new other ≡ D.file desk.old other }
    ensures later { (other : List ℕ) → D.faults desk.old other ≤ D.faults desk.new other }
{
    match begun(alloc, desk, before, Some(retain)) {
        Ok(kept) => Ok(kept),
        Err(RunError::RetainedRead) => Err(MigrateError::RetainedRead),
        Err(RunError::Line { line }) => Err(MigrateError::Line { line }),
        Err(RunError::NoMemory) => Err(MigrateError::NoMemory),
        Err(RunError::NoProgram { .. } | RunError::EventsRead | RunError::Row { .. }) => {
            unreachable!()
        }
    }
}

/// The retained lines of the state that rows make.
fn lines(alloc: Global, after: &Layout, carry: &Carry) -> Result<Vec<u8>, NoMemory>
    requires rows { AreRowsOf after.now.leaves carry.now.rows }
    requires plain { Each HasPlainNames after.now.leaves }
    ensures { IfOk result (λ text. AreLinesOf after.now.leaves carry.now.rows text.items) }
{
    lines_are_read_again();
    let _ = after.leaves();
    let state = carried(alloc, after, carry)?;
    carried_lines(alloc, after, &state)
}

/// What is written of the values of a state of the old version.
fn written(
    alloc: Global,
    before: &Layout,
    after: &Layout,
    kept: &Retained,
    form: Form,
) -> Result<Vec<u8>, NoMemory>
    requires { IsRetainedOf before.now.leaves kept.now }
    ensures text { IfOk result (λ text. IsWritten form before.now.leaves after.now.leaves
        (carry_of before.now.leaves kept.now after.now.leaves) text.items) }
    ensures plain { OnOk result (Each HasPlainNames before.now.leaves) }
{
    let carry = carry_over(alloc, before, after, kept)?;
    match form {
        Form::Lines => lines(alloc, after, &carry),
        Form::Report => report_text(alloc, before, after, &carry),
    }
}

/// What is written of the values of a retained file of the layout `before`, in the layout `after`.
pub fn migrate<D: Desk>(
    alloc: Global,
    desk: &mut D,
    before: &Layout,
    after: &Layout,
    retain: &str,
    form: Form,
) -> Result<Vec<u8>, MigrateError>
    ensures ok { IfOk result (λ text. IsMigrated form (D.file desk.old retain.now) before.now.leaves after.now.leaves text.items) }
    ensures err { IfErr result (WhyNotMigrated (D.file desk.old retain.now)
        (Rose (D.faults desk.old retain.now) (D.faults desk.new retain.now)) before.now.leaves) }
    ensures files { (other : List ℕ) → D.file desk.new other ≡ D.file desk.old other }
    ensures later { (other : List ℕ) → D.faults desk.old other ≤ D.faults desk.new other }
{
    let kept = kept(alloc, desk, before, retain)?;
    Ok(written(alloc, before, after, &kept, form)?)
}

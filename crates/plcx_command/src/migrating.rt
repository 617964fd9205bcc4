//! Retained values of an old version of a project, for a new one.
ghost use Rattle.std.specs.Prelude.{◌≡◌, ◌≤◌, ℕ, List, IfOk};
ghost use Rattle.std.specs.Option.{option_map};
ghost use Rattle.plcx_io.specs.Counts.{Rose};
ghost use Rattle.plcx_traced.specs.Files.{IsLoaded};
ghost use Rattle.plcx_words.specs.Says.{said_by_migration};
ghost use Rattle.plcx_command.specs.Migrated.{HasVersion, AnswersMigration};
ghost use Rattle.plcx_command.specs.ReplyOf.{answer_of};
ghost use Rattle.plcx_command.specs.Says.{SaysMigration};
ghost use Rattle.plcx_command.specs.Taken.{IsAccepted};

use crate::line::ProjectFile;
use crate::replies::{no_program, read_fault, wrong_line};
use crate::reply::Reply;
use crate::taking::{Taken, take_file};
use plcx_check::Checked;
use plcx_io::Desk;
use plcx_migrate::{Form, MigrateError, VersionError, migrate, version};
use plcx_state::Layout;
use plcx_types::NoMemory;
use plcx_words::Migration;
use std::alloc::Global;

/// A version of a project: the layout of its program, or refused with a reply.
#[derive(Drop)]
pub enum Version {
    Laid(Layout),
    Refused(Reply),
}

ghost use Rattle.plcx_command.specs.VersionOf.{IsVersionOf, IsVersionFrom};

/// The version of a project that is accepted.
fn version_of(
    alloc: Global,
    file: ProjectFile,
    checked: &Checked,
    program: Option<&str>,
) -> Result<Version, NoMemory>
    ensures { IfOk result (IsVersionOf file checked.now (option_map (λ s. s.now) program.entry)) }
{
    match version(alloc, checked, program) {
        Ok(layout) => Ok(Version::Laid(layout)),
        Err(VersionError::NoProgram { programs }) => Ok(Version::Refused(no_program(
            alloc, file, program, programs,
        )?)),
        Err(VersionError::NoMemory) => Err(NoMemory),
    }
}

/// Reads a project file, and lays out the program that is named, or the only one.
fn take_version<D: Desk>(
    alloc: Global,
    desk: &mut D,
    file: ProjectFile,
    name: &str,
    program: Option<&str>,
) -> Result<Version, NoMemory>
    ensures version { IfOk result (IsVersionFrom file (D.file desk.old name.now)
        (Rose (D.faults desk.old name.now) (D.faults desk.new name.now)) name.now (option_map (λ s. s.now) program.entry)) }
    ensures files { (other : List ℕ) → D.file desk.new other ≡ D.file desk.old other }
    ensures later { (other : List ℕ) → D.faults desk.old other ≤ D.faults desk.new other }
{
    match take_file(alloc, desk, file, name)? {
        Taken::Accepted(checked) => version_of(alloc, file, &checked, program),
        Taken::Refused(reply) => Ok(Version::Refused(reply)),
    }
}

/// What is answered where both versions are there.
fn migrated<D: Desk>(
    alloc: Global,
    desk: &mut D,
    before: &Layout,
    after: &Layout,
    migration: &Migration<'_>,
    form: Form,
) -> Result<Reply, NoMemory>
    ensures { IfOk result (λ reply. (old new : List ℕ) → HasVersion old (said_by_migration migration.now).program before.now
        → IsLoaded (D.file desk.old migration.now.new.now) new → HasVersion new (said_by_migration migration.now).program after.now
        → AnswersMigration (D.file desk.old) (λ other. Rose (D.faults desk.old other) (D.faults desk.new other))
        form (said_by_migration migration.now) old (answer_of reply)) }
{
    match migrate(alloc, desk, before, after, migration.retain, form) {
        Ok(text) => Ok(Reply::Output(text)),
        Err(MigrateError::RetainedRead) => read_fault(alloc, migration.retain),
        Err(MigrateError::Line { line }) => wrong_line(alloc, line),
        Err(MigrateError::NoMemory) => Err(NoMemory),
    }
}

/// What is answered where the old version is there: the new file comes next.
fn migrated_from<D: Desk>(
    alloc: Global,
    desk: &mut D,
    before: &Layout,
    migration: &Migration<'_>,
    form: Form,
) -> Result<Reply, NoMemory>
    ensures { IfOk result (λ reply. (old : List ℕ) → HasVersion old (said_by_migration migration.now).program before.now
        → AnswersMigration (D.file desk.old) (λ other. Rose (D.faults desk.old other) (D.faults desk.new other))
        form (said_by_migration migration.now) old (answer_of reply)) }
{
    let (new, program) = (migration.new, migration.program);
    match take_version(alloc, desk, ProjectFile::New, new, program)? {
        Version::Laid(after) => migrated(alloc, desk, before, &after, migration, form),
        Version::Refused(reply) => Ok(reply),
    }
}

/// Reads both versions of a project and a retained file of the old one, and answers what becomes of its values.
pub fn migrate_file<D: Desk>(
    alloc: Global,
    desk: &mut D,
    migration: &Migration<'_>,
    form: Form,
) -> Result<Reply, NoMemory>
    ensures { IfOk result (λ reply. SaysMigration (D.file desk.old)
        (λ other. Rose (D.faults desk.old other) (D.faults desk.new other)) form (said_by_migration migration.now) (answer_of reply)) }
{
    let (old, program) = (migration.old, migration.program);
    match take_version(alloc, desk, ProjectFile::First, old, program)? {
        Version::Laid(before) => migrated_from(alloc, desk, &before, migration, form),
        Version::Refused(reply) => Ok(reply),
    }
}

//! The layout of a version of a project.
ghost use Rattle.std.specs.Prelude.{IfOk, IfErr};
ghost use Rattle.std.specs.Option.{option_map};
ghost use Rattle.plcx_simulate.specs.Programs.{diagrams_in};
ghost use Rattle.plcx_migrate.specs.Versions.{IsVersion, WhyNoVersion};

use crate::error::VersionError;
use plcx_check::Checked;
use plcx_simulate::{layout_of, program_of};
use plcx_state::Layout;
use std::alloc::Global;

/// The layout of the program that is named, or of the only one where none is.
pub fn version(
    alloc: Global,
    checked: &Checked,
    program: Option<&str>,
) -> Result<Layout, VersionError>
    ensures ok { IfOk result (IsVersion (diagrams_in checked.now) (option_map (λ s. s.now) program.entry)) }
    ensures err { IfErr result (WhyNoVersion (diagrams_in checked.now) (option_map (λ s. s.now) program.entry)) }
{
    match program_of(checked, program) {
        Ok(program) => Ok(layout_of(alloc, checked, program)?),
        Err(programs) => Err(VersionError::NoProgram { programs }),
    }
}

//! What holds of the definitions, each on a function of its own.
ghost use Rattle.plcx_numbered.specs.Laws.{ScansAlike, PreparedRight, ProgramsAlike};

use plcx_steps::Watch;

/// A scan of what is prepared of a project is alike the diagram's, whoever watches.
pub fn scans_are_alike<W: Watch>()
    ensures { ScansAlike W.told }
{}

/// What is prepared of a project that fits has the right numbers.
pub fn prepared_is_right()
    ensures { PreparedRight }
{}

/// A scan of what is prepared of a project that fits is alike the diagram's, whoever watches.
pub fn programs_are_alike<W: Watch>()
    ensures { ProgramsAlike W.told }
{}

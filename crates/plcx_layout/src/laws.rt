//! What holds of the leaves of a program.
ghost use Rattle.plcx_layout.specs.Laws.{LeavesAreLaid, LeavesStand};

use plcx_fits::checked_fits;

/// The leaves by the types of the file are those of the program's diagram.
pub fn leaves_are_laid()
    ensures { LeavesAreLaid }
{}

/// The leaves of a program of a checked project can be laid out.
pub fn leaves_stand()
    ensures { LeavesStand }
{
    checked_fits();
}

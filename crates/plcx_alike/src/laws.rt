//! What holds of a diagram and its text behind the same events, each on a function of its own.
ghost use Rattle.plcx_alike.specs.Laws.{MachinesShowAlike, MachinesTellAlike};

use plcx_meaning::same_behavior;

/// Behind the same events the leaves that are declared have the same numbers on both sides, and the retained lines are
/// the same.
pub fn machines_show_alike()
    ensures { MachinesShowAlike }
{
    same_behavior();
}

/// Of an event behind the same events both sides tell the same, and it is a step.
pub fn machines_tell_alike()
    ensures { MachinesTellAlike }
{
    same_behavior();
}

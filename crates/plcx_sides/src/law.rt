//! What holds of both sides behind the same events, and of runs over the same files.
ghost use Rattle.plcx_sides.specs.Both.{SidesShowAlike, SidesTellAlike};
ghost use Rattle.plcx_sides.specs.SameRuns.{RunsComeToTheSame};

use plcx_alike::{machines_show_alike, machines_tell_alike};
use plcx_meaning::{outside_leaves, same_behavior};

/// What both hold of their declared leaves is the same, and so are their retained lines.
pub fn sides_show_alike()
    ensures { SidesShowAlike }
{
    machines_show_alike();
}

/// Each event that comes next comes out alike.
pub fn sides_tell_alike()
    ensures { SidesTellAlike }
{
    machines_tell_alike();
}

/// What a run of the diagrams comes to is what a run of their text comes to, a trace or a refusal.
pub fn runs_come_to_the_same()
    ensures { RunsComeToTheSame }
{
    same_behavior();
    outside_leaves();
}

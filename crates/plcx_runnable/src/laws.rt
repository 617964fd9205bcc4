//! What holds of the definitions, each on a function of its own.
ghost use Rattle.plcx_runnable.specs.Laws.{BodiesThere, PreparedCanRun, ProgramsStand, TypesStay};

/// Each POU has its body.
pub fn bodies_are_there()
    ensures { BodiesThere }
{}

/// What is prepared of a project that fits is sound, and uses each place at its type.
pub fn prepared_can_run()
    ensures { PreparedCanRun }
{}

/// A program stands at the origin, where its leaves, memories and wires have room.
pub fn programs_stand()
    ensures { ProgramsStand }
{}

/// A scan keeps the types of a list of values.
pub fn types_stay()
    ensures { TypesStay }
{}

//! What holds of the definitions, each on a function of its own.
ghost use Rattle.plcx_text_runnable.specs.Laws.{BodiesThere, ExpressionsCanRun, PreparedCanRun, PreparedRight, ProgramsStand, TextsAlike};

/// Each POU has its body.
pub fn bodies_are_there()
    ensures { BodiesThere }
{}

/// The lines that are prepared of an expression are sound and typed.
pub fn expressions_can_run()
    ensures { ExpressionsCanRun }
{}

/// What is prepared of a ready unit has the right numbers.
pub fn prepared_is_right()
    ensures { PreparedRight }
{}

/// A scan of what is prepared of a ready unit is alike the unit's.
pub fn texts_are_alike()
    ensures { TextsAlike }
{}

/// What is prepared of a ready unit is sound, and uses each place at its type.
pub fn prepared_can_run()
    ensures { PreparedCanRun }
{}

/// A program stands at the origin, where its leaves and wires have room.
pub fn programs_stand()
    ensures { ProgramsStand }
{}

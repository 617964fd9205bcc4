//! What holds of the definitions, each on a function of its own.
ghost use Rattle.plcx_text_numbered.specs.Example.{ExampleIsPrepared};
ghost use Rattle.plcx_text_numbered.specs.Laws.{ExpressionsAlike, ScansAlike};

/// Lines that are prepared of an expression compute its value, or stop at its fault.
pub fn expressions_are_alike()
    ensures { ExpressionsAlike }
{}

/// A scan of what is prepared of a unit is alike the unit's.
pub fn scans_are_alike()
    ensures { ScansAlike }
{}

/// A text with the example's lists is prepared of the example's unit.
pub fn example_is_prepared()
    ensures { ExampleIsPrepared }
{}

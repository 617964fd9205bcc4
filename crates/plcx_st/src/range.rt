//! The text of a diagram can be printed and read again.
ghost use Rattle.plcx_meaning.specs.Diagram.{Project};
ghost use Rattle.plcx_meaning.specs.Fits.{ProjectFits};
ghost use Rattle.plcx_meaning.specs.Templates.{unit_of};
ghost use Rattle.plcx_st.specs.InRange.{UnitInRange};
ghost use Rattle.plcx_st.specs.Fitting.{UnitFits};

/// The text of a project that fits is in range, and its literals lie in their types.
#[tactic(auto, using(crate::proofs::RangeUnits::in_range, crate::proofs::RangeUnits::fits_types))]
pub fn texts_are_in_range()
    ensures range { (project : Project) → ProjectFits project → UnitInRange (unit_of project) }
    ensures fits { (project : Project) → ProjectFits project → UnitFits (unit_of project) }
{}

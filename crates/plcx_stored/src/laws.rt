//! What holds of stores between two scans, each on a function of its own.
ghost use Rattle.plcx_stored.specs.Laws.{StoreOpens, InputFits, InputsAreStored, StoreRestarts, StoreShows, ScansAreStored, StoreIsTyped, OneAgreement};

use plcx_numbered::programs_are_alike;
use plcx_steps::Watch;

/// A store that is opened agrees with the diagram as it begins from the same retained state.
pub fn store_opens()
    ensures { StoreOpens }
{}

/// Inputs that are set one after another are those that the diagram's scan begins with, and each has its leaf.
pub fn inputs_are_stored()
    ensures fits { InputFits }
    ensures stored { InputsAreStored }
{}

/// A restart does to a store what it does to the diagram.
pub fn store_restarts()
    ensures { StoreRestarts }
{}

/// A store that agrees shows what the diagram shows.
pub fn store_shows()
    ensures { StoreShows }
{}

/// A scan of what is prepared is told as the diagram's, leaves a store that agrees behind it, and is heard alike.
pub fn scans_are_stored<W: Watch>()
    ensures { ScansAreStored W.told }
{
    programs_are_alike::<W>();
}

/// A store has the types of its program.
pub fn store_is_typed()
    ensures { StoreIsTyped }
{}

/// That a layout is laid for a program, and that a store agrees, are known in one way alone.
pub fn one_agreement()
    ensures { OneAgreement }
{}

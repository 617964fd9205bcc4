//! What holds of stores between two scans, each on a function of its own.
ghost use Rattle.plcx_text_stored.specs.Laws.{StoreOpens, InputsAreStored, StoreRestarts, StoreShows, ScansAreStored, StoreIsTyped, OneAgreement};

use plcx_text_runnable::texts_are_alike;

/// A store that is opened agrees with the text as it begins from the same retained state.
pub fn store_opens()
    ensures { StoreOpens }
{}

/// Inputs that are set one after another are those that the text's scan begins with.
pub fn inputs_are_stored()
    ensures { InputsAreStored }
{}

/// A restart does to a store what it does to the text.
pub fn store_restarts()
    ensures { StoreRestarts }
{}

/// A store that agrees shows what the text shows.
pub fn store_shows()
    ensures { StoreShows }
{}

/// A scan of what is prepared is told as the text's, and leaves a store that agrees behind it.
pub fn scans_are_stored()
    ensures { ScansAreStored }
{
    texts_are_alike();
}

/// A store has the types of its program.
pub fn store_is_typed()
    ensures { StoreIsTyped }
{}

/// That a layout is laid for a program, and that a store agrees, are known in one way alone.
pub fn one_agreement()
    ensures { OneAgreement }
{}

//! What holds of the definitions, each on a function of its own.
ghost use Rattle.plcx_fits.specs.Laws.{CheckedFits, OneDiagram};

use plcx_order::{one_list_of_networks, one_order};

/// The diagram of a checked project keeps all that the meaning of diagrams presumes.
pub fn checked_fits()
    ensures { CheckedFits }
{}

/// A project has one diagram: the rules leave no choice of its links, its types and its plan.
pub fn one_diagram()
    ensures { OneDiagram }
{
    one_order();
    one_list_of_networks();
}

//! The statements of networks.
ghost use Rattle.std.specs.Prelude.{◌≡◌, [], ◌∷◌, map, IfOk, OnOk};
ghost use Rattle.plcx_types.specs.Lists.{Each};
ghost use Rattle.plcx_meaning.specs.Templates.{elements_text, straight_text};
ghost use Rattle.plcx_st.specs.Meant.{stmt_meant};
ghost use Rattle.plcx_st.specs.InRange.{StatementInRange};
ghost use Rattle.plcx_drawn.specs.Shown.{shown_network, shown_networks};
ghost use Rattle.plcx_lower.specs.Adds.{Adds};
ghost use Rattle.plcx_lower.specs.Does.{DoesNetwork};

use crate::body::Body;
use plcx_drawn::Drawing;
use plcx_st::Stmt;
use plcx_types::NoMemory;
use sqlite_items::at;
use std::alloc::Global;

impl Body {
    /// The element at a place, if there is one.
    fn put_place(&mut self, drawing: &Drawing, place: u32) -> Result<(), NoMemory>
        requires { Each StatementInRange (elements_text (shown_network drawing.now (place ∷ []))) }
        ensures { OnOk result (Adds self.old self.new (elements_text (shown_network drawing.now (place ∷ [])))) }
    {
        match at(drawing.elements(), place as usize) {
            Some(element) => self.put_element(element),
            None => Ok(()),
        }
    }

    /// The elements at these places, one after another.
    fn put_network(&mut self, drawing: &Drawing, places: &[u32]) -> Result<(), NoMemory>
        requires { Each StatementInRange (elements_text (shown_network drawing.now places.now)) }
        ensures { OnOk result (Adds self.old self.new (elements_text (shown_network drawing.now places.now))) }
    {
        for place in places {
            self.put_place(drawing, *place)?;
        }
        Ok(())
    }
}

/// The statements of a network: its elements at these places, one after another. They do what the elements do.
pub fn lower_network(
    alloc: Global,
    drawing: &Drawing,
    places: &[u32],
) -> Result<Vec<Stmt>, NoMemory>
    requires { Each StatementInRange (elements_text (shown_network drawing.now places.now)) }
    ensures text { IfOk result (λ statements. map stmt_meant statements.items ≡ elements_text (shown_network drawing.now places.now)) }
    ensures does { IfOk result (λ statements. DoesNetwork (shown_network drawing.now places.now) (map stmt_meant statements.items)) }
{
    let mut body = Body::new(alloc);
    body.put_network(drawing, places)?;
    Ok(body.statements)
}

/// The statements of all networks of a POU, one network after another: a body without jump and return.
pub fn lower_networks(alloc: Global, drawing: &Drawing) -> Result<Vec<Stmt>, NoMemory>
    requires { Each StatementInRange (straight_text (shown_networks drawing.now)) }
    ensures { IfOk result (λ statements. map stmt_meant statements.items ≡ straight_text (shown_networks drawing.now)) }
{
    let mut body = Body::new(alloc);
    for network in drawing.networks {
        body.put_network(drawing, network.as_slice())?;
    }
    Ok(body.statements)
}

//! The elements of a POU.
ghost use Rattle.std.specs.Prelude.{◌≡◌, map, take, drop, IfOk};
ghost use Rattle.plcx_drawn.specs.Shown.{shown_element};
ghost use Rattle.plcx_model.specs.Numbering.{pins_of};
ghost use Rattle.plcx_view.specs.Diagrams.{element_of, elements_from, elements_of};
ghost use Rattle.plcx_draw.specs.Feedback.{shown_bare};
ghost use Rattle.plcx_draw.specs.Pins.{shown_pins};
ghost use Rattle.plcx_draw.specs.Sheets.{IsKnown};

use crate::feedback::{Bare, Feedback, with_fed};
use crate::known::Known;
use crate::pins::Pins;
use crate::sheet::Sheet;
use plcx_drawn::Element;
use plcx_model::Kind;
use plcx_names::{Owner, Scope};
use plcx_types::NoMemory;
use std::alloc::Global;

/// The pins behind those of an element of this kind.
fn behind<'a>(kind: &Kind, pins: Pins<'a>) -> Pins<'a>
    ensures { shown_pins result ≡ drop (pins_of kind.now) (shown_pins pins.entry) }
{
    match kind {
        Kind::Skipped | Kind::LeftRail | Kind::In { .. } | Kind::Label { .. } => pins,
        Kind::Block {
            inputs,
            in_outs,
            ..
        } => pins.behind(inputs.len()).behind(in_outs.len()),
        _ => pins.rest(),
    }
}

impl<'s, 'a> Sheet<'s, 'a> {
    /// An element, before it is known which of its outputs feed back.
    fn element_of(
        &self,
        alloc: Global,
        known: &Known<'a>,
        pins: Pins<'a>,
    ) -> Result<Bare<'a>, NoMemory>
        requires { IsKnown self.now known.now }
        ensures { IfOk result (λ bare. shown_bare bare ≡ element_of self.now.pous self.now.pou (take (pins_of known.now.element.now.kind) (shown_pins pins.entry)) known.now.element.now) }
    {
        match self.kind_of(alloc, known, pins) {
            Err(error) => Err(error),
            Ok(kind) => Ok(Bare {
                id: known.element.local_id,
                kind,
            }),
        }
    }

    /// The elements of a body with these pins.
    fn elements_of(&self, alloc: Global, pins: Pins<'a>) -> Result<Vec<Bare<'a>>, NoMemory>
        ensures { IfOk result (λ all. map shown_bare all.items ≡ elements_from self.now.pous self.now.pou (shown_pins pins.entry) self.now.pou.body.elements) }
    {
        let known = self.known();
        let mut left = pins;
        let mut all = Vec::new(alloc);
        for one in known {
            all.push(self.element_of(alloc, one, left)?)?;
            left = behind(&one.element.kind, left);
        }
        Ok(all)
    }
}

/// The elements of a POU, with those of their outputs that feed back.
pub(crate) fn elements_of<'a>(
    alloc: Global,
    scope: &Scope<'a>,
    owner: &Owner<'a>,
    pins: Pins<'a>,
) -> Result<Vec<Element<'a>>, NoMemory>
    ensures { IfOk result (λ all. map shown_element all.items ≡ elements_of scope.now owner.now (shown_pins pins.entry)) }
{
    let sheet = Sheet::of(alloc, scope, owner)?;
    let bare = sheet.elements_of(alloc, pins)?;
    let feedback = Feedback::of(alloc, &bare)?;
    Ok(with_fed(alloc, &feedback, bare)?)
}

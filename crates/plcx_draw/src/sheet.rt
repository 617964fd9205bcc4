//! A POU with what the texts of its elements lead to, and what stands at its input pins.
ghost use Rattle.std.specs.Prelude.{◌≡◌, ◌<◌, Some, map, option_map, slice_get, length, IfOk, []};
ghost use Rattle.std.specs.List.{zip};
ghost use Rattle.plcx_drawn.specs.Shown.{shown_source, shown_link};
ghost use Rattle.plcx_view.specs.Links.{source_of, link_of, link_at, link_by};
ghost use Rattle.plcx_draw.specs.Known.{shown_known, looked_up};
ghost use Rattle.plcx_draw.specs.Pins.{shown_pin, shown_pins};
ghost use Rattle.plcx_draw.specs.Sheets.{AreKnown};

use crate::known::{Known, look_up};
use crate::pins::{Pin, Pins};
use plcx_drawn::{Link, Source};
use plcx_model::BodyElement;
use plcx_names::{Owner, Scope};
use plcx_types::{NoMemory, Ty};
use sqlite_items::{Items, at};
use std::alloc::Global;
use std::marker::Model;

/// A POU among those of its project, with its elements and what their texts lead to.
#[derive(Drop)]
pub(crate) struct Sheet<'s, 'a> {
    pub(crate) scope: &'s Scope<'a>,
    pub(crate) owner: &'s Owner<'a>,
    known: Vec<Known<'a>>,
}

impl<'s, 'a> Model for Sheet<'s, 'a> {
    ghost use Rattle.plcx_draw.specs.Sheets.{Placed, AreKnown};

    ghost Value = { Placed };

    ghost view = { λ s. record { pous = s.scope.now; pou = s.owner.now } };

    ghost invariant = { λ s. AreKnown s.scope.now s.owner.now s.known.items };
}

/// Each element, with what its texts lead to.
fn known_of<'a>(
    alloc: Global,
    scope: &Scope<'a>,
    owner: &Owner<'a>,
    elements: &'a [BodyElement],
) -> Result<Vec<Known<'a>>, NoMemory>
    ensures { IfOk result (λ all. map shown_known all.items ≡ map (looked_up scope.now owner.now) elements.now) }
{
    let mut all = Vec::new(alloc);
    for element in elements {
        all.push(look_up(alloc, scope, owner, element)?)?;
    }
    Ok(all)
}

impl<'s, 'a> Sheet<'s, 'a> {
    /// This POU.
    pub(crate) fn of(
        alloc: Global,
        scope: &'s Scope<'a>,
        owner: &'s Owner<'a>,
    ) -> Result<Sheet<'s, 'a>, NoMemory>
        ensures { IfOk result (λ sheet. sheet ≡ record { pous = scope.now; pou = owner.now }) }
    {
        let known = known_of(alloc, scope, owner, owner.pou().body.elements())?;
        Ok(Sheet {
            scope,
            owner,
            known,
        })
    }

    /// Its elements, in the order of the file.
    pub(crate) fn known(&self) -> &[Known<'a>]
        ensures { AreKnown self.now.pous self.now.pou result.now }
    {
        &self.known
    }

    /// The element at a place.
    pub(crate) fn at(&self, place: u32) -> Option<&Known<'a>>
        ensures { option_map (λ k. shown_known k.now) result ≡ option_map (looked_up self.now.pous self.now.pou) (slice_get self.now.pou.body.elements place) }
    {
        at(self.known(), place as usize)
    }

    /// What a source gives.
    fn source_of(&self, source: plcx_model::Source, back: bool) -> Source<'a>
        ensures { shown_source result ≡ source_of self.now.pous self.now.pou (source, back) }
    {
        match self.at(source.element) {
            None => Source::Rail,
            Some(known) => known.gives(source.pin, back),
        }
    }

    /// What the sources of a pin give.
    fn sources_of(
        &self,
        alloc: Global,
        sources: &[plcx_model::Source],
        marks: &[bool],
    ) -> Result<Vec<Source<'a>>, NoMemory>
        ensures { IfOk result (λ all. map shown_source all.items ≡ map (source_of self.now.pous self.now.pou) (zip sources.now marks.now)) }
    {
        let mut all = Vec::new(alloc);
        for i in 0..sources.len().min(marks.len()) {
            all.push(self.source_of(sources[i], marks[i]))?;
        }
        Ok(all)
    }

    /// What stands at a pin.
    pub(crate) fn link_of(
        &self,
        alloc: Global,
        pin: Pin,
        negated: bool,
    ) -> Result<Link<'a>, NoMemory>
        ensures { IfOk result (λ link. shown_link link ≡ link_of self.now.pous self.now.pou negated (shown_pin pin.entry)) }
    {
        if pin.sources.is_empty() {
            return Ok(unwired(alloc, pin.ty, negated));
        }
        if pin.marks.is_empty() {
            return Ok(unwired(alloc, pin.ty, negated));
        }
        let others = self.sources_of(alloc, &pin.sources[1..], &pin.marks[1..])?;
        Ok(Link {
            ty: pin.ty,
            negated,
            first: self.source_of(pin.sources[0], pin.marks[0]),
            others: Items::from_vec(others),
        })
    }

    /// What stands at the one pin of an element.
    pub(crate) fn link_at(&self, alloc: Global, pins: Pins) -> Result<Link<'a>, NoMemory>
        ensures { IfOk result (λ link. shown_link link ≡ link_at self.now.pous self.now.pou (shown_pins pins.entry)) }
    {
        match pins.first() {
            None => Ok(unwired(alloc, Ty::Bool, false)),
            Some(pin) => self.link_of(alloc, pin, false),
        }
    }
}

/// What stands at a pin without sources: FALSE or 0.
fn unwired<'a>(alloc: Global, ty: Ty, negated: bool) -> Link<'a>
    ensures { shown_link result ≡ link_by ty negated [] }
{
    Link {
        ty,
        negated,
        first: Source::Literal {
            negated: false,
            n: 0,
        },
        others: Items::new(alloc),
    }
}

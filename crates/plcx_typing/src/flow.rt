//! How types flow among the groups of a body.
ghost use Rattle.std.specs.Prelude.{◌≡◌, ◌<◌, ℕ, [], length, get_or, IfOk, OnOk};
ghost use Rattle.std.specs.List.{Contains};
ghost use Rattle.plcx_rules.specs.Types.{pin_at, gives_at, sources_at};
ghost use Rattle.plcx_typing.specs.Sheets.{sheet};
ghost use Rattle.plcx_typing.specs.Flows.{ArePlaced, IsFlowOf, IsGroupPin, Feeds, FeedsAt, Grows};

use crate::outputs::{output_at, sources_at};
use plcx_funcs::Class;
use plcx_model::Source;
use plcx_rules::{Form, Gives, Pin};
use plcx_types::{NoMemory, Ty};
use sqlite_items::Items;
use std::alloc::Global;

/// A type that comes to the group of the element at this place.
#[derive(Clone, Copy)]
pub(crate) struct Fact {
    pub element: u32,
    pub ty: Ty,
}

/// How types flow: what sources of declared types give to groups, and for each element the elements whose groups
/// take what its own gives.
#[derive(Drop)]
pub(crate) struct Flow {
    pub seeds: Vec<Fact>,
    pub next: Vec<Items<u32>>,
}

impl Flow {
    /// What a source at a group pin gives flows to the pin's element.
    fn feed(
        &mut self,
        forms: &[Form],
        pins: &[Pin],
        links: &[Items<Source>],
        pin: usize,
        source: Source,
    ) -> Result<(), NoMemory>
        requires placed { ArePlaced (length forms.now) pins.now }
        requires pin { pin < length pins.now }
        requires group { IsGroupPin (sheet forms.now pins.now links.now) pin }
        requires source { Contains (sources_at (sheet forms.now pins.now links.now) pin) source }
        requires flow { IsFlowOf (sheet forms.now pins.now links.now) self.old.seeds.items self.old.next.items }
        ensures flow { OnOk result (IsFlowOf (sheet forms.now pins.now links.now) self.new.seeds.items self.new.next.items) }
        ensures fed { OnOk result (Feeds self.new.seeds.items self.new.next.items (pin_at (sheet forms.now pins.now links.now) pin).element source
            (gives_at (sheet forms.now pins.now links.now) source)) }
        ensures grows { OnOk result (Grows self.old.seeds.items self.old.next.items self.new.seeds.items self.new.next.items) }
    {
        let element = pins[pin].element;
        match output_at(forms, source).gives {
            Gives::Typed(ty) => {
                self.seeds.push(Fact { element, ty })?;
            }
            Gives::Grouped => {
                self.next[source.element as usize].push(element)?;
            }
            Gives::Untyped(_) | Gives::Nothing => {}
        }
        Ok(())
    }

    /// What the sources at a pin give flows to the pin's element, if it is a group pin.
    fn feed_all(
        &mut self,
        forms: &[Form],
        pins: &[Pin],
        links: &[Items<Source>],
        pin: usize,
    ) -> Result<(), NoMemory>
        requires placed { ArePlaced (length forms.now) pins.now }
        requires pin { pin < length pins.now }
        requires flow { IsFlowOf (sheet forms.now pins.now links.now) self.old.seeds.items self.old.next.items }
        ensures flow { OnOk result (IsFlowOf (sheet forms.now pins.now links.now) self.new.seeds.items self.new.next.items) }
        ensures fed { OnOk result (IsGroupPin (sheet forms.now pins.now links.now) pin → FeedsAt (sheet forms.now pins.now links.now) self.new.seeds.items self.new.next.items pin) }
        ensures grows { OnOk result (Grows self.old.seeds.items self.old.next.items self.new.seeds.items self.new.next.items) }
    {
        let Some(Class::Group) = pins[pin].class else {
            return Ok(());
        };
        for source in sources_at(links, pin) {
            self.feed(forms, pins, links, pin, *source)?;
        }
        Ok(())
    }
}

/// Nothing flows.
fn still(alloc: Global, count: usize) -> Result<Flow, NoMemory>
    ensures seeds { IfOk result (λ flow. flow.seeds.items ≡ []) }
    ensures count { IfOk result (λ flow. length flow.next.items ≡ count) }
    ensures next { IfOk result (λ flow. (k : ℕ) → get_or flow.next.items k [] ≡ []) }
{
    let mut next = Vec::new(alloc);
    for _ in 0..count {
        next.push(Items::new(alloc))?;
    }
    Ok(Flow {
        seeds: Vec::new(alloc),
        next,
    })
}

/// What flows to the groups of a body, to connectors and to continuations.
pub(crate) fn flow_of(
    alloc: Global,
    forms: &[Form],
    pins: &[Pin],
    links: &[Items<Source>],
) -> Result<Flow, NoMemory>
    requires placed { ArePlaced (length forms.now) pins.now }
    ensures flow { IfOk result (λ flow. IsFlowOf (sheet forms.now pins.now links.now) flow.seeds.items flow.next.items) }
    ensures fed { IfOk result (λ flow. (i : ℕ) → i < length pins.now → IsGroupPin (sheet forms.now pins.now links.now) i
        → FeedsAt (sheet forms.now pins.now links.now) flow.seeds.items flow.next.items i) }
{
    let mut flow = still(alloc, forms.len())?;
    for pin in 0..pins.len() {
        flow.feed_all(forms, pins, links, pin)?;
    }
    Ok(flow)
}

//! What is found of a body: where the rules 34 to 36 are broken, and the types of its pins and wires.
ghost use Rattle.std.specs.Prelude.{◌≡◌, ◌<◌, ◌^◌, ℕ, [], map, length, get_or, IfOk};
ghost use Rattle.plcx_types.specs.declared.ty.Ty.{Ty};
ghost use Rattle.plcx_types.specs.declared.ty.Ty.TheVariants.{Bool};
ghost use Rattle.plcx_types.specs.TypeName.{all_types};
ghost use Rattle.plcx_rules.specs.declared.form.WireForm.{WireForm};
ghost use Rattle.plcx_rules.specs.Types.{pin_at, sources_at};
ghost use Rattle.plcx_rules.specs.Forms.{form_of, pins_from, wires_from};
ghost use Rattle.plcx_model.specs.declared.body.BodyElement.{BodyElement};
ghost use Rattle.plcx_typing.specs.Flows.{ArePlaced};
ghost use Rattle.plcx_typing.specs.Sheets.{sheet};
ghost use Rattle.plcx_typing.specs.Tests.{AreMarks, gives_has, pin_has};
ghost use Rattle.plcx_typing.specs.Judgings.{first_type, IsJudged};

use crate::closure::comes;
use crate::faults::faults;
use crate::flow::flow_of;
use crate::forms::layout_of;
use crate::outputs::sources_at;
use crate::rules::{gives_has, pin_has};
use plcx_model::{BodyElement, Source};
use plcx_names::{Owner, Scope};
use plcx_rules::{Form, Gives, Pin, TypeRule, WireForm};
use plcx_types::{ALL_TYPES, NoMemory, Ty};
use sqlite_items::Items;
use std::alloc::Global;

/// For each element of a body whether it breaks a rule, and a type for each input pin and each wire.
#[derive(Drop)]
pub(crate) struct Judged {
    pub untyped: Items<bool>,
    pub disagreeing: Items<bool>,
    pub outside: Items<bool>,
    pub inputs: Items<Ty>,
    pub wires: Items<Ty>,
}

fn pin_type_among(types: &[Ty], forms: &[Form], marks: &[bool], pin: Pin, sources: &[Source]) -> Ty
    ensures { result ≡ first_type (pin_has (sheet forms.now [] []) marks.now pin sources.now) types.now }
{
    for ty in types {
        if pin_has(forms, marks, pin, sources, *ty) {
            return *ty;
        }
    }
    Ty::Bool
}

fn given_type_among(types: &[Ty], marks: &[bool], element: u32, gives: Gives) -> Ty
    ensures { result ≡ first_type (gives_has marks.now element gives) types.now }
{
    for ty in types {
        if gives_has(marks, element, gives, *ty) {
            return *ty;
        }
    }
    Ty::Bool
}

/// The first type that each pin has; BOOL where it has none.
fn pin_types(
    alloc: Global,
    forms: &[Form],
    pins: &[Pin],
    links: &[Items<Source>],
    marks: &[bool],
) -> Result<Vec<Ty>, NoMemory>
    ensures count { IfOk result (λ types. length types.items ≡ length pins.now) }
    ensures types { IfOk result (λ types. (i : ℕ) → i < length pins.now
        → get_or types.items i Bool ≡ first_type (pin_has (sheet forms.now [] []) marks.now (pin_at (sheet [] pins.now []) i) (sources_at (sheet [] [] links.now) i)) all_types) }
{
    let mut types = Vec::new(alloc);
    for i in 0..pins.len() {
        types.push(pin_type_among(&ALL_TYPES, forms, marks, pins[i], sources_at(links, i)))?;
    }
    Ok(types)
}

/// The first type that each wire has; BOOL where it has none.
fn wire_types(alloc: Global, marks: &[bool], wires: &[WireForm]) -> Result<Vec<Ty>, NoMemory>
    ensures { IfOk result (λ types. types.items ≡ map (λ (w : WireForm). first_type (gives_has marks.now w.element w.gives) all_types) wires.now) }
{
    let mut types = Vec::new(alloc);
    for wire in wires {
        types.push(given_type_among(&ALL_TYPES, marks, wire.element, wire.gives))?;
    }
    Ok(types)
}

/// The types of all groups, connectors and continuations.
fn marks_of(
    alloc: Global,
    forms: &[Form],
    pins: &[Pin],
    links: &[Items<Source>],
) -> Result<Vec<bool>, NoMemory>
    requires few { length forms.now < 2 ^ 32 }
    requires placed { ArePlaced (length forms.now) pins.now }
    ensures { IfOk result (λ marks. AreMarks (sheet forms.now pins.now links.now) marks.items) }
{
    let flow = flow_of(alloc, forms, pins, links)?;
    Ok(comes(alloc, &flow, forms.len())?)
}

/// What is found by the form of a body.
fn judge_form(
    alloc: Global,
    forms: &[Form],
    pins: &[Pin],
    wires: &[WireForm],
    links: &[Items<Source>],
) -> Result<Judged, NoMemory>
    requires few { length forms.now < 2 ^ 32 }
    requires placed { ArePlaced (length forms.now) pins.now }
    ensures { IfOk result (IsJudged (sheet forms.now pins.now links.now) wires.now) }
{
    let marks = marks_of(alloc, forms, pins, links)?;
    let untyped = faults(alloc, TypeRule::NoType, forms, pins, links, &marks)?;
    let disagreeing = faults(alloc, TypeRule::Disagreement, forms, pins, links, &marks)?;
    let outside = faults(alloc, TypeRule::Range, forms, pins, links, &marks)?;
    let inputs = pin_types(alloc, forms, pins, links, &marks)?;
    let wires = wire_types(alloc, &marks, wires)?;
    Ok(Judged {
        untyped: Items::from_vec(untyped),
        disagreeing: Items::from_vec(disagreeing),
        outside: Items::from_vec(outside),
        inputs: Items::from_vec(inputs),
        wires: Items::from_vec(wires),
    })
}

/// What is found of a body, whose input pins have these sources.
pub(crate) fn judge(
    alloc: Global,
    scope: &Scope,
    owner: &Owner,
    elements: &[BodyElement],
    links: &[Items<Source>],
) -> Result<Judged, NoMemory>
    ensures { IfOk result (IsJudged (sheet (map (λ (x : BodyElement). form_of scope.now owner.now x.kind) elements.now) (pins_from scope.now owner.now 0 elements.now) links.now)
        (wires_from scope.now owner.now 0 elements.now)) }
{
    if elements.len() >= 4_294_967_296 {
        return Err(NoMemory);
    }
    let layout = layout_of(alloc, scope, owner, elements)?;
    Ok(judge_form(alloc, &layout.forms, &layout.pins, &layout.wires, links)?)
}

//! At which elements of a body a rule is broken: a mark for each.
ghost use Rattle.std.specs.Prelude.{◌≡◌, ◌<◌, ◌^◌, ℕ, [], ◌||◌, ◌&&◌, length, nat_eq, IfOk};
ghost use Rattle.std.specs.List.{list_any};
ghost use Rattle.std.specs.Bool.{Decides};
ghost use Rattle.plcx_rules.specs.Types.{form_at};
ghost use Rattle.plcx_rules.specs.TypingRules.{BreaksIn};
ghost use Rattle.plcx_typing.specs.Sheets.{sheet};
ghost use Rattle.plcx_typing.specs.Tests.{AreMarks};
ghost use Rattle.plcx_typing.specs.Faults.{flag, element_breaks, pin_breaks, literal_breaks, source_raises, pin_raises, pins_raise, breaks_at};

use crate::outputs::sources_at;
use crate::rules::{
    form_disagrees, has_no_type, is_literal, literal_disagrees, literal_outside, pin_disagrees,
};
use plcx_model::Source;
use plcx_rules::{Form, Pin, TypeRule};
use plcx_types::NoMemory;
use sqlite_items::Items;
use std::alloc::Global;

fn element_breaks(rule: TypeRule, marks: &[bool], element: u32, form: &Form) -> bool
    ensures { result ≡ element_breaks rule marks.now element form.now }
{
    match rule {
        TypeRule::NoType => has_no_type(marks, element, form.grouping),
        TypeRule::Disagreement => form_disagrees(marks, element, form),
        TypeRule::Range => false,
    }
}

fn pin_breaks(rule: TypeRule, forms: &[Form], marks: &[bool], pin: Pin, sources: &[Source]) -> bool
    ensures { result ≡ pin_breaks rule (sheet forms.now [] []) marks.now pin sources.now }
{
    match rule {
        TypeRule::Disagreement => pin_disagrees(forms, marks, pin, sources),
        TypeRule::NoType | TypeRule::Range => false,
    }
}

fn literal_breaks(
    rule: TypeRule,
    forms: &[Form],
    marks: &[bool],
    pin: Pin,
    sources: &[Source],
    element: u32,
) -> bool
    ensures { result ≡ literal_breaks rule (sheet forms.now [] []) marks.now pin sources.now element }
{
    match rule {
        TypeRule::NoType => false,
        TypeRule::Disagreement => literal_disagrees(forms, marks, pin, sources, element),
        TypeRule::Range => literal_outside(forms, marks, pin, sources, element),
    }
}

/// Marks an element, if there is one.
fn raise(flags: &mut Vec<bool>, element: u32)
    ensures count { length flags.new.items ≡ length flags.old.items }
    ensures flags { (x : ℕ) → x < length flags.old.items → flag flags.new.items x ≡ (flag flags.old.items x || nat_eq element x) }
{
    if (element as usize) < flags.len() {
        flags[element as usize] = true;
    }
}

/// Marks an inVariable that breaks a rule at a pin.
fn raise_literal(
    flags: &mut Vec<bool>,
    rule: TypeRule,
    forms: &[Form],
    marks: &[bool],
    pin: Pin,
    sources: &[Source],
    source: Source,
)
    ensures count { length flags.new.items ≡ length flags.old.items }
    ensures flags { (x : ℕ) → x < length flags.old.items → flag flags.new.items x ≡ (flag flags.old.items x || source_raises rule (sheet forms.now [] []) marks.now pin sources.now x source) }
{
    if is_literal(forms, source)
        && literal_breaks(rule, forms, marks, pin, sources, source.element)
    {
        raise(flags, source.element);
    }
}

/// Marks the inVariables that break a rule at a pin.
fn raise_literals(
    flags: &mut Vec<bool>,
    rule: TypeRule,
    forms: &[Form],
    marks: &[bool],
    pin: Pin,
    sources: &[Source],
)
    ensures count { length flags.new.items ≡ length flags.old.items }
    ensures flags { (x : ℕ) → x < length flags.old.items
        → flag flags.new.items x ≡ (flag flags.old.items x || list_any (source_raises rule (sheet forms.now [] []) marks.now pin sources.now x) sources.now) }
{
    for source in sources {
        raise_literal(flags, rule, forms, marks, pin, sources, *source);
    }
}

/// Marks the element of a pin at which a rule is broken.
fn raise_owner(
    flags: &mut Vec<bool>,
    rule: TypeRule,
    forms: &[Form],
    marks: &[bool],
    pin: Pin,
    sources: &[Source],
)
    ensures count { length flags.new.items ≡ length flags.old.items }
    ensures flags { (x : ℕ) → x < length flags.old.items
        → flag flags.new.items x ≡ (flag flags.old.items x || (nat_eq pin.element x && pin_breaks rule (sheet forms.now [] []) marks.now pin sources.now)) }
{
    if pin_breaks(rule, forms, marks, pin, sources) {
        raise(flags, pin.element);
    }
}

/// Marks what breaks a rule at a pin.
fn raise_pin(
    flags: &mut Vec<bool>,
    rule: TypeRule,
    forms: &[Form],
    marks: &[bool],
    pin: Pin,
    sources: &[Source],
)
    ensures count { length flags.new.items ≡ length flags.old.items }
    ensures flags { (x : ℕ) → x < length flags.old.items → flag flags.new.items x ≡ (flag flags.old.items x || pin_raises rule (sheet forms.now [] []) marks.now pin sources.now x) }
{
    raise_owner(flags, rule, forms, marks, pin, sources);
    raise_literals(flags, rule, forms, marks, pin, sources);
}

/// Marks what breaks a rule at any pin.
fn raise_pins(
    flags: &mut Vec<bool>,
    rule: TypeRule,
    forms: &[Form],
    pins: &[Pin],
    links: &[Items<Source>],
    marks: &[bool],
)
    ensures count { length flags.new.items ≡ length flags.old.items }
    ensures flags { (x : ℕ) → x < length flags.old.items → flag flags.new.items x ≡ (flag flags.old.items x || pins_raise rule (sheet forms.now pins.now links.now) marks.now x (length pins.now)) }
{
    for i in 0..pins.len() {
        raise_pin(flags, rule, forms, marks, pins[i], sources_at(links, i));
    }
}

/// For each element whether it breaks a rule by itself.
fn own_faults(
    alloc: Global,
    rule: TypeRule,
    forms: &[Form],
    marks: &[bool],
) -> Result<Vec<bool>, NoMemory>
    requires few { length forms.now < 2 ^ 32 }
    ensures count { IfOk result (λ flags. length flags.items ≡ length forms.now) }
    ensures flags { IfOk result (λ flags. (x : ℕ) → x < length forms.now → flag flags.items x ≡ element_breaks rule marks.now x (form_at (sheet forms.now [] []) x)) }
{
    let mut flags = Vec::new(alloc);
    for element in 0..forms.len() {
        flags.push(element_breaks(rule, marks, element as u32, &forms[element]))?;
    }
    Ok(flags)
}

/// For each element whether it breaks a rule.
pub(crate) fn faults(
    alloc: Global,
    rule: TypeRule,
    forms: &[Form],
    pins: &[Pin],
    links: &[Items<Source>],
    marks: &[bool],
) -> Result<Vec<bool>, NoMemory>
    requires few { length forms.now < 2 ^ 32 }
    requires marks { AreMarks (sheet forms.now pins.now links.now) marks.now }
    ensures count { IfOk result (λ flags. length flags.items ≡ length forms.now) }
    ensures flags { IfOk result (λ flags. (x : ℕ) → x < length forms.now → Decides (flag flags.items x) (BreaksIn rule (sheet forms.now pins.now links.now) x)) }
{
    let mut flags = own_faults(alloc, rule, forms, marks)?;
    raise_pins(&mut flags, rule, forms, pins, links, marks);
    Ok(flags)
}

//! The rules 34 to 36 as tests, by the marks of the types that come to groups.
ghost use Rattle.std.specs.Prelude.{◌≡◌, [], not, ◌&&◌};
ghost use Rattle.std.specs.List.{list_any};
ghost use Rattle.plcx_types.specs.TypeName.{same_ty};
ghost use Rattle.plcx_types.specs.Range.{fits};
ghost use Rattle.plcx_funcs.specs.Types.{is_bool, is_time};
ghost use Rattle.plcx_rules.specs.Types.{gives_at};
ghost use Rattle.plcx_typing.specs.Closure.{is_marked};
ghost use Rattle.plcx_typing.specs.Sheets.{sheet};
ghost use Rattle.plcx_typing.specs.Tests.{gives_has, source_has, is_literal, lone_has, class_has, pin_has, is_lone, is_barred, pin_disagrees_at, pin_disagrees, is_apart, is_passing, bars, has_other, group_disagrees_at, operand_disagrees, out_disagrees, outputs_disagree, form_disagrees, has_no_type, taken_has, only, literal_disagrees, number_outside, literal_outside};

use crate::closure::{mark_place, position};
use crate::outputs::{is_untyped, output_at};
use plcx_funcs::{Allowed, Class};
use plcx_model::Source;
use plcx_rules::{Form, Gives, Grouping, Out, Outputs, Pin};
use plcx_types::{ALL_TYPES, Ty, in_range};

fn same_ty(left: Ty, right: Ty) -> bool
    ensures { result ≡ same_ty left right }
{
    position(left) == position(right)
}

fn is_bool(ty: Ty) -> bool
    ensures { result ≡ is_bool ty }
{
    matches!(ty, Ty::Bool)
}

fn is_time(ty: Ty) -> bool
    ensures { result ≡ is_time ty }
{
    matches!(ty, Ty::Time)
}

fn is_marked(marks: &[bool], element: u32, ty: Ty) -> bool
    ensures { result ≡ is_marked marks.now element ty }
{
    match marks.get(mark_place(element, ty)) {
        Some(mark) => *mark,
        None => false,
    }
}

/// What an output of the element gives has the type.
pub(crate) fn gives_has(marks: &[bool], element: u32, gives: Gives, ty: Ty) -> bool
    ensures { result ≡ gives_has marks.now element gives ty }
{
    match gives {
        Gives::Typed(own) => same_ty(own, ty),
        Gives::Grouped => is_marked(marks, element, ty),
        Gives::Untyped(_) | Gives::Nothing => false,
    }
}

fn source_has(forms: &[Form], marks: &[bool], ty: Ty, source: Source) -> bool
    ensures { result ≡ source_has (sheet forms.now [] []) marks.now ty source }
{
    gives_has(marks, source.element, output_at(forms, source).gives, ty)
}

fn any_has(forms: &[Form], marks: &[bool], sources: &[Source], ty: Ty) -> bool
    ensures { result ≡ list_any (source_has (sheet forms.now [] []) marks.now ty) sources.now }
{
    sources
        .iter()
        .any(|source| source_has(forms, marks, ty, *source))
}

/// The source is an untyped literal.
pub(crate) fn is_literal(forms: &[Form], source: Source) -> bool
    ensures { result ≡ is_literal (sheet forms.now [] []) source }
{
    is_untyped(output_at(forms, source).gives)
}

fn any_literal(forms: &[Form], sources: &[Source]) -> bool
    ensures { result ≡ list_any (is_literal (sheet forms.now [] [])) sources.now }
{
    sources.iter().any(|source| is_literal(forms, *source))
}

fn lone_has(forms: &[Form], marks: &[bool], sources: &[Source], ty: Ty) -> bool
    ensures { result ≡ lone_has (sheet forms.now [] []) marks.now sources.now ty }
{
    any_has(forms, marks, sources, ty) || (same_ty(Ty::Dint, ty) && any_literal(forms, sources))
}

/// A pin with these sources has the type.
pub(crate) fn pin_has(forms: &[Form], marks: &[bool], pin: Pin, sources: &[Source], ty: Ty) -> bool
    ensures { result ≡ pin_has (sheet forms.now [] []) marks.now pin sources.now ty }
{
    match pin.class {
        Some(Class::Fixed(own)) => same_ty(own, ty),
        Some(Class::Group) => is_marked(marks, pin.element, ty),
        Some(Class::Lone) => lone_has(forms, marks, sources, ty),
        None => false,
    }
}

fn is_lone(class: Option<Class>) -> bool
    ensures { result ≡ is_lone class }
{
    match class {
        Some(Class::Lone) => true,
        Some(Class::Group) | Some(Class::Fixed(_)) | None => false,
    }
}

fn is_barred(forms: &[Form], pin: Pin, sources: &[Source], ty: Ty) -> bool
    ensures { result ≡ is_barred (sheet forms.now [] []) pin sources.now ty }
{
    (is_lone(pin.class) && !Allowed::Whole.has(ty))
        || ((is_time(ty) && any_literal(forms, sources))
            || (!is_bool(ty) && (pin.modified || 2 <= sources.len())))
}

fn pin_disagrees_at(forms: &[Form], marks: &[bool], pin: Pin, sources: &[Source], ty: Ty) -> bool
    ensures { result ≡ pin_disagrees_at (sheet forms.now [] []) marks.now pin sources.now ty }
{
    let has = pin_has(forms, marks, pin, sources, ty);
    (any_has(forms, marks, sources, ty) && !has) || (has && is_barred(forms, pin, sources, ty))
}

fn pin_disagrees_among(
    types: &[Ty],
    forms: &[Form],
    marks: &[bool],
    pin: Pin,
    sources: &[Source],
) -> bool
    ensures { result ≡ list_any (pin_disagrees_at (sheet forms.now [] []) marks.now pin sources.now) types.now }
{
    types
        .iter()
        .any(|ty| pin_disagrees_at(forms, marks, pin, sources, *ty))
}

/// Types disagree at a pin with these sources.
pub(crate) fn pin_disagrees(forms: &[Form], marks: &[bool], pin: Pin, sources: &[Source]) -> bool
    ensures { result ≡ pin_disagrees (sheet forms.now [] []) marks.now pin sources.now }
{
    pin_disagrees_among(&ALL_TYPES, forms, marks, pin, sources)
}

fn is_apart(grouping: Grouping) -> bool
    ensures { result ≡ is_apart grouping }
{
    matches!(grouping, Grouping::Apart)
}

fn is_passing(grouping: Grouping) -> bool
    ensures { result ≡ is_passing grouping }
{
    matches!(grouping, Grouping::Passing)
}

fn bars(grouping: Grouping, ty: Ty) -> bool
    ensures { result ≡ bars grouping ty }
{
    match grouping {
        Grouping::Function(allowed) => !allowed.has(ty),
        Grouping::Apart | Grouping::Passing => false,
    }
}

fn has_other_among(types: &[Ty], marks: &[bool], element: u32, ty: Ty) -> bool
    ensures { result ≡ list_any (λ u. is_marked marks.now element u && not (same_ty ty u)) types.now }
{
    types.iter().any(|other| is_marked(marks, element, *other) && !same_ty(ty, *other))
}

fn group_disagrees_at(marks: &[bool], element: u32, grouping: Grouping, ty: Ty) -> bool
    ensures { result ≡ group_disagrees_at marks.now element grouping ty }
{
    is_marked(marks, element, ty)
        && (bars(grouping, ty)
            || (!is_passing(grouping) && has_other_among(&ALL_TYPES, marks, element, ty)))
}

fn group_disagrees_among(types: &[Ty], marks: &[bool], element: u32, grouping: Grouping) -> bool
    ensures { result ≡ list_any (group_disagrees_at marks.now element grouping) types.now }
{
    types
        .iter()
        .any(|ty| group_disagrees_at(marks, element, grouping, *ty))
}

fn operand_disagrees(operand: Option<Ty>) -> bool
    ensures { result ≡ operand_disagrees operand }
{
    match operand {
        Some(ty) => !is_bool(ty),
        None => false,
    }
}

fn gives_no_bool_among(types: &[Ty], marks: &[bool], element: u32, gives: Gives) -> bool
    ensures { result ≡ list_any (λ t. gives_has marks.now element gives t && not (is_bool t)) types.now }
{
    types.iter().any(|ty| gives_has(marks, element, gives, *ty) && !is_bool(*ty))
}

fn out_disagrees(marks: &[bool], element: u32, out: Out) -> bool
    ensures { result ≡ out_disagrees marks.now element out }
{
    out.negated && gives_no_bool_among(&ALL_TYPES, marks, element, out.gives)
}

fn outputs_disagree(marks: &[bool], element: u32, outputs: &Outputs) -> bool
    ensures { result ≡ outputs_disagree marks.now element outputs.now }
{
    match outputs {
        Outputs::Absent => false,
        Outputs::Single(out) => out_disagrees(marks, element, *out),
        Outputs::Listed(outs) => any_out_disagrees(outs.as_slice(), marks, element),
    }
}

fn any_out_disagrees(outs: &[Out], marks: &[bool], element: u32) -> bool
    ensures { result ≡ list_any (out_disagrees marks.now element) outs.now }
{
    outs.iter().any(|out| out_disagrees(marks, element, *out))
}

/// Types disagree at an element, its input pins aside.
pub(crate) fn form_disagrees(marks: &[bool], element: u32, form: &Form) -> bool
    ensures { result ≡ form_disagrees marks.now element form.now }
{
    group_disagrees_among(&ALL_TYPES, marks, element, form.grouping)
        || (operand_disagrees(form.operand) || outputs_disagree(marks, element, &form.outputs))
}

fn any_marked_among(types: &[Ty], marks: &[bool], element: u32) -> bool
    ensures { result ≡ list_any (is_marked marks.now element) types.now }
{
    types.iter().any(|ty| is_marked(marks, element, *ty))
}

/// The pins of an element share types, and have none.
pub(crate) fn has_no_type(marks: &[bool], element: u32, grouping: Grouping) -> bool
    ensures { result ≡ has_no_type marks.now element grouping }
{
    !is_apart(grouping) && !any_marked_among(&ALL_TYPES, marks, element)
}

fn taken_has(forms: &[Form], marks: &[bool], pin: Pin, sources: &[Source], ty: Ty) -> bool
    ensures { result ≡ taken_has (sheet forms.now [] []) marks.now pin sources.now ty }
{
    if is_lone(pin.class) {
        same_ty(Ty::Dint, ty)
    } else {
        pin_has(forms, marks, pin, sources, ty)
    }
}

fn takes_no_bool_among(
    types: &[Ty],
    forms: &[Form],
    marks: &[bool],
    pin: Pin,
    sources: &[Source],
) -> bool
    ensures { result ≡ list_any (λ t. taken_has (sheet forms.now [] []) marks.now pin sources.now t && not (is_bool t)) types.now }
{
    types.iter().any(|ty| taken_has(forms, marks, pin, sources, *ty) && !is_bool(*ty))
}

/// The inVariable is negated, and takes a type other than BOOL at the pin.
pub(crate) fn literal_disagrees(
    forms: &[Form],
    marks: &[bool],
    pin: Pin,
    sources: &[Source],
    element: u32,
) -> bool
    ensures { result ≡ literal_disagrees (sheet forms.now [] []) marks.now pin sources.now element }
{
    output_at(forms, Source { element, pin: 0 }).negated
        && takes_no_bool_among(&ALL_TYPES, forms, marks, pin, sources)
}

fn takes_outside_among(
    types: &[Ty],
    forms: &[Form],
    marks: &[bool],
    pin: Pin,
    sources: &[Source],
    n: i128,
) -> bool
    ensures { result ≡ list_any (λ t. taken_has (sheet forms.now [] []) marks.now pin sources.now t && not (fits t n)) types.now }
{
    types.iter().any(|ty| taken_has(forms, marks, pin, sources, *ty) && !in_range(*ty, n))
}

/// The inVariable's number is outside a type that it takes at the pin.
pub(crate) fn literal_outside(
    forms: &[Form],
    marks: &[bool],
    pin: Pin,
    sources: &[Source],
    element: u32,
) -> bool
    ensures { result ≡ literal_outside (sheet forms.now [] []) marks.now pin sources.now element }
{
    match output_at(forms, Source { element, pin: 0 }).gives {
        Gives::Untyped(n) => takes_outside_among(&ALL_TYPES, forms, marks, pin, sources, n),
        Gives::Typed(_) | Gives::Grouped | Gives::Nothing => false,
    }
}

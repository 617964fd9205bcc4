//! Calls of instances.
ghost use Rattle.std.specs.Prelude.{◌≡◌, ◌++◌, length, map, IfOk, [], ◌∷◌};
ghost use Rattle.std.specs.Str.{bytes_eq};
ghost use Rattle.plcx_types.specs.Name.{in_lower_case};
ghost use Rattle.plcx_types.specs.Lists.{Each};
ghost use Rattle.plcx_meaning.specs.Diagram.{enable_links};
ghost use Rattle.plcx_drawn.specs.Shown.{shown_enable, shown_input_pin, shown_in_out_pin, shown_output_pin};
ghost use Rattle.plcx_numbered.specs.Prepared.{input_steps, bound_variable, call_steps, bindings, output_steps, under, called_steps};
ghost use Rattle.plcx_prepare.specs.Called.{shown_callee, key_of, bound_to};
ghost use Rattle.plcx_prepare.specs.Literals.{HasLiterals, InputHasLiterals};

use crate::emitting::{act, enter, next, not, put, skip};
use crate::functions::{enable, eno, eno_negated};
use crate::links::{link_source, link_steps};
use crate::numbers::{Callee, Numbers};
use plcx_drawn::{Enable, InOutPin, InputPin, OutputPin};
use plcx_steps::{Action, Instance, Operand, Source, Step};
use plcx_types::NoMemory;
use std::alloc::Global;

/// The inputs of a call.
fn inputs<N: Numbers>(
    numbers: &N,
    steps: Vec<Step>,
    instance: &[u8],
    inputs: &[InputPin],
) -> Result<Vec<Step>, NoMemory>
    requires { Each InputHasLiterals (map shown_input_pin inputs.now) }
    ensures { IfOk result (λ more. more.items ≡ steps.items ++ input_steps (N.numbering numbers.now) instance.now (map shown_input_pin inputs.now)) }
{
    let wire = next(numbers.spare())?;
    let mut all = steps;
    for input in inputs {
        let linked = link_steps(numbers, all, wire, &input.link)?;
        let source = link_source(numbers, wire, &input.link);
        let to = Operand::Leaf(numbers.inner(instance, input.name));
        all = act(linked, Action::Write { to, source })?;
    }
    Ok(all)
}

/// An output of a call.
fn output<N: Numbers>(
    numbers: &N,
    steps: Vec<Step>,
    instance: &[u8],
    id: u64,
    output: &OutputPin,
) -> Result<Vec<Step>, NoMemory>
    ensures { IfOk result (λ more. more.items ≡ steps.items ++ output_steps (N.numbering numbers.now) instance.now id (shown_output_pin output.now ∷ [])) }
{
    let source = Source::Variable(Operand::Leaf(numbers.inner(instance, output.name)));
    let wire = numbers.wire(id, output.name);
    if output.negated {
        Ok(act(steps, Action::Not { source, wire })?)
    } else {
        Ok(act(steps, Action::Fix { source, wire })?)
    }
}

/// The outputs of a call.
fn outputs<N: Numbers>(
    numbers: &N,
    steps: Vec<Step>,
    instance: &[u8],
    id: u64,
    outputs: &[OutputPin],
) -> Result<Vec<Step>, NoMemory>
    ensures { IfOk result (λ more. more.items ≡ steps.items ++ output_steps (N.numbering numbers.now) instance.now id (map shown_output_pin outputs.now)) }
{
    let mut all = steps;
    for one in outputs {
        all = output(numbers, all, instance, id, one)?;
    }
    Ok(all)
}

/// A text in lower case.
fn in_lower_case(alloc: Global, text: &[u8]) -> Result<Vec<u8>, NoMemory>
    ensures { IfOk result (λ copy. copy.items ≡ in_lower_case text.now) }
{
    let mut copy = Vec::from_slice(alloc, text)?;
    copy.as_mut_slice().make_ascii_lowercase();
    Ok(copy)
}

/// Whether an in-out is of a name in lower case.
fn is_named(alloc: Global, pin: &InOutPin, key: &[u8]) -> Result<bool, NoMemory>
    ensures { IfOk result (λ is. is ≡ bytes_eq (in_lower_case pin.now.name.now) key.now) }
{
    let name = in_lower_case(alloc, pin.name)?;
    Ok(name.as_slice() == key)
}

/// The variable that an in-out of this name in lower case is bound to.
fn bound_variable<'a>(
    alloc: Global,
    bound: &[InOutPin<'a>],
    key: &[u8],
) -> Result<&'a [u8], NoMemory>
    ensures { IfOk result (λ name. name.now ≡ bound_variable (map shown_in_out_pin bound.now) key.now) }
{
    for pin in bound {
        if is_named(alloc, pin, key)? {
            return Ok(pin.variable);
        }
    }
    Ok(b"")
}

/// The call itself, with the program's bindings from the first on.
fn call(steps: Vec<Step>, callee: Callee, first: usize) -> Result<Vec<Step>, NoMemory>
    ensures { IfOk result (λ more. more.items ≡ steps.items ++ call_steps (shown_callee callee.entry) first) }
{
    match callee {
        Callee::Block { kind, leaf } => Ok(act(steps, Action::Standard { kind, leaves: leaf })?),
        Callee::User {
            pou,
            leaves,
            memories,
            in_outs,
        } => {
            let own = Instance { leaves, memories };
            Ok(enter(steps, pou, own, first, in_outs.len())?)
        }
    }
}

/// What in-outs of these names are bound to.
fn with_bound<N: Numbers>(
    numbers: &N,
    alloc: Global,
    given: Vec<Operand>,
    names: &[Vec<u8>],
    bound: &[InOutPin],
) -> Result<Vec<Operand>, NoMemory>
    ensures { IfOk result (λ more. more.items ≡ given.items ++ map (bound_to (N.numbering numbers.now) (map shown_in_out_pin bound.now)) (map key_of names.now)) }
{
    let mut all = given;
    for name in names {
        let variable = bound_variable(alloc, bound, name.as_slice())?;
        all = put(all, numbers.operand(variable))?;
    }
    Ok(all)
}

/// What the in-outs of what is called are bound to.
pub(crate) fn with_bindings<N: Numbers>(
    numbers: &N,
    alloc: Global,
    given: Vec<Operand>,
    instance: &[u8],
    bound: &[InOutPin],
) -> Result<Vec<Operand>, NoMemory>
    ensures { IfOk result (λ more. let c = N.numbering numbers.now in more.items ≡ given.items ++ bindings c (c.callee instance.now) (map shown_in_out_pin bound.now)) }
{
    match numbers.callee(instance) {
        Callee::Block { .. } => Ok(given),
        Callee::User { in_outs, .. } => Ok(with_bound(numbers, alloc, given, in_outs, bound)?),
    }
}

/// These steps, passed over where EN is FALSE.
fn under<N: Numbers>(
    numbers: &N,
    steps: Vec<Step>,
    enable: &Enable,
    behind: Vec<Step>,
) -> Result<Vec<Step>, NoMemory>
    ensures { IfOk result (λ more. more.items ≡ steps.items ++ under (N.numbering numbers.now) (shown_enable enable.now) behind.items) }
{
    match &enable.en {
        None => Ok(joined_steps(steps, behind)?),
        Some(_) => {
            let guarded = skip(steps, Source::Wire(numbers.spare()), behind.len())?;
            Ok(joined_steps(guarded, behind)?)
        }
    }
}

/// Steps, and others behind them.
fn joined_steps(steps: Vec<Step>, behind: Vec<Step>) -> Result<Vec<Step>, NoMemory>
    ensures { IfOk result (λ more. more.items ≡ steps.items ++ behind.items) }
{
    let mut all = steps;
    for step in &behind {
        all = put(all, *step)?;
    }
    Ok(all)
}

/// A call, with the program's bindings from the first on.
pub(crate) fn called<N: Numbers>(
    numbers: &N,
    alloc: Global,
    steps: Vec<Step>,
    first: usize,
    instance: &[u8],
    own: &Enable,
    given: &[InputPin],
    told: &[OutputPin],
    id: u64,
) -> Result<Vec<Step>, NoMemory>
    requires en { Each HasLiterals (enable_links (shown_enable own.now)) }
    requires inputs { Each InputHasLiterals (map shown_input_pin given.now) }
    ensures { IfOk result
        (λ more. more.items ≡ steps.items ++ called_steps (N.numbering numbers.now) first instance.now (shown_enable own.now) (map shown_input_pin given.now) (map shown_output_pin told.now) id) }
{
    let enabling = enable(numbers, steps, own)?;
    let inside = inputs(numbers, Vec::new(alloc), instance, given)?;
    let calling = call(inside, numbers.callee(instance), first)?;
    let entered = under(numbers, enabling, own, calling)?;
    let answered = eno(numbers, entered, id, own)?;
    let fixed = outputs(numbers, answered, instance, id, told)?;
    Ok(not(fixed, eno_negated(own), numbers.wire(id, b"ENO"))?)
}

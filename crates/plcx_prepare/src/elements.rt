//! Elements, with what feeds back and what watches are told.
ghost use Rattle.std.specs.Prelude.{◌≡◌, ◌+◌, ◌∷◌, ◌++◌, [], map, IfOk};
ghost use Rattle.plcx_types.specs.Lists.{Each};
ghost use Rattle.plcx_types.specs.declared.ty.Ty.TheVariants as ty;
ghost use Rattle.plcx_meaning.specs.Diagram.{In, Out, Contact, Coil, Pass};
ghost use Rattle.plcx_drawn.specs.Shown.{shown_link, shown_operand, shown_storing, shown_contacting, shown_coiling, shown_kind, shown_port, shown_element, shown_elements, shown_network};
ghost use Rattle.plcx_numbered.specs.Prepared.{kind_steps, kind_arguments, kind_bindings, feed_steps, tell_steps, element_steps};
ghost use Rattle.plcx_prepare.specs.Literals.{HasLiterals, KindHasLiterals, ElementHasLiterals};
ghost use Rattle.plcx_prepare.specs.Emitted.{Adds};

use crate::calls::{called, with_bindings};
use crate::emitting::{act, next, tell};
use crate::functions::{function, with_arguments};
use crate::links::{link_source, link_steps};
use crate::numbers::Numbers;
use crate::plain;
use crate::plain::{operand_of, store};
use plcx_drawn::{
    Coiling, Contacting, Drawing, Element, ElementKind, Link, Operand, Port, Storing, ports,
};
use plcx_steps::{Action, Argument, Source, Step};
use plcx_types::NoMemory;
use sqlite_items::at;
use std::alloc::Global;

/// What stands at a link, brought into the wire of the element.
fn through<N: Numbers>(
    numbers: &N,
    steps: Vec<Step>,
    id: u64,
    link: &Link,
) -> Result<Vec<Step>, NoMemory>
    requires { HasLiterals (shown_link link.now) }
    ensures { IfOk result (λ more. let c = N.numbering numbers.now in more.items ≡ steps.items ++ kind_steps c 0 0 (Pass (shown_link link.now)) id) }
{
    let spare = numbers.spare();
    let linked = link_steps(numbers, steps, spare, link)?;
    let source = link_source(numbers, spare, link);
    let wire = numbers.wire(id, b"");
    Ok(act(linked, Action::Fix { source, wire })?)
}

/// An inVariable.
fn read<N: Numbers>(
    numbers: &N,
    steps: Vec<Step>,
    id: u64,
    negated: bool,
    operand: &Operand,
) -> Result<Vec<Step>, NoMemory>
    ensures { IfOk result (λ more. let c = N.numbering numbers.now in more.items ≡ steps.items ++ kind_steps c 0 0 (In ty.Bool negated (shown_operand operand.now)) id) }
{
    let source = operand_of(numbers, operand);
    let wire = numbers.wire(id, b"");
    if negated {
        Ok(act(steps, Action::Not { source, wire })?)
    } else {
        Ok(act(steps, Action::Fix { source, wire })?)
    }
}

/// An outVariable.
fn stored<N: Numbers>(
    numbers: &N,
    steps: Vec<Step>,
    how: Storing,
    variable: &[u8],
    link: &Link,
) -> Result<Vec<Step>, NoMemory>
    requires { HasLiterals (shown_link link.now) }
    ensures { IfOk result (λ more. let c = N.numbering numbers.now in more.items ≡ steps.items ++ kind_steps c 0 0 (Out (shown_storing how) variable.now (shown_link link.now)) 0) }
{
    let spare = numbers.spare();
    let second = next(spare)?;
    let linked = link_steps(numbers, steps, spare, link)?;
    let source = link_source(numbers, spare, link);
    let to = numbers.operand(variable);
    Ok(store(linked, how, to, source, second)?)
}

/// A contact.
fn contact<N: Numbers>(
    numbers: &N,
    steps: Vec<Step>,
    id: u64,
    how: Contacting,
    operand: &Operand,
    link: &Link,
) -> Result<Vec<Step>, NoMemory>
    requires { HasLiterals (shown_link link.now) }
    ensures { IfOk result
        (λ more. let c = N.numbering numbers.now in more.items ≡ steps.items ++ kind_steps c 0 0 (Contact (shown_contacting how) (shown_operand operand.now) (shown_link link.now)) id) }
{
    let spare = numbers.spare();
    let second = next(spare)?;
    let linked = link_steps(numbers, steps, spare, link)?;
    let source = link_source(numbers, spare, link);
    let value = operand_of(numbers, operand);
    let (memory, wire) = (numbers.edge(id), numbers.wire(id, b""));
    Ok(plain::contact(linked, how, source, value, memory, wire, second)?)
}

/// A coil.
fn coil<N: Numbers>(
    numbers: &N,
    steps: Vec<Step>,
    id: u64,
    how: Coiling,
    variable: &[u8],
    link: &Link,
) -> Result<Vec<Step>, NoMemory>
    requires { HasLiterals (shown_link link.now) }
    ensures { IfOk result (λ more. let c = N.numbering numbers.now in more.items ≡ steps.items ++ kind_steps c 0 0 (Coil (shown_coiling how) variable.now (shown_link link.now)) id) }
{
    let second = next(numbers.spare())?;
    let fixed = through(numbers, steps, id, link)?;
    let to = numbers.operand(variable);
    let (memory, wire) = (numbers.edge(id), numbers.wire(id, b""));
    Ok(plain::coil(fixed, how, to, memory, wire, second)?)
}

/// An element by its kind, where the program's arguments and bindings from these on are its own.
fn kind<N: Numbers>(
    numbers: &N,
    alloc: Global,
    steps: Vec<Step>,
    argument: usize,
    binding: usize,
    kind: &ElementKind,
    id: u64,
) -> Result<Vec<Step>, NoMemory>
    requires { KindHasLiterals (shown_kind kind.now) }
    ensures { IfOk result (λ more. more.items ≡ steps.items ++ kind_steps (N.numbering numbers.now) argument binding (shown_kind kind.now) id) }
{
    match kind {
        ElementKind::Still | ElementKind::Label(_) => Ok(steps),
        ElementKind::In {
            negated,
            operand,
            ..
        } => Ok(read(numbers, steps, id, *negated, operand)?),
        ElementKind::Out {
            how,
            variable,
            link,
        } => Ok(stored(numbers, steps, *how, variable, link)?),
        ElementKind::Contact { how, operand, link } => {
            Ok(contact(numbers, steps, id, *how, operand, link)?)
        }
        ElementKind::Coil {
            how,
            variable,
            link,
        } => Ok(coil(numbers, steps, id, *how, variable, link)?),
        ElementKind::Pass(link) | ElementKind::Return(link) => {
            Ok(through(numbers, steps, id, link)?)
        }
        ElementKind::Jump { link, .. } => Ok(through(numbers, steps, id, link)?),
        ElementKind::Function {
            func,
            ty,
            enable,
            inputs,
            negated,
        } => Ok(function(
            numbers,
            steps,
            argument,
            id,
            *func,
            *ty,
            enable,
            inputs.as_slice(),
            *negated,
        )?),
        ElementKind::Call {
            instance,
            enable,
            inputs,
            outputs,
            ..
        } => Ok(called(
            numbers,
            alloc,
            steps,
            binding,
            instance,
            enable,
            inputs.as_slice(),
            outputs.as_slice(),
            id,
        )?),
    }
}

/// The arguments of an element.
fn arguments_of<N: Numbers>(
    numbers: &N,
    given: Vec<Argument>,
    kind: &ElementKind,
) -> Result<Vec<Argument>, NoMemory>
    requires { KindHasLiterals (shown_kind kind.now) }
    ensures { IfOk result (λ more. more.items ≡ given.items ++ kind_arguments (N.numbering numbers.now) (shown_kind kind.now)) }
{
    match kind {
        ElementKind::Function { inputs, .. } => {
            let wire = next(numbers.spare())?;
            Ok(with_arguments(numbers, given, wire, inputs.as_slice())?)
        }
        _ => Ok(given),
    }
}

/// The bindings of an element.
fn bindings_of<N: Numbers>(
    numbers: &N,
    alloc: Global,
    given: Vec<plcx_steps::Operand>,
    kind: &ElementKind,
) -> Result<Vec<plcx_steps::Operand>, NoMemory>
    ensures { IfOk result (λ more. more.items ≡ given.items ++ kind_bindings (N.numbering numbers.now) (shown_kind kind.now)) }
{
    match kind {
        ElementKind::Call {
            instance,
            in_outs,
            ..
        } => Ok(with_bindings(numbers, alloc, given, instance, in_outs.as_slice())?),
        _ => Ok(given),
    }
}

/// What feeds back is remembered.
fn feed<N: Numbers>(
    numbers: &N,
    steps: Vec<Step>,
    id: u64,
    ports: &[Port],
) -> Result<Vec<Step>, NoMemory>
    ensures { IfOk result (λ more. more.items ≡ steps.items ++ feed_steps (N.numbering numbers.now) id (map shown_port ports.now)) }
{
    let mut all = steps;
    for port in ports {
        let memory = numbers.output(id, port.pin);
        let source = Source::Wire(numbers.wire(id, port.pin));
        all = act(all, Action::Keep { memory, source })?;
    }
    Ok(all)
}

/// The next number of an output. There are no more outputs than that.
fn following(number: u32) -> Result<u32, NoMemory>
    ensures { IfOk result (λ after. after ≡ number + 1) }
{
    if number < u32::MAX {
        Ok(number + 1)
    } else {
        Err(NoMemory)
    }
}

/// The outputs are told, with their numbers.
fn tell_all<N: Numbers>(
    numbers: &N,
    steps: Vec<Step>,
    id: u64,
    ports: &[Port],
) -> Result<Vec<Step>, NoMemory>
    ensures { IfOk result (λ more. more.items ≡ steps.items ++ tell_steps (N.numbering numbers.now) id 0 (map shown_port ports.now)) }
{
    let mut all = steps;
    let mut number = 0;
    for port in ports {
        all = tell(all, id, number, port.ty, numbers.wire(id, port.pin))?;
        number = following(number)?;
    }
    Ok(all)
}

/// What is prepared: steps, the inputs of functions, and what in-outs are bound to.
#[derive(Debug, Drop)]
pub struct Prepared {
    pub steps: Vec<Step>,
    pub arguments: Vec<Argument>,
    pub bindings: Vec<plcx_steps::Operand>,
}

/// The steps of an element, where the program's arguments and bindings from these on are its own.
fn element_steps<N: Numbers>(
    numbers: &N,
    alloc: Global,
    steps: Vec<Step>,
    argument: usize,
    binding: usize,
    element: &Element,
) -> Result<Vec<Step>, NoMemory>
    requires { ElementHasLiterals (shown_element element.now) }
    ensures { IfOk result (λ more. more.items ≡ steps.items ++ element_steps (N.numbering numbers.now) argument binding (shown_element element.now)) }
{
    let id = element.id;
    let done = kind(numbers, alloc, steps, argument, binding, &element.kind, id)?;
    let fed = feed(numbers, done, id, element.fed.as_slice())?;
    let ports = ports(alloc, &element.kind)?;
    Ok(tell_all(numbers, fed, id, &ports)?)
}

/// One element more.
fn with_element<N: Numbers>(
    numbers: &N,
    alloc: Global,
    before: Prepared,
    element: &Element,
) -> Result<Prepared, NoMemory>
    requires { ElementHasLiterals (shown_element element.now) }
    ensures { IfOk result (λ after. Adds (N.numbering numbers.now) (shown_element element.now ∷ []) before after) }
{
    let Prepared {
        steps,
        arguments,
        bindings,
    } = before;
    let (argument, binding) = (arguments.len(), bindings.len());
    let steps = element_steps(numbers, alloc, steps, argument, binding, element)?;
    let arguments = arguments_of(numbers, arguments, &element.kind)?;
    let bindings = bindings_of(numbers, alloc, bindings, &element.kind)?;
    Ok(Prepared {
        steps,
        arguments,
        bindings,
    })
}

/// The element at a place, where there is one.
fn with_place<N: Numbers>(
    numbers: &N,
    alloc: Global,
    before: Prepared,
    drawing: &Drawing,
    place: u32,
) -> Result<Prepared, NoMemory>
    requires { Each ElementHasLiterals (shown_network drawing.now (place ∷ [])) }
    ensures { IfOk result (λ after. Adds (N.numbering numbers.now) (shown_network drawing.now (place ∷ [])) before after) }
{
    match at(drawing.elements(), place as usize) {
        None => Ok(before),
        Some(element) => Ok(with_element(numbers, alloc, before, element)?),
    }
}

/// The elements at these places, one after another.
pub fn with_network<N: Numbers>(
    numbers: &N,
    alloc: Global,
    before: Prepared,
    drawing: &Drawing,
    places: &[u32],
) -> Result<Prepared, NoMemory>
    requires { Each ElementHasLiterals (shown_network drawing.now places.now) }
    ensures { IfOk result (λ after. Adds (N.numbering numbers.now) (shown_network drawing.now places.now) before after) }
{
    let mut all = before;
    for place in places {
        all = with_place(numbers, alloc, all, drawing, *place)?;
    }
    Ok(all)
}

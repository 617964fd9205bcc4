//! Elements that are no blocks.
ghost use Rattle.std.specs.Prelude.{◌≡◌, ◌++◌, IfOk, [], ◌∷◌};
ghost use Rattle.plcx_meaning.specs.Diagram.{RisingContact, FallingContact};
ghost use Rattle.plcx_drawn.specs.Shown.{shown_operand, shown_storing, shown_contacting, shown_coiling};
ghost use Rattle.plcx_steps.specs.declared.program.Source.TheVariants.{Wire};
ghost use Rattle.plcx_steps.specs.declared.program.Action.TheVariants.{Write, Keep, Not, And};
ghost use Rattle.plcx_steps.specs.declared.program.Step.TheVariants.{Act};
ghost use Rattle.plcx_numbered.specs.Prepared.{operand_of, store_steps, contact_steps, coil_steps};

use crate::emitting::{act, next, off, on, skip};
use crate::numbers::Numbers;
use plcx_drawn::{Coiling, Contacting, Storing};
use plcx_steps::{Action, Operand, Source, Step};
use plcx_types::NoMemory;

/// What is read.
pub(crate) fn operand_of<N: Numbers>(numbers: &N, operand: &plcx_drawn::Operand) -> Source
    ensures { result ≡ operand_of (N.numbering numbers.now) (shown_operand operand.now) }
{
    match operand {
        plcx_drawn::Operand::Own(name) => Source::Variable(numbers.operand(name)),
        plcx_drawn::Operand::Output { instance, output } => {
            Source::Variable(Operand::Leaf(numbers.inner(instance, output)))
        }
    }
}

/// A value is stored; the wire is a spare one.
pub(crate) fn store(
    steps: Vec<Step>,
    how: Storing,
    to: Operand,
    source: Source,
    wire: usize,
) -> Result<Vec<Step>, NoMemory>
    ensures { IfOk result (λ more. more.items ≡ steps.items ++ store_steps (shown_storing how) to source wire) }
{
    match how {
        Storing::Stored => Ok(act(steps, Action::Write { to, source })?),
        Storing::Inverted => {
            let turned = act(steps, Action::Not { source, wire })?;
            let source = Source::Wire(wire);
            Ok(act(turned, Action::Write { to, source })?)
        }
        Storing::Set => {
            let skipping = skip(steps, source, 1)?;
            Ok(act(skipping, Action::Write { to, source: on() })?)
        }
        Storing::Reset => {
            let skipping = skip(steps, source, 1)?;
            Ok(act(skipping, Action::Write { to, source: off() })?)
        }
    }
}

/// Two are joined by AND into a wire.
fn and(steps: Vec<Step>, left: Source, right: Source, wire: usize) -> Result<Vec<Step>, NoMemory>
    ensures { IfOk result (λ more. more.items ≡ steps.items ++ Act (And left right wire) ∷ []) }
{
    Ok(act(steps, Action::And { left, right, wire })?)
}

/// A source is turned into a wire.
fn turn(steps: Vec<Step>, source: Source, wire: usize) -> Result<Vec<Step>, NoMemory>
    ensures { IfOk result (λ more. more.items ≡ steps.items ++ Act (Not source wire) ∷ []) }
{
    Ok(act(steps, Action::Not { source, wire })?)
}

/// A memory keeps a source.
fn keep(steps: Vec<Step>, memory: u32, source: Source) -> Result<Vec<Step>, NoMemory>
    ensures { IfOk result (λ more. more.items ≡ steps.items ++ Act (Keep memory source) ∷ []) }
{
    Ok(act(steps, Action::Keep { memory, source })?)
}

/// A contact at a rising edge.
fn rising_contact(
    steps: Vec<Step>,
    link: Source,
    value: Source,
    memory: u32,
    wire: usize,
    spare: usize,
) -> Result<Vec<Step>, NoMemory>
    ensures { IfOk result (λ more. more.items ≡ steps.items ++ contact_steps RisingContact link value memory wire spare) }
{
    let second = next(spare)?;
    let joined = and(steps, link, value, spare)?;
    let turned = turn(joined, Source::Memory(memory), second)?;
    let through = and(turned, Source::Wire(spare), Source::Wire(second), wire)?;
    Ok(keep(through, memory, value)?)
}

/// A contact at a falling edge.
fn falling_contact(
    steps: Vec<Step>,
    link: Source,
    value: Source,
    memory: u32,
    wire: usize,
    spare: usize,
) -> Result<Vec<Step>, NoMemory>
    ensures { IfOk result (λ more. more.items ≡ steps.items ++ contact_steps FallingContact link value memory wire spare) }
{
    let turned = turn(steps, value, spare)?;
    let joined = and(turned, link, Source::Wire(spare), spare)?;
    let through = and(joined, Source::Wire(spare), Source::Memory(memory), wire)?;
    Ok(keep(through, memory, value)?)
}

/// A contact, with two spare wires.
pub(crate) fn contact(
    steps: Vec<Step>,
    how: Contacting,
    link: Source,
    value: Source,
    memory: u32,
    wire: usize,
    spare: usize,
) -> Result<Vec<Step>, NoMemory>
    ensures { IfOk result (λ more. more.items ≡ steps.items ++ contact_steps (shown_contacting how) link value memory wire spare) }
{
    match how {
        Contacting::Open => Ok(and(steps, link, value, wire)?),
        Contacting::Closed => {
            let turned = turn(steps, value, spare)?;
            Ok(and(turned, link, Source::Wire(spare), wire)?)
        }
        Contacting::Rising => Ok(rising_contact(steps, link, value, memory, wire, spare)?),
        Contacting::Falling => Ok(falling_contact(steps, link, value, memory, wire, spare)?),
    }
}

/// What a coil with an edge does behind its test.
fn stored_edge(
    steps: Vec<Step>,
    to: Operand,
    memory: u32,
    wire: usize,
    spare: usize,
) -> Result<Vec<Step>, NoMemory>
    ensures { IfOk result (λ more. more.items ≡ steps.items ++ Act (Write to (Wire spare)) ∷ Act (Keep memory (Wire wire)) ∷ []) }
{
    let source = Source::Wire(spare);
    let stored = act(steps, Action::Write { to, source })?;
    Ok(keep(stored, memory, Source::Wire(wire))?)
}

/// A coil whose wire has its link's value.
pub(crate) fn coil(
    steps: Vec<Step>,
    how: Coiling,
    to: Operand,
    memory: u32,
    wire: usize,
    spare: usize,
) -> Result<Vec<Step>, NoMemory>
    ensures { IfOk result (λ more. more.items ≡ steps.items ++ coil_steps (shown_coiling how) to memory wire spare) }
{
    match how {
        Coiling::By(how) => Ok(store(steps, how, to, Source::Wire(wire), spare)?),
        Coiling::Rising => {
            let turned = turn(steps, Source::Memory(memory), spare)?;
            let joined = and(turned, Source::Wire(wire), Source::Wire(spare), spare)?;
            Ok(stored_edge(joined, to, memory, wire, spare)?)
        }
        Coiling::Falling => {
            let turned = turn(steps, Source::Wire(wire), spare)?;
            let joined = and(turned, Source::Wire(spare), Source::Memory(memory), spare)?;
            Ok(stored_edge(joined, to, memory, wire, spare)?)
        }
    }
}

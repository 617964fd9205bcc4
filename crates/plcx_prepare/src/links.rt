//! What stands at links.
ghost use Rattle.std.specs.Prelude.{◌≡◌, ◌++◌, map, IfOk};
ghost use Rattle.plcx_types.specs.Lists.{Each};
ghost use Rattle.plcx_drawn.specs.Shown.{shown_source, shown_link};
ghost use Rattle.plcx_numbered.specs.Prepared.{source_of, is_plain, or_steps, joined_steps, link_steps, link_source};
ghost use Rattle.plcx_prepare.specs.Literals.{SuitsType, HasLiterals};

use crate::emitting::{act, literal, not, on};
use crate::numbers::Numbers;
use plcx_drawn::Link;
use plcx_steps::{Action, Source, Step};
use plcx_types::{NoMemory, Ty};

/// A source at a pin of this type.
fn source_of<N: Numbers>(numbers: &N, ty: Ty, source: &plcx_drawn::Source) -> Source
    requires { SuitsType ty (shown_source source.now) }
    ensures { result ≡ source_of (N.numbering numbers.now) ty (shown_source source.now) }
{
    match source {
        plcx_drawn::Source::Rail => on(),
        plcx_drawn::Source::Literal { negated, n } => Source::Constant(literal(ty, *negated, *n)),
        plcx_drawn::Source::Wire(output) => Source::Wire(numbers.wire(output.element, output.pin)),
        plcx_drawn::Source::Back(output) => {
            Source::Memory(numbers.output(output.element, output.pin))
        }
    }
}

/// One source, and not negated.
fn is_plain(link: &Link) -> bool
    ensures { result ≡ is_plain (shown_link link.now) }
{
    if link.negated {
        return false;
    }
    match link.others.get(0) {
        None => true,
        Some(_) => false,
    }
}

/// A wire with the OR of what it has and of further sources.
fn or<N: Numbers>(
    numbers: &N,
    steps: Vec<Step>,
    ty: Ty,
    wire: usize,
    sources: &[plcx_drawn::Source],
) -> Result<Vec<Step>, NoMemory>
    requires { Each (SuitsType ty) (map shown_source sources.now) }
    ensures { IfOk result (λ more. more.items ≡ steps.items ++ or_steps (N.numbering numbers.now) ty wire (map shown_source sources.now)) }
{
    let mut all = steps;
    for source in sources {
        let left = Source::Wire(wire);
        let right = source_of(numbers, ty, source);
        all = act(all, Action::Or { left, right, wire })?;
    }
    Ok(all)
}

/// What stands at a link, brought into a wire.
pub(crate) fn joined<N: Numbers>(
    numbers: &N,
    steps: Vec<Step>,
    wire: usize,
    link: &Link,
) -> Result<Vec<Step>, NoMemory>
    requires { HasLiterals (shown_link link.now) }
    ensures { IfOk result (λ more. more.items ≡ steps.items ++ joined_steps (N.numbering numbers.now) wire (shown_link link.now)) }
{
    let source = source_of(numbers, link.ty, &link.first);
    let fixed = act(steps, Action::Fix { source, wire })?;
    let joined = or(numbers, fixed, link.ty, wire, link.others.as_slice())?;
    Ok(not(joined, link.negated, wire)?)
}

/// The same where it is more than one source.
pub(crate) fn link_steps<N: Numbers>(
    numbers: &N,
    steps: Vec<Step>,
    wire: usize,
    link: &Link,
) -> Result<Vec<Step>, NoMemory>
    requires { HasLiterals (shown_link link.now) }
    ensures { IfOk result (λ more. more.items ≡ steps.items ++ link_steps (N.numbering numbers.now) wire (shown_link link.now)) }
{
    if is_plain(link) {
        Ok(steps)
    } else {
        Ok(joined(numbers, steps, wire, link)?)
    }
}

/// What stands at a link, behind those steps.
pub(crate) fn link_source<N: Numbers>(numbers: &N, wire: usize, link: &Link) -> Source
    requires { HasLiterals (shown_link link.now) }
    ensures { result ≡ link_source (N.numbering numbers.now) wire (shown_link link.now) }
{
    if is_plain(link) {
        source_of(numbers, link.ty, &link.first)
    } else {
        Source::Wire(wire)
    }
}

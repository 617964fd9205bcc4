//! EN and ENO, and functions.
ghost use Rattle.std.specs.Prelude.{◌≡◌, ◌++◌, length, map, IfOk};
ghost use Rattle.plcx_types.specs.Lists.{Each};
ghost use Rattle.plcx_meaning.specs.Diagram.{has_eno, eno_negated, enable_links};
ghost use Rattle.plcx_drawn.specs.Shown.{shown_link, shown_enable};
ghost use Rattle.plcx_numbered.specs.Prepared.{enable_steps, enabled, eno_steps, argument_steps, arguments, apply_steps, function_steps};
ghost use Rattle.plcx_prepare.specs.Literals.{HasLiterals};
ghost use Rattle.plcx_prepare.specs.Guarded.{guarded, answered};

use crate::emitting::{act, next, not, off, on, put, skip};
use crate::links::{joined, link_source, link_steps};
use crate::numbers::Numbers;
use plcx_drawn::{Enable, Link, out_type};
use plcx_funcs::Func;
use plcx_steps::{Action, Argument, Source, Step};
use plcx_types::{NoMemory, Ty, default_of};

/// What stands at EN, brought into the first spare wire.
pub(crate) fn enable<N: Numbers>(
    numbers: &N,
    steps: Vec<Step>,
    enable: &Enable,
) -> Result<Vec<Step>, NoMemory>
    requires { Each HasLiterals (enable_links (shown_enable enable.now)) }
    ensures { IfOk result (λ more. more.items ≡ steps.items ++ enable_steps (N.numbering numbers.now) (shown_enable enable.now)) }
{
    match &enable.en {
        None => Ok(steps),
        Some(link) => Ok(joined(numbers, steps, numbers.spare(), link)?),
    }
}

/// EN behind those steps, which is TRUE where it is not connected.
fn enabled<N: Numbers>(numbers: &N, enable: &Enable) -> Source
    ensures { result ≡ enabled (N.numbering numbers.now) (shown_enable enable.now) }
{
    match &enable.en {
        None => on(),
        Some(_) => Source::Wire(numbers.spare()),
    }
}

fn has_eno(enable: &Enable) -> bool
    ensures { result ≡ has_eno (shown_enable enable.now) }
{
    enable.en.is_some() || enable.eno.is_some()
}

pub(crate) fn eno_negated(enable: &Enable) -> bool
    ensures { result ≡ eno_negated (shown_enable enable.now) }
{
    match enable.eno {
        None => false,
        Some(negated) => negated,
    }
}

/// ENO where there is one.
pub(crate) fn eno<N: Numbers>(
    numbers: &N,
    steps: Vec<Step>,
    id: u64,
    enable: &Enable,
) -> Result<Vec<Step>, NoMemory>
    ensures { IfOk result (λ more. more.items ≡ steps.items ++ eno_steps (N.numbering numbers.now) id (shown_enable enable.now)) }
{
    if !has_eno(enable) {
        return Ok(steps);
    }
    let source = enabled(numbers, enable);
    let wire = numbers.wire(id, b"ENO");
    Ok(act(steps, Action::Fix { source, wire })?)
}

/// The links of a function, each with a spare wire of its own from this one on.
fn argument_steps<N: Numbers>(
    numbers: &N,
    steps: Vec<Step>,
    wire: usize,
    links: &[Link],
) -> Result<Vec<Step>, NoMemory>
    requires { Each HasLiterals (map shown_link links.now) }
    ensures { IfOk result (λ more. more.items ≡ steps.items ++ argument_steps (N.numbering numbers.now) wire (map shown_link links.now)) }
{
    let mut all = steps;
    let mut own = wire;
    for link in links {
        all = link_steps(numbers, all, own, link)?;
        own = next(own)?;
    }
    Ok(all)
}

/// The arguments of a function behind those steps.
pub(crate) fn with_arguments<N: Numbers>(
    numbers: &N,
    given: Vec<Argument>,
    wire: usize,
    links: &[Link],
) -> Result<Vec<Argument>, NoMemory>
    requires { Each HasLiterals (map shown_link links.now) }
    ensures { IfOk result (λ more. more.items ≡ given.items ++ arguments (N.numbering numbers.now) wire (map shown_link links.now)) }
{
    let mut all = given;
    let mut own = wire;
    for link in links {
        let source = link_source(numbers, own, link);
        all = put(
            all,
            Argument {
                ty: link.ty,
                source,
            },
        )?;
        own = next(own)?;
    }
    Ok(all)
}

/// OUT under EN: where EN is FALSE the function is passed over, and OUT is its default.
fn enabled_action<N: Numbers>(
    numbers: &N,
    steps: Vec<Step>,
    action: Action,
    out: usize,
    ty: Ty,
) -> Result<Vec<Step>, NoMemory>
    ensures { IfOk result (λ more. more.items ≡ steps.items ++ guarded (N.numbering numbers.now) action out ty) }
{
    let guarded = skip(steps, Source::Wire(numbers.spare()), 2)?;
    let applied = act(guarded, action)?;
    let passing = skip(applied, off(), 1)?;
    let source = Source::Constant(default_of(ty));
    Ok(act(passing, Action::Fix { source, wire: out })?)
}

/// A function, whose arguments are so many of the program's from the first on.
fn apply<N: Numbers>(
    numbers: &N,
    steps: Vec<Step>,
    id: u64,
    func: Func,
    ty: Ty,
    enable: &Enable,
    first: usize,
    count: usize,
) -> Result<Vec<Step>, NoMemory>
    ensures { IfOk result (λ more. more.items ≡ steps.items ++ apply_steps (N.numbering numbers.now) id func ty (shown_enable enable.now) first count) }
{
    let wire = numbers.wire(id, b"OUT");
    let action = Action::Apply {
        func,
        ty,
        first,
        count,
        wire,
    };
    match &enable.en {
        None => Ok(act(steps, action)?),
        Some(_) => Ok(enabled_action(numbers, steps, action, wire, out_type(func, ty))?),
    }
}

/// A function with these inputs, whose arguments are the program's from the first on.
#[tactic(auto, using(crate::proofs::Laws::as_many))]
fn apply_to<N: Numbers>(
    numbers: &N,
    steps: Vec<Step>,
    id: u64,
    func: Func,
    ty: Ty,
    enable: &Enable,
    first: usize,
    inputs: &[Link],
) -> Result<Vec<Step>, NoMemory>
    ensures { IfOk result (λ more. more.items ≡ steps.items ++ apply_steps (N.numbering numbers.now) id func ty (shown_enable enable.now) first (length (map shown_link inputs.now))) }
{
    Ok(apply(numbers, steps, id, func, ty, enable, first, inputs.len())?)
}

/// What stands behind a function: ENO, and both outputs under NOT where they are negated.
fn answered<N: Numbers>(
    numbers: &N,
    steps: Vec<Step>,
    id: u64,
    enable: &Enable,
    negated: bool,
) -> Result<Vec<Step>, NoMemory>
    ensures { IfOk result (λ more. more.items ≡ steps.items ++ answered (N.numbering numbers.now) id (shown_enable enable.now) negated) }
{
    let told = eno(numbers, steps, id, enable)?;
    let turned = not(told, eno_negated(enable), numbers.wire(id, b"ENO"))?;
    Ok(not(turned, negated, numbers.wire(id, b"OUT"))?)
}

/// A function, whose arguments are the program's from the first on.
pub(crate) fn function<N: Numbers>(
    numbers: &N,
    steps: Vec<Step>,
    first: usize,
    id: u64,
    func: Func,
    ty: Ty,
    own: &Enable,
    inputs: &[Link],
    negated: bool,
) -> Result<Vec<Step>, NoMemory>
    requires en { Each HasLiterals (enable_links (shown_enable own.now)) }
    requires inputs { Each HasLiterals (map shown_link inputs.now) }
    ensures { IfOk result (λ more. more.items ≡ steps.items ++ function_steps (N.numbering numbers.now) first id func ty (shown_enable own.now) (map shown_link inputs.now) negated) }
{
    let enabling = enable(numbers, steps, own)?;
    let given = argument_steps(numbers, enabling, next(numbers.spare())?, inputs)?;
    let applied = apply_to(numbers, given, id, func, ty, own, first, inputs)?;
    Ok(answered(numbers, applied, id, own, negated)?)
}

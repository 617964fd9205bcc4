//! Steps, one behind another.
ghost use Rattle.std.specs.Prelude.{◌≡◌, ◌+◌, ◌∷◌, ◌++◌, [], pos, IsTrue, IfOk, if◌then◌else◌};
ghost use Rattle.plcx_funcs.specs.Applied.{value};
ghost use Rattle.plcx_meaning.specs.Base.{not_if};
ghost use Rattle.plcx_steps.specs.Numbered.{bit};
ghost use Rattle.plcx_steps.specs.declared.program.Step.TheVariants.{Act, Skip, Enter, Tell};
ghost use Rattle.plcx_numbered.specs.Prepared.{on, off, not_steps};
ghost use Rattle.plcx_prepare.specs.Literals.{IsLiteral};

use plcx_steps::{Action, Instance, Source, Step};
use plcx_types::{NoMemory, Ty, Val, default_of};

/// One more.
pub(crate) fn put<T: Drop>(mut items: Vec<T>, item: T) -> Result<Vec<T>, NoMemory>
    ensures { IfOk result (λ more. more.items ≡ items.items ++ item ∷ []) }
{
    items.push(item)?;
    Ok(items)
}

/// One action more.
pub(crate) fn act(steps: Vec<Step>, action: Action) -> Result<Vec<Step>, NoMemory>
    ensures { IfOk result (λ more. more.items ≡ steps.items ++ Act action ∷ []) }
{
    put(steps, Step::Act(action))
}

/// So many steps are passed over unless the source is TRUE.
pub(crate) fn skip(steps: Vec<Step>, unless: Source, count: usize) -> Result<Vec<Step>, NoMemory>
    ensures { IfOk result (λ more. more.items ≡ steps.items ++ Skip unless count ∷ []) }
{
    let _no_action: Option<Action> = None;
    put(steps, Step::Skip { unless, count })
}

/// A POU is entered.
pub(crate) fn enter(
    steps: Vec<Step>,
    pou: u32,
    own: Instance,
    first: usize,
    count: usize,
) -> Result<Vec<Step>, NoMemory>
    ensures { IfOk result (λ more. more.items ≡ steps.items ++ Enter pou own.leaves own.memories first count ∷ []) }
{
    let _no_action: Option<Action> = None;
    let _no_source: Option<Source> = None;
    let step = Step::Enter {
        pou,
        leaves: own.leaves,
        memories: own.memories,
        first,
        count,
    };
    put(steps, step)
}

/// A watch is told a wire.
pub(crate) fn tell(
    steps: Vec<Step>,
    id: u64,
    number: u32,
    ty: Ty,
    wire: usize,
) -> Result<Vec<Step>, NoMemory>
    ensures { IfOk result (λ more. more.items ≡ steps.items ++ Tell id number ty wire ∷ []) }
{
    let _no_action: Option<Action> = None;
    let _no_source: Option<Source> = None;
    let step = Step::Tell {
        id,
        number,
        ty,
        wire,
    };
    put(steps, step)
}

/// The next wire. What is too large for one would not have fitted the memory.
pub(crate) fn next(wire: usize) -> Result<usize, NoMemory>
    ensures { IfOk result (λ after. after ≡ wire + 1) }
{
    if wire < usize::MAX {
        Ok(wire + 1)
    } else {
        Err(NoMemory)
    }
}

/// FALSE or TRUE.
pub(crate) fn bit(truth: bool) -> Val
    ensures { result ≡ bit (if truth then pos 1 else pos 0) }
{
    Val::new(Ty::Bool, i128::from(truth)).unwrap_or(default_of(Ty::Bool))
}

/// TRUE.
pub(crate) fn on() -> Source
    ensures { result ≡ on }
{
    Source::Constant(bit(true))
}

/// FALSE.
pub(crate) fn off() -> Source
    ensures { result ≡ off }
{
    Source::Constant(bit(false))
}

/// A literal, negated or not.
pub(crate) fn literal(ty: Ty, negated: bool, n: i128) -> Val
    requires { IsLiteral ty negated n }
    ensures { result ≡ value ty (not_if negated n) }
{
    if negated {
        bit(n == 0)
    } else {
        Val::new(ty, n).unwrap_or(default_of(ty))
    }
}

/// A wire under NOT, where it is negated.
pub(crate) fn not(steps: Vec<Step>, negated: bool, wire: usize) -> Result<Vec<Step>, NoMemory>
    ensures { IfOk result (λ more. more.items ≡ steps.items ++ not_steps negated wire) }
{
    if !negated {
        return Ok(steps);
    }
    let source = Source::Wire(wire);
    act(steps, Action::Not { source, wire })
}

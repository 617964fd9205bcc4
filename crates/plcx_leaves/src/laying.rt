//! Leaves by their names within instances.
ghost use Rattle.std.specs.Prelude.{◌≡◌, ◌∷◌, ◌++◌, ℕ, List, [], false, pos, map, IfOk};
ghost use Rattle.plcx_std.specs.Pins.{shown};
ghost use Rattle.plcx_types.specs.Lists.{Each};
ghost use Rattle.plcx_meaning.specs.Layout.{is_outside, path_of};
ghost use Rattle.plcx_state.specs.Layouts.{meant, all_meant, BeginsTyped};
ghost use Rattle.plcx_leaves.specs.Leaves.{leaf_by, standard_leaves};
ghost use Rattle.plcx_leaves.specs.Within.{spelled};

use plcx_state::{Leaf, Path};
use plcx_std::{StdKind, StdPin, pins};
use plcx_types::{Ident, NoMemory, Ty, Val, default_of};
use std::alloc::Global;

/// What is said of a variable by its list or block, and by the instance that it stands in.
#[derive(Clone, Copy)]
pub struct Marks {
    pub retained: bool,
    pub constant: bool,
}

/// The path of a name within instances, the outermost first.
fn path_to(alloc: Global, within: &[&Ident], name: Ident) -> Result<Path, NoMemory>
    ensures { IfOk result (λ path. path ≡ map (λ n. n.now) within.now ++ name ∷ []) }
{
    let mut names = Vec::new(alloc);
    for outer in within {
        names.push(outer.copy(alloc)?)?;
    }
    names.push(name)?;
    Ok(Path::new(names))
}

/// Whether a variable is the program's own and none of the compiler's.
fn is_outside(within: &[&Ident], path: &Path) -> bool
    ensures { (name : List ℕ) → path.now ≡ map (λ n. n.now) within.now ++ name ∷ [] → result ≡ is_outside (path_of (name ∷ spelled within.now)) }
{
    if !within.is_empty() {
        return false;
    }
    path.is_declared()
}

/// A leaf by its name within instances, the outermost first.
pub fn leaf(
    alloc: Global,
    within: &[&Ident],
    name: Ident,
    ty: Ty,
    initial: Val,
    marks: Marks,
) -> Result<Leaf, NoMemory>
    ensures typed { IfOk result (λ leaf. initial.ty ≡ ty → BeginsTyped leaf) }
    ensures shown { IfOk result (λ leaf. meant leaf ≡ leaf_by (name ∷ spelled within.now) ty initial.n marks.retained marks.constant) }
{
    let path = path_to(alloc, within, name)?;
    let outside = is_outside(within, &path);
    Ok(Leaf {
        path,
        ty,
        initial,
        retained: marks.retained,
        settable: outside && !marks.constant,
        shown: outside,
    })
}

/// The leaf of a pin of a standard block. Its name has the form of one: what fails is memory.
fn pin_leaf(
    alloc: Global,
    within: &[&Ident],
    retained: bool,
    pin: &StdPin,
) -> Result<Leaf, NoMemory>
    ensures typed { IfOk result BeginsTyped }
    ensures shown { IfOk result (λ leaf. meant leaf ≡ leaf_by ((shown pin.now).name ∷ spelled within.now) (shown pin.now).ty (pos 0) retained false) }
{
    let Ok(name) = Ident::new(alloc, pin.name.as_bytes()) else {
        return Err(NoMemory);
    };
    let marks = Marks {
        retained,
        constant: false,
    };
    Ok(leaf(alloc, within, name, pin.ty, default_of(pin.ty), marks)?)
}

/// The leaves of a standard block more, where a level is left for them.
pub fn with_standard(
    alloc: Global,
    leaves: Vec<Leaf>,
    levels: u32,
    within: &[&Ident],
    retained: bool,
    kind: StdKind,
) -> Result<Vec<Leaf>, NoMemory>
    ensures typed { IfOk result (λ more. Each BeginsTyped leaves.items → Each BeginsTyped more.items) }
    ensures shown { IfOk result (λ more. all_meant more.items ≡ all_meant leaves.items ++ standard_leaves levels (spelled within.now) retained kind) }
{
    let mut more = leaves;
    if levels == 0 {
        return Ok(more);
    }
    for pin in pins(kind) {
        more.push(pin_leaf(alloc, within, retained, pin)?)?;
    }
    Ok(more)
}

/// The instances around a variable, and the variable's own.
pub fn within_one<'a>(
    alloc: Global,
    within: &[&'a Ident],
    name: &'a Ident,
) -> Result<Vec<&'a Ident>, NoMemory>
    ensures { IfOk result (λ names. spelled names.items ≡ name.entry.now ∷ spelled within.now) }
{
    let mut names = Vec::from_slice(alloc, within)?;
    names.push(name)?;
    Ok(names)
}

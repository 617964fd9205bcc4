//! The leaves of a program, instance by instance.
ghost use Rattle.std.specs.Prelude.{◌≡◌, ◌++◌, ◌||◌, Some, option_map, slice_get, IfOk};
ghost use Rattle.plcx_types.specs.Lists.{Each};
ghost use Rattle.plcx_types.specs.Range.{InRange};
ghost use Rattle.plcx_meaning.specs.Layout.{initial_value, is_kept, is_retain, is_constant};
ghost use Rattle.plcx_st.specs.declared.tree.Number.{Number as Literal};
ghost use Rattle.plcx_st.specs.Meant.{class_meant, mark_meant, number_meant};
ghost use Rattle.plcx_state.specs.Layouts.{all_meant, BeginsTyped};
ghost use Rattle.plcx_known.specs.Owned.{shown_own};
ghost use Rattle.plcx_known.specs.Unit.{placed_of};
ghost use Rattle.plcx_known.specs.Parts.{owners_of};
ghost use Rattle.plcx_leaves.specs.Within.{spelled};
ghost use Rattle.plcx_text_layout.specs.Leaves.{variables_at, variable_leaves, program_leaves};
ghost use Rattle.plcx_text_layout.specs.Leaves as specs;
ghost use Rattle.plcx_text_layout.specs.Suits.{Suits, OwnersSuit};

use plcx_known::{Own, Owner, Scope, VarType};
use plcx_leaves::{Marks, leaf, with_standard, within_one};
use plcx_st::{Mark, Number, TextClass};
use plcx_state::Leaf;
use plcx_types::{Ident, NoMemory, Ty, Val, default_of};
use std::alloc::Global;

/// A variable's initial value; one that isn't given is the type's default.
fn initial_of(ty: Ty, initial: &Option<Number>) -> Val
    requires { (v : Literal) → initial.now ≡ Some v → InRange ty v.n }
    ensures number { result.n ≡ initial_value (option_map number_meant initial.now) }
    ensures typed { result.ty ≡ ty }
{
    match initial {
        None => default_of(ty),
        Some(number) => Val::new(ty, number.n).unwrap_or(default_of(ty)),
    }
}

fn is_kept(class: TextClass) -> bool
    ensures { result ≡ is_kept (class_meant class) }
{
    match class {
        TextClass::InOut | TextClass::Temp => false,
        _ => true,
    }
}

/// What a block says of its variables, in an instance that is retained or not.
fn marks_of(mark: Mark, retained: bool) -> Marks
    ensures retained { result.retained ≡ (retained || is_retain (mark_meant mark)) }
    ensures constant { result.constant ≡ is_constant (mark_meant mark) }
{
    match mark {
        Mark::Plain => Marks {
            retained,
            constant: false,
        },
        Mark::Constant => Marks {
            retained,
            constant: true,
        },
        Mark::Retain => Marks {
            retained: true,
            constant: false,
        },
    }
}

/// The variables of the POU at a place, where there is one.
fn owner_at<'o, 'a>(owners: &'o [Owner<'a>], place: usize) -> Option<&'o Owner<'a>>
    ensures { option_map (λ o. o.now) result ≡ slice_get owners.now place }
{
    owners.get(place)
}

/// The leaves of a variable more.
#[cycle(leaves)]
fn with_variable(
    alloc: Global,
    leaves: Vec<Leaf>,
    owners: &[Owner],
    levels: u32,
    within: &[&Ident],
    retained: bool,
    own: &Own,
) -> Result<Vec<Leaf>, NoMemory>
    requires owners { OwnersSuit owners.now }
    requires own { Suits (shown_own own.now) }
    ensures typed { IfOk result (λ more. Each BeginsTyped leaves.items → Each BeginsTyped more.items) }
    ensures shown { IfOk result (λ more. all_meant more.items
        ≡ all_meant leaves.items ++ variable_leaves levels (specs.leaves levels owners.now) owners.now (spelled within.now) retained (shown_own own.now)) }
{
    let mut more = leaves;
    if !is_kept(own.class) {
        return Ok(more);
    }
    let name = &own.decl.name.name;
    let marks = marks_of(own.mark, retained);
    match own.ty {
        VarType::Unknown => Ok(more),
        VarType::Elementary(ty) => {
            let initial = initial_of(ty, &own.decl.initial);
            more.push(leaf(alloc, within, name.copy(alloc)?, ty, initial, marks)?)?;
            Ok(more)
        }
        VarType::Standard(kind) => {
            let names = within_one(alloc, within, name)?;
            Ok(with_standard(alloc, more, levels, &names, marks.retained, kind)?)
        }
        VarType::Block(place) => {
            let names = within_one(alloc, within, name)?;
            Ok(with_pou(alloc, more, owners, levels, &names, marks.retained, place)?)
        }
    }
}

/// The leaves of the POU at a place more, so many levels deep.
#[cycle(leaves)]
fn with_pou(
    alloc: Global,
    leaves: Vec<Leaf>,
    owners: &[Owner],
    levels: u32,
    within: &[&Ident],
    retained: bool,
    place: usize,
) -> Result<Vec<Leaf>, NoMemory>
    requires { OwnersSuit owners.now }
    ensures typed { IfOk result (λ more. Each BeginsTyped leaves.items → Each BeginsTyped more.items) }
    ensures shown { IfOk result (λ more. all_meant more.items
        ≡ all_meant leaves.items ++ specs.leaves levels owners.now (spelled within.now) retained (variables_at owners.now place)) }
{
    let mut more = leaves;
    if levels == 0 {
        return Ok(more);
    }
    let Some(owner) = owner_at(owners, place) else {
        return Ok(more);
    };
    let variables = owner.variables();
    for own in variables {
        more = with_variable(alloc, more, owners, levels - 1, within, retained, own)?;
    }
    Ok(more)
}

/// The leaves of the POU at a place, as a program.
#[tactic(auto, unfolding(crate::specs::Leaves::program_leaves))]
pub(crate) fn program_leaves(
    alloc: Global,
    scope: &Scope,
    place: usize,
) -> Result<Vec<Leaf>, NoMemory>
    requires { OwnersSuit (owners_of (placed_of scope.now)) }
    ensures typed { IfOk result (λ leaves. Each BeginsTyped leaves.items) }
    ensures leaves { IfOk result (λ leaves. all_meant leaves.items
        ≡ program_leaves (owners_of (placed_of scope.now)) (variables_at (owners_of (placed_of scope.now)) place)) }
{
    let owners = scope.owners();
    Ok(with_pou(alloc, Vec::new(alloc), owners, 18, &[], false, place)?)
}

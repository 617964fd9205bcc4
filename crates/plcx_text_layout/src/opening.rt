//! The program of a name, and its layout.
ghost use Rattle.std.specs.Prelude.{◌≡◌, ◌<◌, ◌↔◌, Some, None, length, slice_get, IfOk, MatchOption, IsErrOf};
ghost use Rattle.std.specs.List.{position};
ghost use Rattle.plcx_meaning.specs.Execute.{program_named};
ghost use Rattle.plcx_meaning.specs.Ready.{IsReady};
ghost use Rattle.plcx_meaning.specs.Tree.{PouText as Meant};
ghost use Rattle.plcx_st.specs.Meant.{meant};
ghost use Rattle.plcx_known.specs.Unit.{bare_of};
ghost use Rattle.plcx_scan.specs.declared.open.OpenError.TheVariants.{NoProgram};
ghost use Rattle.plcx_text_stored.specs.LaidFor.{IsLaidFor};
ghost use Rattle.plcx_text_layout.specs.Named.{is_program_named};
ghost use Rattle.plcx_text_layout.specs.Opening.{IsProgramAt, IsLaidAs};

use crate::leaves::program_leaves;
use plcx_known::Scope;
use plcx_scan::OpenError;
use plcx_st::{PouText, TextKind};
use plcx_state::Layout;
use plcx_types::{Ident, NoMemory};
use plcx_unit::Ready;
use std::alloc::Global;

fn is_program_named(pou: &PouText, name: &Ident) -> bool
    ensures { result ≡ is_program_named name.now pou.now }
{
    match pou.kind {
        TextKind::Program => pou.name.name.same(name),
        TextKind::FunctionBlock => false,
    }
}

fn place_among(pous: &[PouText], name: &Ident) -> Option<usize>
    ensures { result ≡ position (is_program_named name.now) pous.now }
{
    pous.iter().position(|pou| is_program_named(pou, name))
}

/// The place of the program of a name among the POUs of a unit, whatever the case of its letters.
pub fn program_place(ready: &Ready, name: &Ident) -> Option<usize>
    ensures { MatchOption result (program_named name.now (meant ready.now) ≡ None) (IsProgramAt (meant ready.now) name.now) }
{
    place_among(ready.unit().pous.as_slice(), name)
}

/// The layout of the POU at a place as a program, among POUs with their tables.
pub fn layout_at(alloc: Global, scope: &Scope, place: usize) -> Result<Layout, NoMemory>
    requires ready { IsReady (bare_of scope.now) }
    requires place { place < length scope.now }
    ensures { IfOk result (λ l. (p : Meant) → slice_get (bare_of scope.now) place ≡ Some p → IsLaidFor (bare_of scope.now) p l) }
{
    let leaves = program_leaves(alloc, scope, place)?;
    Ok(Layout::new(leaves, Vec::new(alloc)))
}

/// The layout of the program of a name.
pub fn text_layout(alloc: Global, ready: &Ready, program: &Ident) -> Result<Layout, OpenError>
    ensures laid { IfOk result (IsLaidAs (meant ready.now) program.now) }
    ensures no_program { IsErrOf result NoProgram ↔ (program_named program.now (meant ready.now) ≡ None) }
{
    let Some(place) = program_place(ready, program) else {
        return Err(OpenError::NoProgram);
    };
    let scope = Scope::of(alloc, ready.unit().pous.as_slice())?;
    let layout = layout_at(alloc, &scope, place)?;
    Ok(layout)
}

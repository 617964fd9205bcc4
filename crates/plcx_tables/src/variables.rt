//! Variables, and what the names of their types stand for.
ghost use Rattle.std.specs.Prelude.{◌≡◌, IfOk, map};
ghost use Rattle.plcx_meaning.specs.Tree.{Mark};
ghost use Rattle.plcx_meaning.specs.Diagram.{Project};
ghost use Rattle.plcx_meaning.specs.Layout.{variable};
ghost use Rattle.plcx_view.specs.Declared.{class_of, declaration_of, spelled_type};
ghost use Rattle.plcx_tables.specs.Named.{NamesTold};
ghost use Rattle.plcx_tables.specs.Telling.{told, shown, pou_name, block_name, AreNamed};

use crate::named::{number_of_name, place_of_name, with_name};
use crate::names::Name;
use crate::numbered::Numbered;
use plcx_drawn::Drawing;
use plcx_model::{ListClass, Pou, PouKind, VarTy, Variable};
use plcx_std::{StdKind, std_lookup};
use plcx_types::{NoMemory, Ty};
use std::alloc::Global;

/// A variable by its name, whether it is an in-out, and what its type's name stands for: an elementary type or not, a
/// standard block, the function block at a place, and the POU at a place, which is one behind the last where there is
/// none.
#[derive(Clone, Copy, Debug)]
pub struct Declared<'a> {
    pub name: &'a [u8],
    pub in_out: bool,
    pub elementary: bool,
    pub standard: Option<StdKind>,
    pub block: Option<u32>,
    pub pou: u32,
}

/// The places of POUs by their names, and those of function blocks.
#[derive(Drop)]
pub(crate) struct Pous<'a> {
    pub(crate) all: Numbered<Name<'a>>,
    pub(crate) blocks: Numbered<Name<'a>>,
}

fn named_pous<'a>(alloc: Global, drawings: &[Drawing<'a>]) -> Result<Numbered<Name<'a>>, NoMemory>
    ensures { IfOk result (λ names. NamesTold names.numbers.entries names.count (map pou_name drawings.now)) }
{
    let mut names = Numbered::new(alloc);
    for drawing in drawings {
        names = with_name(names, Some(drawing.pou.name.text()))?;
    }
    Ok(names)
}

fn block_name<'a>(pou: &'a Pou) -> Option<&'a [u8]>
    ensures { option_map (λ n. n.now) result ≡ block_name pou.now }
{
    match pou.kind {
        PouKind::Program => None,
        PouKind::FunctionBlock => Some(pou.name.text()),
    }
}

ghost use Rattle.std.specs.Prelude.{option_map};

fn named_blocks<'a>(alloc: Global, drawings: &[Drawing<'a>]) -> Result<Numbered<Name<'a>>, NoMemory>
    ensures { IfOk result (λ names. NamesTold names.numbers.entries names.count (map (λ d. block_name d.pou.now) drawings.now)) }
{
    let mut names = Numbered::new(alloc);
    for drawing in drawings {
        names = with_name(names, block_name(drawing.pou))?;
    }
    Ok(names)
}

/// The POUs of these drawings by their names.
pub(crate) fn pous_by_name<'a>(
    alloc: Global,
    drawings: &[Drawing<'a>],
) -> Result<Pous<'a>, NoMemory>
    ensures { IfOk result (λ named. (pous : List Pou) → AreNamed (map (shown_pou pous) drawings.now) named) }
{
    let all = named_pous(alloc, drawings)?;
    let blocks = named_blocks(alloc, drawings)?;
    Ok(Pous { all, blocks })
}

ghost use Rattle.std.specs.Prelude.{List};
ghost use Rattle.plcx_model.specs.declared.project.Pou.{Pou};
ghost use Rattle.plcx_drawn.specs.Pous.{shown_pou};

/// A type as its name is spelled.
fn spelled<'p>(pous: &'p [Pou], ty: &VarTy) -> &'p [u8]
    ensures { result.now ≡ spelled_type pous.now ty.now }
{
    match ty {
        VarTy::Plain(ty) => ty.name().as_bytes(),
        VarTy::Std(kind) => kind.name().as_bytes(),
        VarTy::Block(place) => match pous.get(*place as usize) {
            None => b"",
            Some(pou) => pou.name.text(),
        },
    }
}

fn is_in_out(class: ListClass) -> bool
    ensures { (mark : Mark) (d : Declaration) → result ≡ is_in_out (Some (variable (class_of class) mark d)) }
{
    matches!(class, ListClass::InOut)
}

ghost use Rattle.std.specs.Prelude.{Some};
ghost use Rattle.plcx_meaning.specs.Tree.{Declaration};
ghost use Rattle.plcx_meaning.specs.Evaluate.{is_in_out};

/// A variable of a list of this class.
pub(crate) fn variable_of<'a>(
    pous: &[Pou],
    named: &Pous,
    class: ListClass,
    one: &'a Variable,
) -> Declared<'a>
    ensures { (project : Project) (mark : Mark) → AreNamed project named.now → shown result ≡ told project (variable (class_of class) mark (declaration_of pous.now one.entry.now)) }
{
    let ty = spelled(pous, &one.ty);
    Declared {
        name: one.name.text(),
        in_out: is_in_out(class),
        elementary: Ty::named(ty).is_some(),
        standard: std_lookup(ty),
        block: number_of_name(&named.blocks, ty),
        pou: place_of_name(&named.all, ty),
    }
}

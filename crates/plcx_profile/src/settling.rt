//! The project of a draft whose names are identifiers.
ghost use Rattle.std.specs.Prelude.{◌≡◌, true, map, length, IfOk};
ghost use Rattle.std.specs.List.{list_all};
ghost use Rattle.plcx_types.specs.Name.{is_identifier};
ghost use Rattle.plcx_draft.specs.BodyIn.{nonempty};
ghost use Rattle.plcx_profile.specs.Fine.{is_fine, is_fine_list, is_fine_pou};
ghost use Rattle.plcx_profile.specs.ProjectIn.{type_or, initial_as, variable_of, list_of, pou_of, settled};
ghost use Rattle.plcx_profile.specs.Heads.{head_of, with_head, joined};

use crate::blocks::Blocks;
use crate::types::{type_meant, value_of};
use plcx_draft::{Draft, DraftList, DraftPou, DraftType, DraftVariable};
use plcx_model::{Pou, Project, VarList, VarTy, Variable};
use plcx_types::{Ident, IdentError, NoMemory, Ty, Val};
use sqlite_items::Items;
use std::alloc::Global;

/// What a POU is but for its body.
#[derive(Drop)]
struct Head {
    name: Ident,
    lists: Items<VarList>,
}

fn ident(alloc: Global, text: &[u8]) -> Result<Ident, NoMemory>
    requires { is_identifier text.now ≡ true }
    ensures { IfOk result (λ name. name ≡ text.now) }
{
    match Ident::new(alloc, text) {
        Ok(name) => Ok(name),
        Err(IdentError::NoMemory) => Err(NoMemory),
        Err(IdentError::NotIdent) => unreachable!(),
    }
}

fn address_of(alloc: Global, address: &[u8]) -> Result<Option<Items<u8>>, NoMemory>
    ensures { IfOk result (λ found. found ≡ nonempty address.now) }
{
    if address.is_empty() {
        return Ok(None);
    }
    let copy = Items::from_slice(alloc, address)?;
    Ok(Some(copy))
}

fn type_or(ty: Option<VarTy>) -> VarTy
    ensures { result ≡ type_or ty }
{
    match ty {
        None => VarTy::Plain(Ty::Bool),
        Some(ty) => ty,
    }
}

fn initial_as(ty: &DraftType, initial: &Option<Items<u8>>) -> Option<Val>
    ensures { result ≡ initial_as ty.now initial.now }
{
    match ty {
        DraftType::Derived(_) => None,
        DraftType::Plain(ty) => match initial {
            None => None,
            Some(text) => value_of(*ty, text.as_slice()),
        },
    }
}

#[tactic(auto, unfolding(crate::specs::ProjectIn::variable_of))]
fn variable_of(
    alloc: Global,
    blocks: &Blocks,
    variable: &DraftVariable,
) -> Result<Variable, NoMemory>
    requires { is_fine variable.now ≡ true }
    ensures { IfOk result (λ v. v ≡ variable_of blocks.now variable.now) }
{
    let name = ident(alloc, variable.name.as_slice())?;
    let address = address_of(alloc, variable.address.as_slice())?;
    let ty = type_meant(alloc, blocks, &variable.ty)?;
    Ok(Variable {
        name,
        address,
        ty: type_or(ty),
        initial: initial_as(&variable.ty, &variable.initial),
    })
}

#[tactic(auto, unfolding(crate::specs::ProjectIn::list_of))]
fn list_of(alloc: Global, blocks: &Blocks, list: &DraftList) -> Result<VarList, NoMemory>
    requires { is_fine_list list.now ≡ true }
    ensures { IfOk result (λ l. l ≡ list_of blocks.now list.now) }
{
    let mut variables = Vec::new(alloc);
    for variable in list.variables.as_slice() {
        variables.push(variable_of(alloc, blocks, variable)?)?;
    }
    Ok(VarList {
        class: list.class,
        constant: list.constant,
        retain: list.retain,
        variables: Items::from_vec(variables),
    })
}

fn lists_of(alloc: Global, blocks: &Blocks, lists: &[DraftList]) -> Result<Items<VarList>, NoMemory>
    requires { list_all is_fine_list lists.now ≡ true }
    ensures { IfOk result (λ all. all ≡ map (list_of blocks.now) lists.now) }
{
    let mut all = Vec::new(alloc);
    for list in lists {
        all.push(list_of(alloc, blocks, list)?)?;
    }
    Ok(Items::from_vec(all))
}

fn head_of(alloc: Global, blocks: &Blocks, pou: &DraftPou) -> Result<Head, NoMemory>
    requires { is_fine_pou pou.now ≡ true }
    ensures { IfOk result (λ head. head ≡ head_of blocks.now pou.now) }
{
    let name = ident(alloc, pou.name.as_slice())?;
    let lists = lists_of(alloc, blocks, pou.lists.as_slice())?;
    Ok(Head { name, lists })
}

fn heads_in(alloc: Global, blocks: &Blocks, pous: &[DraftPou]) -> Result<Vec<Head>, NoMemory>
    requires { list_all is_fine_pou pous.now ≡ true }
    ensures { IfOk result (λ all. all.items ≡ map (head_of blocks.now) pous.now) }
{
    let mut all = Vec::new(alloc);
    for pou in pous {
        all.push(head_of(alloc, blocks, pou)?)?;
    }
    Ok(all)
}

fn with_head(head: Head, pou: DraftPou) -> Pou
    ensures { result ≡ with_head head pou }
{
    let Head { name, lists } = head;
    let DraftPou { kind, body, .. } = pou;
    Pou {
        name,
        kind,
        lists,
        body,
    }
}

/// The POUs of some heads and drafts, which go from the last to the first.
fn joined(
    alloc: Global,
    mut heads: Vec<Head>,
    mut pous: Items<DraftPou>,
) -> Result<Vec<Pou>, NoMemory>
    requires { length heads.items ≡ length pous }
    ensures { IfOk result (λ all. all.items ≡ joined heads.items pous) }
{
    let mut all = Vec::new(alloc);
    while let Some(head) = heads.pop() {
        match pous.pop() {
            None => {}
            Some(pou) => all.push(with_head(head, pou))?,
        }
    }
    all.as_mut_slice().reverse();
    Ok(all)
}

/// The project of a draft.
#[tactic(auto, unfolding(crate::specs::ProjectIn::settled, crate::specs::ProjectIn::pou_of))]
pub fn settled(alloc: Global, draft: Draft) -> Result<Project, NoMemory>
    requires { list_all is_fine_pou draft.pous ≡ true }
    ensures { IfOk result (λ project. project ≡ settled draft) }
{
    let heads = {
        let blocks = Blocks::of(alloc, draft.pous.as_slice())?;
        heads_in(alloc, &blocks, draft.pous.as_slice())?
    };
    let Draft { pous } = draft;
    let pous = joined(alloc, heads, pous)?;
    Ok(Project {
        pous: Items::from_vec(pous),
    })
}

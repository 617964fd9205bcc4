//! What is declared of a POU, and what its elements remember.
ghost use Rattle.std.specs.Prelude.{◌≡◌, ◌++◌, List, IfOk, map};
ghost use Rattle.plcx_meaning.specs.Diagram.{Project};
ghost use Rattle.plcx_meaning.specs.Layout.{block_variables, variables_of};
ghost use Rattle.plcx_view.specs.Declared.{list_of, lists_of};
ghost use Rattle.plcx_drawn.specs.Shown.{shown_element, shown_port};
ghost use Rattle.plcx_drawn.specs.Pous.{shown_pou};
ghost use Rattle.plcx_prepare.specs.Called.{key_of};
ghost use Rattle.plcx_tables.specs.Named.{NamesTold, MemoriesTold};
ghost use Rattle.plcx_tables.specs.Telling.{told, shown, AreNamed};
ghost use Rattle.plcx_tables.specs.Owned.{variable_name, in_outs_of, remembered, remembered_by, outputs_of, places_of, IsOwn, AreOwn};

use crate::keys::Key;
use crate::named::{with_memory, with_name};
use crate::names::Name;
use crate::numbered::Numbered;
use crate::variables::{Declared, Pous, pous_by_name, variable_of};
use plcx_drawn::{Drawing, Element, Port, has_edge};
use plcx_model::{Pou, VarList};
use plcx_names::in_lower_case;
use plcx_types::NoMemory;
use std::alloc::Global;

/// The variables of a POU in their order, their places by their names, the names of its in-outs in lower case, and the
/// numbers of what its elements remember.
#[derive(Drop)]
pub struct Own<'a> {
    pub variables: Vec<Declared<'a>>,
    pub(crate) names: Numbered<Name<'a>>,
    pub(crate) in_outs: Vec<Vec<u8>>,
    pub(crate) memories: Numbered<Key<'a>>,
}

/// The variables of a list more.
fn with_list<'a>(
    mut all: Vec<Declared<'a>>,
    pous: &[Pou],
    named: &Pous,
    list: &'a VarList,
) -> Result<Vec<Declared<'a>>, NoMemory>
    ensures { IfOk result (λ more. (project : Project) → AreNamed project named.now
        → map shown more.items ≡ map shown all.entry.items ++ map (told project) (block_variables (list_of pous.now list.entry.now))) }
{
    for one in list.variables() {
        all.push(variable_of(pous, named, list.class, one))?;
    }
    Ok(all)
}

/// The variables of a POU.
fn variables<'a>(
    alloc: Global,
    pous: &[Pou],
    named: &Pous,
    pou: &'a Pou,
) -> Result<Vec<Declared<'a>>, NoMemory>
    ensures { IfOk result (λ all. (project : Project) → AreNamed project named.now → map shown all.items ≡ map (told project) (variables_of (lists_of pous.now pou.entry.now))) }
{
    let mut all = Vec::new(alloc);
    for list in pou.lists() {
        all = with_list(all, pous, named, list)?;
    }
    Ok(all)
}

/// The places of variables by their names.
fn names_of<'a>(alloc: Global, variables: &[Declared<'a>]) -> Result<Numbered<Name<'a>>, NoMemory>
    ensures { IfOk result (λ names. NamesTold names.numbers.entries names.count (map variable_name variables.now)) }
{
    let mut names = Numbered::new(alloc);
    for variable in variables {
        names = with_name(names, Some(variable.name))?;
    }
    Ok(names)
}

/// The names of in-outs in lower case.
fn in_outs_of(alloc: Global, variables: &[Declared]) -> Result<Vec<Vec<u8>>, NoMemory>
    ensures { IfOk result (λ names. map key_of names.items ≡ in_outs_of (map shown variables.now)) }
{
    let mut names = Vec::new(alloc);
    for variable in variables {
        if variable.in_out {
            names.push(in_lower_case(alloc, variable.name)?)?;
        }
    }
    Ok(names)
}

/// The outputs of an element that feed back more.
pub(crate) fn with_fed<'a>(
    memories: Numbered<Key<'a>>,
    id: u64,
    fed: &[Port<'a>],
) -> Result<Numbered<Key<'a>>, NoMemory>
    ensures { IfOk result (λ more. (before : List Memory) → MemoriesTold memories.entry.numbers.entries memories.entry.count (places_of before)
        → MemoriesTold more.numbers.entries more.count (places_of (before ++ outputs_of id (map shown_port fed.now)))) }
{
    let mut all = memories;
    for port in fed {
        all = with_memory(all, Key::Output(id, Name { text: port.pin }))?;
    }
    Ok(all)
}

ghost use Rattle.plcx_meaning.specs.Base.{Memory};

/// What an element remembers more.
fn with_element<'a>(
    memories: Numbered<Key<'a>>,
    element: &Element<'a>,
) -> Result<Numbered<Key<'a>>, NoMemory>
    ensures { IfOk result (λ more. (before : List Memory) → MemoriesTold memories.entry.numbers.entries memories.entry.count (places_of before)
        → MemoriesTold more.numbers.entries more.count (places_of (before ++ remembered_by (shown_element element.now)))) }
{
    let id = element.id;
    if has_edge(&element.kind) {
        let edged = with_memory(memories, Key::Edge(id))?;
        Ok(with_fed(edged, id, element.fed.as_slice())?)
    } else {
        Ok(with_fed(memories, id, element.fed.as_slice())?)
    }
}

/// The numbers of what elements remember.
fn memories_of<'a>(alloc: Global, elements: &[Element<'a>]) -> Result<Numbered<Key<'a>>, NoMemory>
    ensures { IfOk result (λ memories. MemoriesTold memories.numbers.entries memories.count (places_of (remembered (map shown_element elements.now)))) }
{
    let mut memories = Numbered::new(alloc);
    for element in elements {
        memories = with_element(memories, element)?;
    }
    Ok(memories)
}

/// A drawn POU.
fn own_of<'a>(
    alloc: Global,
    pous: &[Pou],
    named: &Pous,
    drawing: &Drawing<'a>,
) -> Result<Own<'a>, NoMemory>
    ensures { IfOk result (λ own. (project : Project) → AreNamed project named.now → IsOwn project (shown_pou pous.now drawing.now) own) }
{
    let variables = variables(alloc, pous, named, drawing.pou)?;
    let names = names_of(alloc, &variables)?;
    let in_outs = in_outs_of(alloc, &variables)?;
    let memories = memories_of(alloc, drawing.elements())?;
    Ok(Own {
        variables,
        names,
        in_outs,
        memories,
    })
}

/// All drawn POUs, which stand among these.
pub fn owns<'a>(
    alloc: Global,
    pous: &[Pou],
    drawings: &[Drawing<'a>],
) -> Result<Vec<Own<'a>>, NoMemory>
    ensures { IfOk result (λ owns. AreOwn (map (shown_pou pous.now) drawings.now) owns.items) }
{
    let named = pous_by_name(alloc, drawings)?;
    let mut owns = Vec::new(alloc);
    for drawing in drawings {
        owns.push(own_of(alloc, pous, &named, drawing)?)?;
    }
    Ok(owns)
}

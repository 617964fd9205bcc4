//! The numbers that the elements of a network use.
ghost use Rattle.std.specs.Prelude.{◌≡◌, ℕ, List, Option, Some, IfOk, map, slice_get, option_map};
ghost use Rattle.plcx_meaning.specs.Base.{Memory};
ghost use Rattle.plcx_drawn.specs.Shown.{shown_kind};
ghost use Rattle.plcx_meaning.specs.Diagram.{ports};
ghost use Rattle.plcx_prepare.specs.Called.{shown_callee, key_of};
ghost use Rattle.plcx_targets.specs.Labels.{network_of};
ghost use Rattle.plcx_tables.specs.declared.placed.Table.{Table};
ghost use Rattle.plcx_tables.specs.Named.{MemoriesTold};
ghost use Rattle.plcx_tables.specs.Owned.{places_of, outputs_of};
ghost use Rattle.plcx_tables.specs.Numbering.{FitsIn, outputs, numbering_by, operand_named, inner_named, callee_named, in_outs_at};

use crate::fitting::within;
use crate::keys::Key;
use crate::named::number_of_memory;
use crate::names::Name;
use crate::numbered::Numbered;
use crate::own::with_fed;
use crate::placed::Table;
use plcx_drawn::{Element, ElementKind, ports};
use plcx_prepare::{Callee, Numbers};
use plcx_std::StdKind;
use plcx_steps::Operand;
use plcx_targets::element_at;
use plcx_types::NoMemory;
use std::alloc::Global;

/// The numbers of a network of a POU, by the tables of all POUs and that of its outputs.
#[derive(Drop)]
pub struct NetworkNumbers<'t, 'a, 'd> {
    pub(crate) tables: &'t [Table<'a>],
    pub(crate) own: &'t Table<'a>,
    pub(crate) outputs: Numbered<Key<'d>>,
    ghost fits: { FitsIn tables.now own.now },
}

/// The outputs of an element more.
fn with_element<'d>(
    alloc: Global,
    outputs: Numbered<Key<'d>>,
    id: u64,
    kind: &ElementKind<'d>,
) -> Result<Numbered<Key<'d>>, NoMemory>
    ensures { IfOk result (λ more. (before : List Memory) → MemoriesTold outputs.entry.numbers.entries outputs.entry.count (places_of before)
        → MemoriesTold more.numbers.entries more.count (places_of (before ++ outputs_of id (ports (shown_kind kind.now))))) }
{
    let ports = ports(alloc, kind)?;
    Ok(with_fed(outputs, id, &ports)?)
}

ghost use Rattle.std.specs.Prelude.{◌++◌, ◌∷◌, []};

/// The outputs of the element at a place more, if there is one.
fn with_place<'d>(
    alloc: Global,
    before: Numbered<Key<'d>>,
    elements: &[Element<'d>],
    place: u32,
) -> Result<Numbered<Key<'d>>, NoMemory>
    ensures { IfOk result (λ more. (ms : List Memory) → MemoriesTold before.entry.numbers.entries before.entry.count (places_of ms)
        → MemoriesTold more.numbers.entries more.count (places_of (ms ++ outputs (network_of elements.now (place ∷ []))))) }
{
    match element_at(elements, place) {
        None => Ok(before),
        Some(element) => Ok(with_element(alloc, before, element.id, &element.kind)?),
    }
}

/// The numbers of the outputs of elements.
pub(crate) fn outputs<'d>(
    alloc: Global,
    elements: &[Element<'d>],
    places: &[u32],
) -> Result<Numbered<Key<'d>>, NoMemory>
    ensures { IfOk result (λ all. MemoriesTold all.numbers.entries all.count (places_of (outputs (network_of elements.now places.now)))) }
{
    let mut all = Numbered::new(alloc);
    for place in places {
        all = with_place(alloc, all, elements, *place)?;
    }
    Ok(all)
}

/// The names of the in-outs of a block.
fn in_outs_at<'n>(tables: &'n [Table], block: Option<u32>) -> &'n [Vec<u8>]
    ensures { map key_of result.now ≡ in_outs_at tables.entry.now block }
{
    match block {
        None => &[],
        Some(place) => match tables.get(place as usize) {
            None => &[],
            Some(table) => table.own.in_outs.as_slice(),
        },
    }
}

impl<'t, 'a, 'd> Numbers for NetworkNumbers<'t, 'a, 'd> {
    ghost numbering = { λ n. numbering_by n.tables.now n.own.now n.outputs.numbers.entries n.outputs.count };

    fn wire(&self, id: u64, pin: &[u8]) -> usize {
        number_of_memory(&self.outputs, Key::Output(id, Name { text: pin })) as usize
    }

    fn spare(&self) -> usize {
        self.outputs.count as usize
    }

    fn operand(&self, name: &[u8]) -> Operand {
        match self.own.find(name) {
            None => Operand::Leaf(self.own.leaves),
            Some(placed) => {
                if placed.variable.in_out {
                    Operand::InOut(placed.in_out)
                } else {
                    Operand::Leaf(placed.leaf)
                }
            }
        }
    }

    fn inner(&self, instance: &[u8], name: &[u8]) -> u32 {
        match self.own.find(instance) {
            None => self.own.leaves,
            Some(placed) => {
                let offset = within(self.tables, &placed.variable, name);
                (placed.leaf as usize + offset) as u32
            }
        }
    }

    fn edge(&self, id: u64) -> u32 {
        number_of_memory(&self.own.own.memories, Key::Edge(id))
    }

    fn output(&self, id: u64, pin: &[u8]) -> u32 {
        number_of_memory(&self.own.own.memories, Key::Output(id, Name { text: pin }))
    }

    fn callee(&self, instance: &[u8]) -> Callee<'_> {
        match self.own.find(instance) {
            None => Callee::Block {
                kind: StdKind::Ton,
                leaf: 0,
            },
            Some(placed) => match placed.variable.standard {
                Some(kind) => Callee::Block {
                    kind,
                    leaf: placed.leaf,
                },
                None => Callee::User {
                    pou: placed.variable.pou,
                    leaves: placed.leaf,
                    memories: placed.memory,
                    in_outs: in_outs_at(self.tables, placed.variable.block),
                },
            },
        }
    }
}

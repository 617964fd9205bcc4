//! Where a localId, a connector or a label stands in a body.
ghost use Rattle.std.specs.Prelude.{◌≡◌, ℕ, List, nat_eq, is_some, IfOk};
ghost use Rattle.std.specs.List.{list_any, position_from};
ghost use Rattle.plcx_rules.specs.Sources.{place_of_id, connector_place};
ghost use Rattle.plcx_rules.specs.LinkRules.{is_label_named};
ghost use Rattle.plcx_names.specs.Bodies.{is_key_of, name_in, IdsTold, NamesTold, label_place};
ghost use Rattle.plcx_names.specs.Told.{place_at, place_of_number, found_or, place_if};
ghost use Rattle.plcx_names.specs.declared.places.Naming.TheVariants.{Connectors, Labels};

use crate::tables::{with_name, with_number};
use crate::texts::in_lower_case;
use indexmap::IndexMap;
use plcx_model::{BodyElement, Kind};
use std::alloc::{AllocError, Global};
use std::marker::Model;

/// What has a name in a body.
#[derive(Clone, Copy, Debug, PartialEq, Eq)]
pub enum Naming {
    Connectors,
    Labels,
}

fn name_in(naming: Naming, kind: &Kind) -> Option<&[u8]>
    ensures { option_map (λ n. n.now) result ≡ name_in naming kind.now }
{
    match (naming, kind) {
        (Naming::Connectors, Kind::Connector { name, .. }) => Some(name.as_slice()),
        (Naming::Labels, Kind::Label { name }) => Some(name.as_slice()),
        _ => None,
    }
}

ghost use Rattle.std.specs.Prelude.{option_map};

/// One element more, if it has a name.
fn with_named(
    alloc: Global,
    naming: Naming,
    table: IndexMap<Vec<u8>, usize>,
    place: usize,
    element: &BodyElement,
) -> Result<IndexMap<Vec<u8>, usize>, AllocError>
    ensures { IfOk result (λ after. (q : List ℕ) → place_at q after.entries ≡ found_or (place_at q table.entries) (place_if (is_key_of naming q element.now) place)) }
{
    Ok(with_name(alloc, table, place, name_in(naming, &element.kind))?)
}

/// The place of each name in lower case.
fn names_of(
    alloc: Global,
    naming: Naming,
    elements: &[BodyElement],
) -> Result<IndexMap<Vec<u8>, usize>, AllocError>
    ensures { IfOk result (λ table. NamesTold naming elements.now table.entries) }
{
    let mut table = IndexMap::new(alloc);
    for (place, element) in elements.iter().enumerate() {
        table = with_named(alloc, naming, table, place, element)?;
    }
    Ok(table)
}

/// One localId more.
fn with_id(
    table: IndexMap<u64, usize>,
    place: usize,
    element: &BodyElement,
) -> Result<IndexMap<u64, usize>, AllocError>
    ensures { IfOk result (λ after. (q : ℕ) → place_of_number q after.entries ≡ found_or (place_of_number q table.entries) (place_if (nat_eq element.now.local_id q) place)) }
{
    Ok(with_number(table, place, element.local_id)?)
}

/// The place of each localId.
fn ids_of(alloc: Global, elements: &[BodyElement]) -> Result<IndexMap<u64, usize>, AllocError>
    ensures { IfOk result (λ table. IdsTold elements.now table.entries) }
{
    let mut table = IndexMap::new(alloc);
    for (place, element) in elements.iter().enumerate() {
        table = with_id(table, place, element)?;
    }
    Ok(table)
}

/// The elements of a body, found by their localIds and names.
#[derive(Drop)]
pub struct Places<'a> {
    elements: &'a [BodyElement],
    ids: IndexMap<u64, usize>,
    connectors: IndexMap<Vec<u8>, usize>,
    labels: IndexMap<Vec<u8>, usize>,
}

impl<'a> Model for Places<'a> {
    ghost use Rattle.std.specs.Prelude.{List};
    ghost use Rattle.plcx_model.specs.declared.body.BodyElement.{BodyElement};
    ghost use Rattle.plcx_names.specs.Bodies.{IdsTold, NamesTold};
    ghost use Rattle.plcx_names.specs.declared.places.Naming.TheVariants.{Connectors, Labels};

    ghost Value = { List BodyElement };

    ghost view = { λ p. p.elements.now };

    ghost invariant = { λ p. IdsTold p.elements.now p.ids.entries × NamesTold Connectors p.elements.now p.connectors.entries × NamesTold Labels p.elements.now p.labels.entries };
}

impl<'a> Places<'a> {
    /// These elements.
    pub fn of(alloc: Global, elements: &'a [BodyElement]) -> Result<Places<'a>, AllocError>
        ensures { IfOk result (λ places. places ≡ elements.now) }
    {
        let ids = ids_of(alloc, elements)?;
        let connectors = names_of(alloc, Naming::Connectors, elements)?;
        let labels = names_of(alloc, Naming::Labels, elements)?;
        Ok(Places {
            elements,
            ids,
            connectors,
            labels,
        })
    }

    /// The elements, in the order of the file.
    pub fn elements(&self) -> &'a [BodyElement]
        ensures { result.now ≡ self.now }
    {
        self.elements
    }

    /// The place of the first element with that localId.
    #[tactic(auto, unfolding(plcx_rules::specs::Sources::place_of_id))]
    pub fn place_of_id(&self, id: u64) -> Option<usize>
        ensures { result ≡ place_of_id self.now id }
    {
        self.ids.get(&id).copied()
    }

    fn connector_at(&self, key: &[u8]) -> Option<usize>
        ensures { result ≡ position_from (is_key_of Connectors key.now) 0 self.now }
    {
        self.connectors.get(key).copied()
    }

    fn label_at(&self, key: &[u8]) -> Option<usize>
        ensures { result ≡ position_from (is_key_of Labels key.now) 0 self.now }
    {
        self.labels.get(key).copied()
    }

    /// The place of the first connector of that name.
    #[tactic(auto, using(crate::proofs::ByName::connector_is))]
    pub fn connector_place(&self, alloc: Global, name: &[u8]) -> Result<Option<usize>, AllocError>
        ensures { IfOk result (λ place. place ≡ connector_place self.now name.now) }
    {
        let key = in_lower_case(alloc, name)?;
        Ok(self.connector_at(key.as_slice()))
    }

    /// The place of the first label of that name.
    #[tactic(auto, using(crate::proofs::ByName::label_is))]
    pub fn label_place(&self, alloc: Global, name: &[u8]) -> Result<Option<usize>, AllocError>
        ensures { IfOk result (λ place. place ≡ label_place self.now name.now) }
    {
        let key = in_lower_case(alloc, name)?;
        Ok(self.label_at(key.as_slice()))
    }
}

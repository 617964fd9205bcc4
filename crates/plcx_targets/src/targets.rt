//! Where jumps and returns lead.
ghost use Rattle.std.specs.Prelude.{◌≡◌, ℕ, List, Some, None, map, length, option_map, slice_get, IfOk};
ghost use Rattle.std.specs.Option.{option_copied};
ghost use Rattle.std.specs.List.{list_any, position_from};
ghost use Rattle.plcx_types.specs.Name.{in_lower_case};
ghost use Rattle.plcx_meaning.specs.Diagram.{has_jump, is_jump, target};
ghost use Rattle.plcx_meaning.specs.Evaluate.{leads_to};
ghost use Rattle.plcx_names.specs.Told.{place_at, found_or, place_if};
ghost use Rattle.plcx_drawn.specs.Shown.{shown_kind, shown_element, shown_network, shown_networks};
ghost use Rattle.plcx_targets.specs.Labels.{label_in, is_labelled, network_of};

use indexmap::IndexMap;
use plcx_drawn::{Drawing, Element, ElementKind};
use plcx_names::{in_lower_case, with_name};
use plcx_types::NoMemory;
use sqlite_items::{Items, at};
use std::alloc::Global;
use std::marker::Model;

/// The element at a place, if there is one.
pub fn element_at<'e, 'a>(elements: &'e [Element<'a>], place: u32) -> Option<&'e Element<'a>>
    ensures { option_map (λ e. shown_element e.now) result ≡ slice_get (map shown_element elements.now) place }
{
    at(elements, place as usize)
}

fn is_jump(kind: &ElementKind) -> bool
    ensures { (id : ℕ) (fed : List Port) → result ≡ is_jump (record { id = id; kind = shown_kind kind.now; fed = fed }) }
{
    matches!(kind, ElementKind::Jump { .. } | ElementKind::Return(_))
}

ghost use Rattle.plcx_meaning.specs.Diagram.{Port};

fn network_jumps(elements: &[Element], places: &[u32]) -> bool
    ensures { result ≡ list_any is_jump (network_of elements.now places.now) }
{
    for place in places {
        if let Some(element) = element_at(elements, *place) {
            if is_jump(&element.kind) {
                return true;
            }
        }
    }
    false
}

/// Whether a body has a jump or a return.
pub fn has_jump(drawing: &Drawing) -> bool
    ensures { result ≡ has_jump (shown_networks drawing.now) }
{
    for network in drawing.networks {
        if network_jumps(drawing.elements(), network.as_slice()) {
            return true;
        }
    }
    false
}

fn label_in<'e>(kind: &'e ElementKind<'_>) -> Option<&'e [u8]>
    ensures { option_map (λ n. n.now) result ≡ label_in (shown_kind kind.now) }
{
    match kind {
        ElementKind::Label(name) => Some(name),
        _ => None,
    }
}

/// One element more, if it is a label that is new.
fn with_element(
    alloc: Global,
    table: IndexMap<Vec<u8>, usize>,
    number: usize,
    element: &Element,
) -> Result<IndexMap<Vec<u8>, usize>, NoMemory>
    ensures { IfOk result (λ after. (q : List ℕ) → place_at q after.entries ≡ found_or (place_at q table.entries) (place_if (is_labelled q (shown_element element.now)) number)) }
{
    Ok(with_name(alloc, table, number, label_in(&element.kind))?)
}

/// The elements of one network more.
fn with_network(
    alloc: Global,
    mut table: IndexMap<Vec<u8>, usize>,
    elements: &[Element],
    number: usize,
    places: &[u32],
) -> Result<IndexMap<Vec<u8>, usize>, NoMemory>
    ensures { IfOk result (λ after. (q : List ℕ) → place_at q after.entries ≡ found_or (place_at q table.entries) (place_if (list_any (is_labelled q) (network_of elements.now places.now)) number)) }
{
    for place in places {
        if let Some(element) = element_at(elements, *place) {
            table = with_element(alloc, table, number, element)?;
        }
    }
    Ok(table)
}

/// The number of the first network in which each label stands, by its name in lower case.
fn labels_of(
    alloc: Global,
    elements: &[Element],
    networks: &[Items<u32>],
) -> Result<IndexMap<Vec<u8>, usize>, NoMemory>
    ensures { IfOk result (λ table. LabelsTold (map (network_of elements.now) networks.now) table.entries) }
{
    let mut table = IndexMap::new(alloc);
    for (number, network) in networks.iter().enumerate() {
        table = with_network(alloc, table, elements, number, network.as_slice())?;
    }
    Ok(table)
}

ghost use Rattle.plcx_targets.specs.Labels.{LabelsTold};

/// The networks of a body, of which those of labels are found by their names.
#[derive(Drop)]
pub struct Targets<'d, 'a> {
    drawing: &'d Drawing<'a>,
    labels: IndexMap<Vec<u8>, usize>,
}

impl<'d, 'a> Model for Targets<'d, 'a> {
    ghost use Rattle.std.specs.Prelude.{List};
    ghost use Rattle.plcx_meaning.specs.Diagram.{DiagramElement};
    ghost use Rattle.plcx_drawn.specs.Shown.{shown_networks};
    ghost use Rattle.plcx_targets.specs.Labels.{LabelsTold};

    ghost Value = { List (List DiagramElement) };

    ghost view = { λ t. shown_networks t.drawing.now };

    ghost invariant = { λ t. LabelsTold (shown_networks t.drawing.now) t.labels.entries };
}

impl<'d, 'a> Targets<'d, 'a> {
    /// The networks of a drawing.
    pub fn of(alloc: Global, drawing: &'d Drawing<'a>) -> Result<Targets<'d, 'a>, NoMemory>
        ensures { IfOk result (λ targets. targets ≡ shown_networks drawing.now) }
    {
        let labels = labels_of(alloc, drawing.elements(), drawing.networks)?;
        Ok(Targets { drawing, labels })
    }

    /// The number behind that of the last network.
    pub fn end(&self) -> usize
        ensures { result ≡ length self.now }
    {
        self.drawing.networks.len()
    }

    fn labelled(&self, key: &[u8]) -> Option<usize>
        ensures { result ≡ position_from (list_any (is_labelled key.now)) 0 self.now }
    {
        self.labels.get(key).copied()
    }

    /// The number of the first network with that label.
    fn target(&self, alloc: Global, label: &[u8]) -> Result<usize, NoMemory>
        ensures { IfOk result (λ number. number ≡ target label.now self.now) }
    {
        let key = in_lower_case(alloc, label)?;
        match self.labelled(key.as_slice()) {
            Some(number) => Ok(number),
            None => Ok(self.end()),
        }
    }

    /// Where a jump leads to the network of its label, and a return behind the last one.
    pub fn leads_to(&self, alloc: Global, kind: &ElementKind) -> Result<Option<usize>, NoMemory>
        ensures { IfOk result (λ number. number ≡ leads_to self.now (shown_kind kind.now)) }
    {
        match kind {
            ElementKind::Jump { label, .. } => Ok(Some(self.target(alloc, label)?)),
            ElementKind::Return(_) => Ok(Some(self.end())),
            _ => Ok(None),
        }
    }
}

//! Reading the body of a POU.
ghost use Rattle.std.specs.Prelude.{◌≡◌, ◌++◌, Some, None, option_copied, option_and_then, codes, IfOk};
ghost use Rattle.plcx_model.specs.declared.body.Kind.TheVariants as kind;
ghost use Rattle.plcx_table.specs.Constructs.{attribute_of};
ghost use Rattle.plcx_table.specs.declared.row.Fate.TheVariants.{Read};
ghost use Rattle.plcx_xml.specs.declared.tree.Node.{out-Node};
ghost use Rattle.plcx_draft.specs.Parts.{parts_in, first_part, first_child, text_under};
ghost use Rattle.plcx_draft.specs.BodyIn.{is_marked, edge_in, storage_in, modifiers_in, input_of, rail_point, rail_input, input_pin, output_pin, nonempty, block_in, kind_in, coordinate_or, coordinate_at, order_in, placed_at, skipped, element_as, body_of, diagram_in, body_or, body_in};

use crate::part::{Part, copied, first_child, first_part, more, parts_in, text_under};
use plcx_model::{Body, BodyElement, Connection, Edge, Kind, Mods, PinIn, PinOut, Storage};
use plcx_table::{
    Fate, Row, attribute_of, coordinate, fate_for, first_value, number, number_at, same,
};
use plcx_xml::{Element, Node};
use sqlite_items::Items;
use std::alloc::{AllocError, Global};

/// Whether an attribute says yes.
#[tactic(auto, unfolding(crate::specs::BodyIn::is_marked))]
pub fn is_marked(element: &Element, name: &str) -> bool
    ensures { result ≡ is_marked name.now element.now }
{
    let value = attribute_of(element, name);
    same(value, b"true") || same(value, b"1")
}

#[tactic(auto, unfolding(crate::specs::BodyIn::edge_in))]
fn edge_in(text: &[u8]) -> Edge
    ensures { result ≡ edge_in text.now }
{
    if same(text, b"rising") {
        Edge::Rising
    } else if same(text, b"falling") {
        Edge::Falling
    } else {
        Edge::Plain
    }
}

#[tactic(auto, unfolding(crate::specs::BodyIn::storage_in))]
fn storage_in(text: &[u8]) -> Storage
    ensures { result ≡ storage_in text.now }
{
    if same(text, b"set") {
        Storage::Set
    } else if same(text, b"reset") {
        Storage::Reset
    } else {
        Storage::Plain
    }
}

#[tactic(auto, unfolding(crate::specs::BodyIn::modifiers_in))]
fn modifiers_in(element: &Element) -> Mods
    ensures { result ≡ modifiers_in element.now }
{
    Mods {
        negated: is_marked(element, "negated"),
        edge: edge_in(attribute_of(element, "edge")),
        storage: storage_in(attribute_of(element, "storage")),
    }
}

impl Part for Connection {
    ghost use Rattle.plcx_draft.specs.BodyIn.{connection_in};

    ghost part = { connection_in };

    #[tactic(auto, unfolding(crate::specs::BodyIn::connection_in))]
    fn read(alloc: Global, element: &Element) -> Result<Option<Self>, AllocError> {
        if !same(element.name(), b"connection") {
            return Ok(None);
        }
        Ok(Some(Connection {
            element: number_at(element, "refLocalId"),
            formal: copied(alloc, attribute_of(element, "formalParameter"))?,
        }))
    }
}

/// The connections of an element's or a pin's input point.
#[tactic(auto, unfolding(crate::specs::BodyIn::input_of))]
fn input_of(alloc: Global, element: &Element) -> Result<Items<Connection>, AllocError>
    ensures { IfOk result (λ items. items ≡ input_of element.now) }
{
    Ok(parts_in(alloc, first_child(element, "connectionPointIn"))?)
}

impl Part for PinIn {
    ghost use Rattle.plcx_draft.specs.BodyIn.{input_pin};

    ghost part = { input_pin };

    #[tactic(auto, unfolding(crate::specs::BodyIn::input_pin))]
    fn read(alloc: Global, element: &Element) -> Result<Option<Self>, AllocError> {
        if !same(element.name(), b"variable") {
            return Ok(None);
        }
        Ok(Some(PinIn {
            formal: copied(alloc, attribute_of(element, "formalParameter"))?,
            mods: modifiers_in(element),
            input: input_of(alloc, element)?,
        }))
    }
}

impl Part for PinOut {
    ghost use Rattle.plcx_draft.specs.BodyIn.{output_pin};

    ghost part = { output_pin };

    #[tactic(auto, unfolding(crate::specs::BodyIn::output_pin))]
    fn read(alloc: Global, element: &Element) -> Result<Option<Self>, AllocError> {
        if !same(element.name(), b"variable") {
            return Ok(None);
        }
        Ok(Some(PinOut {
            formal: copied(alloc, attribute_of(element, "formalParameter"))?,
            mods: modifiers_in(element),
        }))
    }
}

fn nonempty(alloc: Global, text: &[u8]) -> Result<Option<Items<u8>>, AllocError>
    ensures { IfOk result (λ found. found ≡ nonempty text.now) }
{
    if same(text, b"") {
        Ok(None)
    } else {
        Ok(Some(copied(alloc, text)?))
    }
}

fn instance_of(alloc: Global, element: &Element) -> Result<Option<Items<u8>>, AllocError>
    ensures { IfOk result (λ found. found ≡ nonempty (attribute_of (codes "instanceName") element.now)) }
{
    Ok(nonempty(alloc, attribute_of(element, "instanceName"))?)
}

fn type_of(alloc: Global, element: &Element) -> Result<Items<u8>, AllocError>
    ensures { IfOk result (λ text. text ≡ attribute_of (codes "typeName") element.now) }
{
    copied(alloc, attribute_of(element, "typeName"))
}

fn input_pins(alloc: Global, element: &Element, list: &str) -> Result<Items<PinIn>, AllocError>
    ensures { IfOk result (λ pins. pins ≡ parts_in input_pin (first_child list.now element.now)) }
{
    Ok(parts_in(alloc, first_child(element, list))?)
}

fn output_pins(alloc: Global, element: &Element) -> Result<Items<PinOut>, AllocError>
    ensures { IfOk result (λ pins. pins ≡ parts_in output_pin (first_child (codes "outputVariables") element.now)) }
{
    Ok(parts_in(alloc, first_child(element, "outputVariables"))?)
}

#[tactic(auto, unfolding(crate::specs::BodyIn::block_in))]
fn block_in(alloc: Global, element: &Element) -> Result<Kind, AllocError>
    ensures { IfOk result (λ kind. kind ≡ block_in element.now) }
{
    let type_name = type_of(alloc, element)?;
    let instance = instance_of(alloc, element)?;
    let inputs = input_pins(alloc, element, "inputVariables")?;
    let in_outs = input_pins(alloc, element, "inOutVariables")?;
    let outputs = output_pins(alloc, element)?;
    Ok(Kind::Block {
        type_name,
        instance,
        inputs,
        in_outs,
        outputs,
    })
}

/// The connections of one more point of a right rail, behind those found so far.
fn with_point(
    alloc: Global,
    found: Vec<Connection>,
    node: &Node,
) -> Result<Vec<Connection>, AllocError>
    ensures { IfOk result (λ all. all.items ≡ found.items ++ rail_point (out-Node node.now)) }
{
    match node {
        Node::Element(child) => {
            if same(child.name(), b"connectionPointIn") {
                Ok(more(alloc, found, child)?)
            } else {
                Ok(found)
            }
        }
        Node::Text(_) => Ok(found),
    }
}

/// The connections of all points of a right rail.
#[tactic(auto, unfolding(crate::specs::BodyIn::rail_input))]
fn rail_input(alloc: Global, element: &Element) -> Result<Items<Connection>, AllocError>
    ensures { IfOk result (λ items. items ≡ rail_input element.now) }
{
    let mut found = Vec::new(alloc);
    for node in element.children() {
        found = with_point(alloc, found, node)?;
    }
    Ok(Items::from_vec(found))
}

fn variable_kind(alloc: Global, element: &Element) -> Result<Kind, AllocError>
    ensures { IfOk result (λ k. k ≡ kind.In (text_under (codes "expression") element.now) (modifiers_in element.now)) }
{
    let text = copied(alloc, text_under(element, "expression"))?;
    let mods = modifiers_in(element);
    Ok(Kind::In { text, mods })
}

fn target_kind(alloc: Global, element: &Element) -> Result<Kind, AllocError>
    ensures { IfOk result (λ k. k ≡ kind.Out (input_of element.now) (text_under (codes "expression") element.now) (modifiers_in element.now)) }
{
    let input = input_of(alloc, element)?;
    let text = copied(alloc, text_under(element, "expression"))?;
    let mods = modifiers_in(element);
    Ok(Kind::Out { input, text, mods })
}

fn contact_kind(alloc: Global, element: &Element) -> Result<Kind, AllocError>
    ensures { IfOk result (λ k. k ≡ kind.Contact (input_of element.now) (text_under (codes "variable") element.now) (modifiers_in element.now)) }
{
    let input = input_of(alloc, element)?;
    let text = copied(alloc, text_under(element, "variable"))?;
    let mods = modifiers_in(element);
    Ok(Kind::Contact { input, text, mods })
}

fn coil_kind(alloc: Global, element: &Element) -> Result<Kind, AllocError>
    ensures { IfOk result (λ k. k ≡ kind.Coil (input_of element.now) (text_under (codes "variable") element.now) (modifiers_in element.now)) }
{
    let input = input_of(alloc, element)?;
    let text = copied(alloc, text_under(element, "variable"))?;
    let mods = modifiers_in(element);
    Ok(Kind::Coil { input, text, mods })
}

fn connector_kind(alloc: Global, element: &Element) -> Result<Kind, AllocError>
    ensures { IfOk result (λ k. k ≡ kind.Connector (attribute_of (codes "name") element.now) (input_of element.now)) }
{
    let name = copied(alloc, attribute_of(element, "name"))?;
    let input = input_of(alloc, element)?;
    Ok(Kind::Connector { name, input })
}

fn continuation_kind(alloc: Global, element: &Element) -> Result<Kind, AllocError>
    ensures { IfOk result (λ k. k ≡ kind.Continuation (attribute_of (codes "name") element.now)) }
{
    let name = copied(alloc, attribute_of(element, "name"))?;
    Ok(Kind::Continuation { name })
}

fn label_kind(alloc: Global, element: &Element) -> Result<Kind, AllocError>
    ensures { IfOk result (λ k. k ≡ kind.Label (attribute_of (codes "label") element.now)) }
{
    let name = copied(alloc, attribute_of(element, "label"))?;
    Ok(Kind::Label { name })
}

fn jump_kind(alloc: Global, element: &Element) -> Result<Kind, AllocError>
    ensures { IfOk result (λ k. k ≡ kind.Jump (attribute_of (codes "label") element.now) (input_of element.now)) }
{
    let label = copied(alloc, attribute_of(element, "label"))?;
    let input = input_of(alloc, element)?;
    Ok(Kind::Jump { label, input })
}

fn return_kind(alloc: Global, element: &Element) -> Result<Kind, AllocError>
    ensures { IfOk result (λ k. k ≡ kind.Return (input_of element.now)) }
{
    let input = input_of(alloc, element)?;
    Ok(Kind::Return { input })
}

fn right_rail_kind(alloc: Global, element: &Element) -> Result<Kind, AllocError>
    ensures { IfOk result (λ k. k ≡ kind.RightRail (rail_input element.now)) }
{
    let input = rail_input(alloc, element)?;
    Ok(Kind::RightRail { input })
}

/// What an element is that is read as this row.
#[tactic(auto, unfolding(crate::specs::BodyIn::kind_in))]
fn kind_in(alloc: Global, row: Row, element: &Element) -> Result<Option<Kind>, AllocError>
    ensures { IfOk result (λ found. found ≡ kind_in row element.now) }
{
    match row {
        Row::Block => Ok(Some(block_in(alloc, element)?)),
        Row::InVariable => Ok(Some(variable_kind(alloc, element)?)),
        Row::OutVariable => Ok(Some(target_kind(alloc, element)?)),
        Row::Contact => Ok(Some(contact_kind(alloc, element)?)),
        Row::Coil => Ok(Some(coil_kind(alloc, element)?)),
        Row::Connector => Ok(Some(connector_kind(alloc, element)?)),
        Row::Continuation => Ok(Some(continuation_kind(alloc, element)?)),
        Row::Label => Ok(Some(label_kind(alloc, element)?)),
        Row::Jump => Ok(Some(jump_kind(alloc, element)?)),
        Row::Return => Ok(Some(return_kind(alloc, element)?)),
        Row::LeftRail => Ok(Some(Kind::LeftRail)),
        Row::RightRail => Ok(Some(right_rail_kind(alloc, element)?)),
        _ => Ok(None),
    }
}

fn coordinate_at(position: Option<&Element>, name: &str) -> i64
    ensures { result ≡ coordinate_at name.now (option_copied position.entry) }
{
    match position {
        None => 0,
        Some(position) => match coordinate(attribute_of(position, name)) {
            None => 0,
            Some(n) => n,
        },
    }
}

#[tactic(auto, unfolding(crate::specs::BodyIn::order_in))]
fn order_in(element: &Element) -> Option<u64>
    ensures { result ≡ order_in element.now }
{
    number(first_value(element, "executionOrderId")?)
}

fn placed_at(element: &Element, position: Option<&Element>, kind: Kind) -> BodyElement
    ensures { result ≡ placed_at element.now (option_copied position.entry) kind }
{
    BodyElement {
        local_id: number_at(element, "localId"),
        order: order_in(element),
        x: coordinate_at(position, "x"),
        y: coordinate_at(position, "y"),
        kind,
    }
}

fn skipped(element: &Element) -> BodyElement
    ensures { result ≡ skipped element.now }
{
    BodyElement {
        local_id: number_at(element, "localId"),
        order: None,
        x: 0,
        y: 0,
        kind: Kind::Skipped,
    }
}

fn read_element(
    alloc: Global,
    row: Row,
    element: &Element,
) -> Result<Option<BodyElement>, AllocError>
    ensures { IfOk result (λ found. found ≡ element_as (Some (Read row)) element.now) }
{
    match kind_in(alloc, row, element)? {
        None => Ok(None),
        Some(kind) => Ok(Some(placed_at(element, first_child(element, "position"), kind))),
    }
}

impl Part for BodyElement {
    ghost use Rattle.plcx_draft.specs.BodyIn.{element_in};

    ghost part = { element_in };

    #[tactic(auto, unfolding(crate::specs::BodyIn::element_in))]
    fn read(alloc: Global, element: &Element) -> Result<Option<Self>, AllocError> {
        match fate_for(Row::Diagram, element) {
            Some(Fate::Read(row)) => Ok(read_element(alloc, row, element)?),
            Some(Fate::Skipped(_)) => Ok(Some(skipped(element))),
            _ => Ok(None),
        }
    }
}

fn body_of(alloc: Global, ladder: bool, element: &Element) -> Result<Body, AllocError>
    ensures { IfOk result (λ body. body ≡ body_of ladder element.now) }
{
    let elements = parts_in(alloc, Some(element))?;
    Ok(Body { ladder, elements })
}

impl Part for Body {
    ghost use Rattle.plcx_draft.specs.BodyIn.{diagram_in};

    ghost part = { diagram_in };

    #[tactic(auto, unfolding(crate::specs::BodyIn::diagram_in))]
    fn read(alloc: Global, element: &Element) -> Result<Option<Self>, AllocError> {
        if same(element.name(), b"FBD") {
            Ok(Some(body_of(alloc, false, element)?))
        } else if same(element.name(), b"LD") {
            Ok(Some(body_of(alloc, true, element)?))
        } else {
            Ok(None)
        }
    }
}

/// The diagram in an element, if the element is there.
fn diagram_under(alloc: Global, element: Option<&Element>) -> Result<Option<Body>, AllocError>
    ensures { IfOk result (λ found. found ≡ option_and_then (first_part diagram_in) (option_copied element.entry)) }
{
    match element {
        None => Ok(None),
        Some(element) => Ok(first_part(alloc, element)?),
    }
}

fn empty_body(alloc: Global) -> Body
    ensures { result ≡ body_or None }
{
    Body {
        ladder: false,
        elements: Items::new(alloc),
    }
}

/// The body of a POU.
#[tactic(auto, unfolding(crate::specs::BodyIn::body_in))]
pub fn body_in(alloc: Global, pou: &Element) -> Result<Body, AllocError>
    ensures { IfOk result (λ body. body ≡ body_in pou.now) }
{
    match diagram_under(alloc, first_child(pou, "body"))? {
        None => Ok(empty_body(alloc)),
        Some(body) => Ok(body),
    }
}

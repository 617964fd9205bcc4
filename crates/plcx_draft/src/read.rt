//! Reading the declarations of a file.
ghost use Rattle.std.specs.Prelude.{◌≡◌, map, option_copied, option_and_then, codes, IfOk};
ghost use Rattle.std.specs.Char.{to_ascii_uppercase};
ghost use Rattle.plcx_types.specs.Name.{in_upper_case};
ghost use Rattle.plcx_draft.specs.Parts.{parts_in, first_part, first_child};
ghost use Rattle.plcx_draft.specs.DraftIn.{plain_type, type_of, type_or, type_in, value_at, initial_in, class_named, takes_marks, list_of, kind_of, draft_in};

use crate::body::{body_in, is_marked};
use crate::draft::{Draft, DraftList, DraftPou, DraftType, DraftVariable};
use crate::part::{Part, copied, first_child, first_part, parts_in};
use plcx_model::{ListClass, PouKind};
use plcx_table::{attribute_of, same};
use plcx_types::Ty;
use plcx_xml::Element;
use sqlite_items::Items;
use std::alloc::{AllocError, Global};

fn in_upper_case(alloc: Global, text: &[u8]) -> Result<Items<u8>, AllocError>
    ensures { IfOk result (λ items. items ≡ in_upper_case text.now) }
{
    let mut copy = Vec::from_slice(alloc, text)?;
    copy.as_mut_slice().make_ascii_uppercase();
    Ok(Items::from_vec(copy))
}

impl Part for DraftType {
    ghost use Rattle.plcx_draft.specs.DraftIn.{type_of};

    ghost part = { type_of };

    #[tactic(auto, unfolding(crate::specs::DraftIn::type_of))]
    fn read(alloc: Global, element: &Element) -> Result<Option<Self>, AllocError> {
        if same(element.name(), b"derived") {
            let name = copied(alloc, attribute_of(element, "name"))?;
            return Ok(Some(DraftType::Derived(name)));
        }
        match Ty::named(element.name()) {
            None => Ok(None),
            Some(ty) => Ok(Some(DraftType::Plain(ty))),
        }
    }
}

fn type_under(alloc: Global, element: Option<&Element>) -> Result<Option<DraftType>, AllocError>
    ensures { IfOk result (λ found. found ≡ option_and_then (first_part type_of) (option_copied element.entry)) }
{
    match element {
        None => Ok(None),
        Some(element) => Ok(first_part(alloc, element)?),
    }
}

#[tactic(auto, unfolding(crate::specs::DraftIn::type_in))]
fn type_in(alloc: Global, element: &Element) -> Result<DraftType, AllocError>
    ensures { IfOk result (λ ty. ty ≡ type_in element.now) }
{
    match type_under(alloc, first_child(element, "type"))? {
        None => Ok(DraftType::Derived(Items::new(alloc))),
        Some(ty) => Ok(ty),
    }
}

fn value_at(alloc: Global, element: Option<&Element>) -> Result<Option<Items<u8>>, AllocError>
    ensures { IfOk result (λ found. found ≡ value_at (option_copied element.entry)) }
{
    match element {
        None => Ok(None),
        Some(element) => Ok(Some(copied(alloc, attribute_of(element, "value"))?)),
    }
}

fn child_of<'a, 'f>(element: &'a Element<'f>, name: &str, inner: &str) -> Option<&'a Element<'f>>
    ensures { option_copied result ≡ option_and_then (first_child inner.now) (first_child name.now element.now) }
{
    first_child(first_child(element, name)?, inner)
}

#[tactic(auto, unfolding(crate::specs::DraftIn::initial_in))]
fn initial_in(alloc: Global, element: &Element) -> Result<Option<Items<u8>>, AllocError>
    ensures { IfOk result (λ found. found ≡ initial_in element.now) }
{
    Ok(value_at(alloc, child_of(element, "initialValue", "simpleValue"))?)
}

impl Part for DraftVariable {
    ghost use Rattle.plcx_draft.specs.DraftIn.{variable_in};

    ghost part = { variable_in };

    #[tactic(auto, unfolding(crate::specs::DraftIn::variable_in))]
    fn read(alloc: Global, element: &Element) -> Result<Option<Self>, AllocError> {
        if !same(element.name(), b"variable") {
            return Ok(None);
        }
        let name = copied(alloc, attribute_of(element, "name"))?;
        let address = in_upper_case(alloc, attribute_of(element, "address"))?;
        let ty = type_in(alloc, element)?;
        let initial = initial_in(alloc, element)?;
        Ok(Some(DraftVariable {
            name,
            address,
            ty,
            initial,
            start: element.span.start,
        }))
    }
}

#[tactic(auto, unfolding(crate::specs::DraftIn::class_named))]
fn class_named(name: &[u8]) -> Option<ListClass>
    ensures { result ≡ class_named name.now }
{
    if same(name, b"localVars") {
        Some(ListClass::Local)
    } else if same(name, b"inputVars") {
        Some(ListClass::Input)
    } else if same(name, b"outputVars") {
        Some(ListClass::Output)
    } else if same(name, b"inOutVars") {
        Some(ListClass::InOut)
    } else {
        None
    }
}

fn takes_marks(class: ListClass) -> bool
    ensures { result ≡ takes_marks class }
{
    class != ListClass::InOut
}

fn list_of(alloc: Global, element: &Element, class: ListClass) -> Result<DraftList, AllocError>
    ensures { IfOk result (λ list. list ≡ list_of element.now class) }
{
    let constant = is_marked(element, "constant");
    let retain = is_marked(element, "retain");
    let variables = parts_in(alloc, Some(element))?;
    Ok(DraftList {
        class,
        constant: takes_marks(class) && constant,
        retain: takes_marks(class) && !constant && retain,
        variables,
    })
}

impl Part for DraftList {
    ghost use Rattle.plcx_draft.specs.DraftIn.{list_in};

    ghost part = { list_in };

    #[tactic(auto, unfolding(crate::specs::DraftIn::list_in))]
    fn read(alloc: Global, element: &Element) -> Result<Option<Self>, AllocError> {
        match class_named(element.name()) {
            None => Ok(None),
            Some(class) => Ok(Some(list_of(alloc, element, class)?)),
        }
    }
}

fn kind_of(text: &[u8]) -> PouKind
    ensures { result ≡ kind_of text.now }
{
    if same(text, b"program") {
        PouKind::Program
    } else {
        PouKind::FunctionBlock
    }
}

impl Part for DraftPou {
    ghost use Rattle.plcx_draft.specs.DraftIn.{pou_in};

    ghost part = { pou_in };

    #[tactic(auto, unfolding(crate::specs::DraftIn::pou_in))]
    fn read(alloc: Global, element: &Element) -> Result<Option<Self>, AllocError> {
        if !same(element.name(), b"pou") {
            return Ok(None);
        }
        let name = copied(alloc, attribute_of(element, "name"))?;
        let lists = parts_in(alloc, first_child(element, "interface"))?;
        let body = body_in(alloc, element)?;
        Ok(Some(DraftPou {
            name,
            kind: kind_of(attribute_of(element, "pouType")),
            lists,
            body,
            start: element.span.start,
        }))
    }
}

/// The draft of a file: what it says, whether it breaks a rule or not.
#[tactic(auto, unfolding(crate::specs::DraftIn::draft_in))]
pub fn draft_in(alloc: Global, root: &Element) -> Result<Draft, AllocError>
    ensures { IfOk result (λ draft. draft ≡ draft_in root.now) }
{
    let pous = parts_in(alloc, child_of(root, "types", "pous"))?;
    Ok(Draft { pous })
}

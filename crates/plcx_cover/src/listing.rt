//! The wires of a project, listed from its drawings.
ghost use Rattle.std.specs.Prelude.{◌≡◌, ◌+◌, ◌++◌, List, map, IfOk};
ghost use Rattle.std.specs.List.{flat_map};
ghost use Rattle.plcx_drawn.specs.Pous.{shown_pou};
ghost use Rattle.plcx_drawn.specs.Shown.{shown_element, shown_port};
ghost use Rattle.plcx_model.specs.declared.project.Pou.{Pou};
ghost use Rattle.plcx_cover.specs.Wires.{wires_from, element_wires, wires_of};
ghost use Rattle.plcx_cover.specs.Listed.{shown_wire};

use plcx_drawn::{Drawing, Element, Port, ports};
use plcx_types::{NoMemory, Ty};
use std::alloc::Global;

/// An output of an element: the place of its POU and the POU's name, the element, the output's number among the
/// element's and the name of its pin, and its type.
#[derive(Clone, Copy)]
pub(crate) struct Wire<'a> {
    pub(crate) pou: u32,
    pub(crate) name: &'a [u8],
    pub(crate) local_id: u64,
    pub(crate) number: u32,
    pub(crate) pin: &'a [u8],
    pub(crate) ty: Ty,
}

/// The next number. What is too large for one would not have fitted the memory.
fn next(number: u32) -> Result<u32, NoMemory>
    ensures { IfOk result (λ after. after ≡ number + 1) }
{
    if number < u32::MAX {
        Ok(number + 1)
    } else {
        Err(NoMemory)
    }
}

/// The outputs of an element more, from this number on.
fn with_ports<'a>(
    wires: Vec<Wire<'a>>,
    pou: u32,
    name: &'a [u8],
    local_id: u64,
    ports: &[Port<'a>],
) -> Result<Vec<Wire<'a>>, NoMemory>
    ensures { IfOk result (λ more. map shown_wire more.items
        ≡ map shown_wire wires.entry.items ++ wires_from pou name.now local_id 0 (map shown_port ports.now)) }
{
    let mut all = wires;
    let mut number = 0;
    for port in ports {
        all.push(Wire {
            pou,
            name,
            local_id,
            number,
            pin: port.pin,
            ty: port.ty,
        })?;
        number = next(number)?;
    }
    Ok(all)
}

/// An element more.
fn with_element<'a>(
    alloc: Global,
    wires: Vec<Wire<'a>>,
    pou: u32,
    name: &'a [u8],
    element: &Element<'a>,
) -> Result<Vec<Wire<'a>>, NoMemory>
    ensures { IfOk result (λ more. map shown_wire more.items
        ≡ map shown_wire wires.entry.items ++ element_wires pou name.now (shown_element element.now)) }
{
    let ports = ports(alloc, &element.kind)?;
    with_ports(wires, pou, name, element.id, &ports)
}

/// Elements more, of one POU.
fn with_elements<'a>(
    alloc: Global,
    wires: Vec<Wire<'a>>,
    pou: u32,
    name: &'a [u8],
    elements: &[Element<'a>],
) -> Result<Vec<Wire<'a>>, NoMemory>
    ensures { IfOk result (λ more. map shown_wire more.items
        ≡ map shown_wire wires.entry.items ++ flat_map (element_wires pou name.now) (map shown_element elements.now)) }
{
    let mut all = wires;
    for element in elements {
        all = with_element(alloc, all, pou, name, element)?;
    }
    Ok(all)
}

/// The wires of a project that is drawn so.
pub(crate) fn wires_of<'a>(
    alloc: Global,
    drawings: &[Drawing<'a>],
) -> Result<Vec<Wire<'a>>, NoMemory>
    ensures { IfOk result (λ wires. (pous : List Pou) → map shown_wire wires.items ≡ wires_of (map (shown_pou pous) drawings.now)) }
{
    let mut all = Vec::new(alloc);
    let mut place = 0;
    for drawing in drawings {
        let name = drawing.pou.name.text();
        all = with_elements(alloc, all, place, name, drawing.elements())?;
        place = next(place)?;
    }
    Ok(all)
}

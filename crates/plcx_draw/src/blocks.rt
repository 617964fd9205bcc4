//! Blocks: what they list, and functions.
ghost use Rattle.std.specs.Prelude.{◌≡◌, map, option_map, IfOk, Some, [], ◌++◌};
ghost use Rattle.std.specs.List.{cons_option};
ghost use Rattle.plcx_meaning.specs.Functions.{group_index};
ghost use Rattle.plcx_drawn.specs.Shown.{shown_link, shown_kind};
ghost use Rattle.plcx_rules.specs.Callees.{output_formal};
ghost use Rattle.plcx_rules.specs.declared.callee.Callee.TheVariants.{Function};
ghost use Rattle.plcx_view.specs.Blocks.{function_links, group_by};
ghost use Rattle.plcx_draw.specs.Known.{formals_by, shown_output};
ghost use Rattle.plcx_draw.specs.Listed.{Lists, IsBlock};
ghost use Rattle.plcx_draw.specs.Pins.{shown_pins};
ghost use Rattle.plcx_draw.specs.Wired.{shown_wired, link_named};

use crate::pins::Pins;
use crate::sheet::Sheet;
use crate::wired::{Wired, beside_enable, input_named, is_negated, with_pins};
use plcx_drawn::{ElementKind, Link};
use plcx_funcs::Func;
use plcx_model::{PinIn, PinOut};
use plcx_names::{Formal, function_input_name, narrow};
use plcx_rules::Callee;
use plcx_types::{NoMemory, Ty};
use sqlite_items::Items;
use std::alloc::Global;

/// What a block lists: its instance, its inputs and in-outs with their pins, and its outputs.
#[derive(Drop)]
pub(crate) struct Listed<'a> {
    pub(crate) instance: Option<&'a [u8]>,
    pub(crate) inputs: Vec<Wired<'a>>,
    pub(crate) in_outs: Vec<Wired<'a>>,
    pub(crate) outputs: &'a [PinOut],
}

/// The bytes of a text, if there is one.
pub(crate) fn text_of(text: &Option<Items<u8>>) -> Option<&[u8]>
    ensures { option_map (λ n. n.now) result ≡ text.now }
{
    match text {
        None => None,
        Some(text) => Some(text.as_slice()),
    }
}

impl<'a> Listed<'a> {
    /// A block that lists these, whose pins come first among those.
    pub(crate) fn of(
        alloc: Global,
        instance: Option<&'a [u8]>,
        inputs: &'a [PinIn],
        in_outs: &'a [PinIn],
        outputs: &'a [PinOut],
        pins: Pins<'a>,
    ) -> Result<Listed<'a>, NoMemory>
        ensures { IfOk result (λ listed. Lists listed (option_map (λ n. n.now) instance.entry) inputs.entry.now in_outs.entry.now outputs.entry.now (shown_pins pins.entry)) }
    {
        let in_out_pins = pins.behind(inputs.len());
        Ok(Listed {
            instance,
            inputs: with_pins(alloc, inputs, pins)?,
            in_outs: with_pins(alloc, in_outs, in_out_pins)?,
            outputs,
        })
    }
}

/// The place of the input that tells the type of the group.
fn group_index(func: Func) -> usize
    ensures { result ≡ group_index func }
{
    match func {
        Func::Sel | Func::Mux => 1,
        _ => 0,
    }
}

/// The type of the group, by what stands at the inputs.
fn group_by(func: Func, links: &[Link]) -> Ty
    ensures { result ≡ group_by func (map shown_link links.now) }
{
    match links.get(group_index(func)) {
        None => Ty::Bool,
        Some(link) => link.ty,
    }
}

/// One link more, if there is one.
fn with_link<'a>(
    mut links: Vec<Link<'a>>,
    link: Option<Link<'a>>,
) -> Result<Vec<Link<'a>>, NoMemory>
    ensures { IfOk result (λ more. map shown_link more.items ≡ map shown_link links.entry.items ++ cons_option (option_map shown_link link.entry) []) }
{
    if let Some(link) = link {
        links.push(link)?;
    }
    Ok(links)
}

impl<'s, 'a> Sheet<'s, 'a> {
    /// What stands at the input of that name, where it is listed.
    fn link_named(
        &self,
        alloc: Global,
        inputs: &[Wired],
        name: &[u8],
    ) -> Result<Option<Link<'a>>, NoMemory>
        ensures { IfOk result (λ link. option_map shown_link link ≡ link_named self.now.pous self.now.pou name.now (map shown_wired inputs.now)) }
    {
        match input_named(inputs, name) {
            None => Ok(None),
            Some(wired) => {
                let link = self.wired_link(alloc, &wired)?;
                Ok(Some(link))
            }
        }
    }

    /// What stands at the inputs of a function, in the order of its signature.
    fn function_links(
        &self,
        alloc: Global,
        func: Func,
        inputs: &[Wired],
    ) -> Result<Vec<Link<'a>>, NoMemory>
        ensures { IfOk result (λ links. map shown_link links.items ≡ function_links self.now.pous self.now.pou func (map shown_wired inputs.now)) }
    {
        let mut links = Vec::new(alloc);
        for place in 0..narrow(inputs.len())? {
            let name = function_input_name(alloc, func, place)?;
            let link = self.link_named(alloc, inputs, name.as_bytes())?;
            links = with_link(links, link)?;
        }
        Ok(links)
    }

    /// A function, with what stands at its inputs.
    fn function(
        &self,
        alloc: Global,
        func: Func,
        listed: &Listed<'a>,
    ) -> Result<ElementKind<'a>, NoMemory>
        ensures { IfOk result (λ kind. IsBlock self.now.pous self.now.pou (Some (Function func)) listed.now (shown_kind kind)) }
    {
        let enable = self.enable_of(alloc, &listed.inputs, listed.outputs)?;
        let beside = beside_enable(alloc, &listed.inputs)?;
        let inputs = self.function_links(alloc, func, &beside)?;
        Ok(ElementKind::Function {
            func,
            ty: group_by(func, &inputs),
            enable,
            inputs: Items::from_vec(inputs),
            negated: is_negated(listed.outputs),
        })
    }

    /// A block that calls something.
    fn calling(
        &self,
        alloc: Global,
        callee: Callee,
        formals: &[Option<Formal<'a>>],
        listed: &Listed<'a>,
    ) -> Result<ElementKind<'a>, NoMemory>
        requires { map shown_output formals.now ≡ map (output_formal self.now.pous callee listed.now.outputs.now) listed.now.outputs.now }
        ensures { IfOk result (λ kind. IsBlock self.now.pous self.now.pou (Some callee) listed.now (shown_kind kind)) }
    {
        match callee {
            Callee::Function(func) => self.function(alloc, func, listed),
            Callee::Standard(_) | Callee::Block(_) => self.call(alloc, callee, formals, listed),
        }
    }

    /// A block by what it calls, with the formal parameters that its outputs stand for.
    pub(crate) fn block(
        &self,
        alloc: Global,
        callee: Option<Callee>,
        formals: &[Option<Formal<'a>>],
        listed: &Listed<'a>,
    ) -> Result<ElementKind<'a>, NoMemory>
        requires { map shown_output formals.now ≡ formals_by self.now.pous callee listed.now.outputs.now }
        ensures { IfOk result (λ kind. IsBlock self.now.pous self.now.pou callee listed.now (shown_kind kind)) }
    {
        match callee {
            None => Ok(ElementKind::Still),
            Some(callee) => self.calling(alloc, callee, formals, listed),
        }
    }
}

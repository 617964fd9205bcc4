//! The listed inputs of a block, with what stands at them.
ghost use Rattle.std.specs.Prelude.{◌≡◌, not, map, filter, option_map, IfOk};
ghost use Rattle.std.specs.List.{zip, find};
ghost use Rattle.plcx_drawn.specs.Shown.{shown_link, shown_enable};
ghost use Rattle.plcx_model.specs.declared.body.PinOut.{PinOut};
ghost use Rattle.plcx_rules.specs.Callees.{is_eno, is_enable};
ghost use Rattle.plcx_view.specs.Blocks as view;
ghost use Rattle.plcx_view.specs.Blocks.{wired_link, among, is_taken, enables, enable_of, is_negated, beside};
ghost use Rattle.plcx_draw.specs.Pins.{shown_pins};
ghost use Rattle.plcx_draw.specs.Wired.{shown_wired, input_named};

use crate::pins::{Pin, Pins};
use crate::sheet::Sheet;
use plcx_drawn::{Enable, Link};
use plcx_model::{PinIn, PinOut};
use plcx_names::{is_connected, is_enable, is_eno, same_name};
use plcx_types::NoMemory;
use std::alloc::Global;

/// A listed input or in-out of a block, with its pin.
#[derive(Clone, Copy)]
pub(crate) struct Wired<'a> {
    pub(crate) input: &'a PinIn,
    pub(crate) pin: Pin<'a>,
}

/// These inputs with their pins, which come first among these.
pub(crate) fn with_pins<'a>(
    alloc: Global,
    inputs: &'a [PinIn],
    pins: Pins<'a>,
) -> Result<Vec<Wired<'a>>, NoMemory>
    ensures { IfOk result (λ all. map shown_wired all.items ≡ zip inputs.entry.now (shown_pins pins.entry)) }
{
    let mut all = Vec::new(alloc);
    let mut left = pins;
    for input in inputs {
        match left.first() {
            None => return Ok(all),
            Some(pin) => all.push(Wired { input, pin })?,
        }
        left = left.rest();
    }
    Ok(all)
}

/// The first input of that name.
pub(crate) fn input_named<'a>(inputs: &[Wired<'a>], name: &[u8]) -> Option<Wired<'a>>
    ensures { option_map shown_wired result ≡ input_named name.now (map shown_wired inputs.now) }
{
    for wired in inputs {
        if same_name(name, wired.input.formal.as_slice()) {
            return Some(*wired);
        }
    }
    None
}

/// EN where it is connected.
fn enabling<'a>(inputs: &[Wired<'a>]) -> Option<Wired<'a>>
    ensures { option_map shown_wired result ≡ find (λ (w : view.Wired). enables w.0) (map shown_wired inputs.now) }
{
    for wired in inputs {
        if is_enable(wired.input) && is_connected(wired.input) {
            return Some(*wired);
        }
    }
    None
}

/// The inputs beside EN.
pub(crate) fn beside_enable<'a>(
    alloc: Global,
    inputs: &[Wired<'a>],
) -> Result<Vec<Wired<'a>>, NoMemory>
    ensures { IfOk result (λ all. map shown_wired all.items ≡ filter (λ (w : view.Wired). not (is_enable w.0)) (map shown_wired inputs.now)) }
{
    let mut all = Vec::new(alloc);
    for wired in inputs {
        if !is_enable(wired.input) {
            all.push(*wired)?;
        }
    }
    Ok(all)
}

fn is_taken(input: &PinIn) -> bool
    ensures { result ≡ is_taken input.now }
{
    !is_enable(input) && is_connected(input)
}

/// The connected inputs beside EN.
pub(crate) fn taken<'a>(alloc: Global, inputs: &[Wired<'a>]) -> Result<Vec<Wired<'a>>, NoMemory>
    ensures { IfOk result (λ all. map shown_wired all.items ≡ among is_taken (map shown_wired inputs.now)) }
{
    let mut all = Vec::new(alloc);
    for wired in inputs {
        if is_taken(wired.input) {
            all.push(*wired)?;
        }
    }
    Ok(all)
}

/// Whether ENO is negated, where it is listed.
fn eno_of(outputs: &[PinOut]) -> Option<bool>
    ensures { result ≡ option_map (λ (o : PinOut). o.mods.negated) (find is_eno outputs.now) }
{
    for output in outputs {
        if is_eno(output) {
            return Some(output.mods.negated);
        }
    }
    None
}

/// Whether OUT is negated, which is the first output beside ENO.
pub(crate) fn is_negated(outputs: &[PinOut]) -> bool
    ensures { result ≡ is_negated (beside outputs.now) }
{
    for output in outputs {
        if !is_eno(output) {
            return output.mods.negated;
        }
    }
    false
}

impl<'s, 'a> Sheet<'s, 'a> {
    /// What stands at an input.
    pub(crate) fn wired_link(&self, alloc: Global, wired: &Wired) -> Result<Link<'a>, NoMemory>
        ensures { IfOk result (λ link. shown_link link ≡ wired_link self.now.pous self.now.pou (shown_wired wired.now)) }
    {
        self.link_of(alloc, wired.pin, wired.input.mods.negated)
    }

    /// EN where it is connected, and ENO where it is listed.
    pub(crate) fn enable_of(
        &self,
        alloc: Global,
        inputs: &[Wired],
        outputs: &[PinOut],
    ) -> Result<Enable<'a>, NoMemory>
        ensures { IfOk result (λ enable. shown_enable enable ≡ enable_of self.now.pous self.now.pou (map shown_wired inputs.now) outputs.now) }
    {
        let eno = eno_of(outputs);
        match enabling(inputs) {
            None => Ok(Enable { en: None, eno }),
            Some(wired) => {
                let link = self.wired_link(alloc, &wired)?;
                Ok(Enable {
                    en: Some(link),
                    eno,
                })
            }
        }
    }
}

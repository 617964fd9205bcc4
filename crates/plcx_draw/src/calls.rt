//! Calls of instances.
ghost use Rattle.std.specs.Prelude.{◌≡◌, Some, false, List, map, option_map, IfOk, ◌++◌, ◌∷◌, [], slice_get};
ghost use Rattle.plcx_drawn.specs.Shown.{shown_input_pin, shown_in_out_pin, shown_output_pin, shown_kind};
ghost use Rattle.plcx_model.specs.declared.body.PinIn.{PinIn};
ghost use Rattle.plcx_rules.specs.Callees.{is_function, output_formal};
ghost use Rattle.plcx_view.specs.Blocks.{beside, input_pin, lent_by, lent_at, in_out_pin, fixed_type, output_pin, instance_of};
ghost use Rattle.plcx_draw.specs.Known.{Looked, shown_known, shown_output};
ghost use Rattle.plcx_draw.specs.Listed.{lent, output_by, AreOutputPins, IsBlock};
ghost use Rattle.plcx_draw.specs.Pins.{shown_pin};
ghost use Rattle.plcx_draw.specs.Wired.{shown_wired};

use crate::blocks::Listed;
use crate::kinds::target_by;
use crate::known::{Known, declared_name};
use crate::pins::Pin;
use crate::sheet::Sheet;
use crate::wired::{Wired, taken};
use plcx_drawn::{ElementKind, InOutPin, InputPin, OutputPin};
use plcx_funcs::Class;
use plcx_model::{Kind, PinOut};
use plcx_names::{Formal, is_eno};
use plcx_rules::Callee;
use plcx_types::{NoMemory, Ty};
use sqlite_items::Items;
use std::alloc::Global;

/// The type of a formal parameter where it is fixed.
fn fixed_type(formal: &Option<Formal>) -> Ty
    ensures { result ≡ fixed_type (shown_output formal.now) }
{
    match formal {
        None => Ty::Bool,
        Some(formal) => match formal.class {
            Class::Fixed(ty) => ty,
            Class::Group | Class::Lone => Ty::Bool,
        },
    }
}

/// The variable of an inVariable.
fn lent_by<'a>(known: &Known<'a>) -> &'a [u8]
    ensures { result.now ≡ lent (shown_known known.now) }
{
    match &known.element.kind {
        Kind::In { .. } => target_by(&known.named),
        _ => b"",
    }
}

/// One output more, with the formal parameter that it stands for, where it isn't ENO.
fn with_output<'a>(
    mut pins: Vec<OutputPin<'a>>,
    formal: &Option<Formal<'a>>,
    output: &PinOut,
) -> Result<Vec<OutputPin<'a>>, NoMemory>
    ensures { IfOk result (λ more. map shown_output_pin more.items ≡ map shown_output_pin pins.entry.items ++ map (output_by (shown_output formal.now)) (beside (output.now ∷ []))) }
{
    if is_eno(output) {
        return Ok(pins);
    }
    pins.push(OutputPin {
        name: declared_name(formal),
        ty: fixed_type(formal),
        negated: output.mods.negated,
    })?;
    Ok(pins)
}

/// The listed outputs of an instance beside ENO, with the formal parameters that they stand for.
fn output_pins<'a>(
    alloc: Global,
    formals: &[Option<Formal<'a>>],
    outputs: &[PinOut],
) -> Result<Vec<OutputPin<'a>>, NoMemory>
    ensures { IfOk result (λ pins. AreOutputPins formals.now outputs.now pins.items) }
{
    let mut pins = Vec::new(alloc);
    for i in 0..outputs.len().min(formals.len()) {
        pins = with_output(pins, &formals[i], &outputs[i])?;
    }
    Ok(pins)
}

impl<'s, 'a> Sheet<'s, 'a> {
    /// A connected input of an instance.
    fn input_pin(
        &self,
        alloc: Global,
        callee: Callee,
        wired: &Wired,
    ) -> Result<InputPin<'a>, NoMemory>
        requires { is_function callee ≡ false }
        ensures { IfOk result (λ pin. (inputs : List PinIn) → shown_input_pin pin ≡ input_pin self.now.pous self.now.pou callee inputs (shown_wired wired.now)) }
    {
        let formal = self
            .scope
            .instance_input(alloc, callee, wired.input.formal.as_slice())?;
        let link = self.wired_link(alloc, wired)?;
        Ok(InputPin {
            name: declared_name(&formal),
            link,
        })
    }

    /// Connected inputs of an instance.
    fn input_pins(
        &self,
        alloc: Global,
        callee: Callee,
        inputs: &[Wired],
    ) -> Result<Vec<InputPin<'a>>, NoMemory>
        requires { is_function callee ≡ false }
        ensures { IfOk result (λ pins. (all : List PinIn) → map shown_input_pin pins.items ≡ map (input_pin self.now.pous self.now.pou callee all) (map shown_wired inputs.now)) }
    {
        let mut pins = Vec::new(alloc);
        for wired in inputs {
            pins.push(self.input_pin(alloc, callee, wired)?)?;
        }
        Ok(pins)
    }

    /// The variable that a source gives.
    fn lent_from(&self, source: plcx_model::Source) -> &'a [u8]
        ensures { result.now ≡ lent_by self.now.pous self.now.pou (slice_get self.now.pou.body.elements source.element) }
    {
        match self.at(source.element) {
            None => b"",
            Some(known) => lent_by(known),
        }
    }

    /// The variable that the first source of a pin gives.
    fn lent_at(&self, pin: Pin) -> &'a [u8]
        ensures { result.now ≡ lent_at self.now.pous self.now.pou (shown_pin pin.entry).feeds }
    {
        if pin.sources.is_empty() {
            return b"";
        }
        if pin.marks.is_empty() {
            return b"";
        }
        self.lent_from(pin.sources[0])
    }

    /// An in-out of an instance.
    fn in_out_pin(
        &self,
        alloc: Global,
        callee: Callee,
        wired: &Wired,
    ) -> Result<InOutPin<'a>, NoMemory>
        ensures { IfOk result (λ pin. shown_in_out_pin pin ≡ in_out_pin self.now.pous self.now.pou callee (shown_wired wired.now)) }
    {
        let formal = self
            .scope
            .in_out_formal(alloc, callee, wired.input.formal.as_slice())?;
        Ok(InOutPin {
            name: declared_name(&formal),
            variable: self.lent_at(wired.pin),
        })
    }

    /// The in-outs of an instance.
    fn in_out_pins(
        &self,
        alloc: Global,
        callee: Callee,
        in_outs: &[Wired],
    ) -> Result<Vec<InOutPin<'a>>, NoMemory>
        ensures { IfOk result (λ pins. map shown_in_out_pin pins.items ≡ map (in_out_pin self.now.pous self.now.pou callee) (map shown_wired in_outs.now)) }
    {
        let mut pins = Vec::new(alloc);
        for wired in in_outs {
            pins.push(self.in_out_pin(alloc, callee, wired)?)?;
        }
        Ok(pins)
    }

    /// The name of an instance as it is declared.
    fn instance_of(&self, alloc: Global, name: Option<&[u8]>) -> Result<&'a [u8], NoMemory>
        ensures { IfOk result (λ own. own.now ≡ instance_of self.now.pou (option_map (λ n. n.now) name.entry)) }
    {
        match name {
            None => Ok(b""),
            Some(name) => match self.owner.declaration(alloc, name)? {
                None => Ok(b""),
                Some(one) => Ok(one.variable.name.text()),
            },
        }
    }

    /// A call of an instance.
    pub(crate) fn call(
        &self,
        alloc: Global,
        callee: Callee,
        formals: &[Option<Formal<'a>>],
        listed: &Listed<'a>,
    ) -> Result<ElementKind<'a>, NoMemory>
        requires own { is_function callee ≡ false }
        requires formals { map shown_output formals.now ≡ map (output_formal self.now.pous callee listed.now.outputs.now) listed.now.outputs.now }
        ensures { IfOk result (λ kind. IsBlock self.now.pous self.now.pou (Some callee) listed.now (shown_kind kind)) }
    {
        let instance = self.instance_of(alloc, listed.instance)?;
        let enable = self.enable_of(alloc, &listed.inputs, listed.outputs)?;
        let taken = taken(alloc, &listed.inputs)?;
        let inputs = self.input_pins(alloc, callee, &taken)?;
        let in_outs = self.in_out_pins(alloc, callee, &listed.in_outs)?;
        let outputs = output_pins(alloc, formals, listed.outputs)?;
        Ok(ElementKind::Call {
            instance,
            enable,
            inputs: Items::from_vec(inputs),
            in_outs: Items::from_vec(in_outs),
            outputs: Items::from_vec(outputs),
        })
    }
}

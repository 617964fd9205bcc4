//! What the elements of a body are.
ghost use Rattle.std.specs.Prelude.{◌≡◌, option_map, IfOk};
ghost use Rattle.plcx_drawn.specs.Shown.{shown_storing, shown_coiling, shown_contacting, shown_operand, shown_kind};
ghost use Rattle.plcx_names.specs.SeenHelds.{shown_named};
ghost use Rattle.plcx_view.specs.Operands.{operand_by, target_by, reading_by};
ghost use Rattle.plcx_view.specs.Kinds.{storing_of, coiling_of, contacting_of, kind_of};
ghost use Rattle.plcx_draw.specs.Pins.{shown_pins};
ghost use Rattle.plcx_draw.specs.Sheets.{IsKnown};

use crate::blocks::{Listed, text_of};
use crate::known::Known;
use crate::pins::Pins;
use crate::sheet::Sheet;
use plcx_drawn::{Coiling, Contacting, ElementKind, Operand, Storing};
use plcx_model::{Edge, Kind, Mods, Storage};
use plcx_names::Named;
use plcx_types::NoMemory;
use std::alloc::Global;

fn storing_of(mods: Mods) -> Storing
    ensures { shown_storing result ≡ storing_of mods }
{
    if mods.negated {
        return Storing::Inverted;
    }
    match mods.storage {
        Storage::Plain => Storing::Stored,
        Storage::Set => Storing::Set,
        Storage::Reset => Storing::Reset,
    }
}

fn coiling_of(mods: Mods) -> Coiling
    ensures { shown_coiling result ≡ coiling_of mods }
{
    match mods.edge {
        Edge::Plain => Coiling::By(storing_of(mods)),
        Edge::Rising => Coiling::Rising,
        Edge::Falling => Coiling::Falling,
    }
}

fn contacting_of(mods: Mods) -> Contacting
    ensures { shown_contacting result ≡ contacting_of mods }
{
    match mods.edge {
        Edge::Plain => {
            if mods.negated {
                Contacting::Closed
            } else {
                Contacting::Open
            }
        }
        Edge::Rising => Contacting::Rising,
        Edge::Falling => Contacting::Falling,
    }
}

/// What is read: a variable, or an output of an instance.
fn operand_by<'a>(named: &Option<Named<'a>>) -> Operand<'a>
    ensures { shown_operand result ≡ operand_by (option_map shown_named named.now) }
{
    match named {
        Some(Named::Variable { variable, .. }) => Operand::Own(variable.variable.name.text()),
        Some(Named::Output { instance, output }) => Operand::Output {
            instance: instance.variable.name.text(),
            output: output.name,
        },
        _ => Operand::Own(b""),
    }
}

/// The variable that is written.
pub(crate) fn target_by<'a>(named: &Option<Named<'a>>) -> &'a [u8]
    ensures { result.now ≡ target_by (option_map shown_named named.now) }
{
    match named {
        Some(Named::Variable { variable, .. }) => variable.variable.name.text(),
        _ => b"",
    }
}

/// An inVariable: with a literal it does nothing by itself.
fn reading_by<'a>(negated: bool, named: &Option<Named<'a>>) -> ElementKind<'a>
    ensures { shown_kind result ≡ reading_by negated (option_map shown_named named.now) }
{
    match named {
        Some(Named::Variable { variable, ty }) => ElementKind::In {
            ty: *ty,
            negated,
            operand: Operand::Own(variable.variable.name.text()),
        },
        Some(Named::Output { instance, output }) => ElementKind::In {
            ty: output.ty,
            negated,
            operand: Operand::Output {
                instance: instance.variable.name.text(),
                output: output.name,
            },
        },
        _ => ElementKind::Still,
    }
}

impl<'s, 'a> Sheet<'s, 'a> {
    /// What an element is whose input pins come first among these.
    pub(crate) fn kind_of(
        &self,
        alloc: Global,
        known: &Known<'a>,
        pins: Pins<'a>,
    ) -> Result<ElementKind<'a>, NoMemory>
        requires { IsKnown self.now known.now }
        ensures { IfOk result (λ kind. shown_kind kind ≡ kind_of self.now.pous self.now.pou (shown_pins pins.entry) known.now.element.now.kind) }
    {
        match &known.element.kind {
            Kind::Skipped | Kind::LeftRail | Kind::RightRail { .. } => Ok(ElementKind::Still),
            Kind::Contact { mods, .. } => Ok(ElementKind::Contact {
                how: contacting_of(*mods),
                operand: operand_by(&known.named),
                link: self.link_at(alloc, pins)?,
            }),
            Kind::Coil { mods, .. } => Ok(ElementKind::Coil {
                how: coiling_of(*mods),
                variable: target_by(&known.named),
                link: self.link_at(alloc, pins)?,
            }),
            Kind::In { mods, .. } => Ok(reading_by(mods.negated, &known.named)),
            Kind::Out { mods, .. } => Ok(ElementKind::Out {
                how: storing_of(*mods),
                variable: target_by(&known.named),
                link: self.link_at(alloc, pins)?,
            }),
            Kind::Block {
                instance,
                inputs,
                in_outs,
                outputs,
                ..
            } => {
                let instance = text_of(instance);
                let (inputs, in_outs) = (inputs.as_slice(), in_outs.as_slice());
                let listed = Listed::of(
                    alloc,
                    instance,
                    inputs,
                    in_outs,
                    outputs.as_slice(),
                    pins,
                )?;
                self.block(alloc, known.callee, known.outputs.as_slice(), &listed)
            }
            Kind::Connector { .. } | Kind::Continuation { .. } => {
                Ok(ElementKind::Pass(self.link_at(alloc, pins)?))
            }
            Kind::Label { name } => Ok(ElementKind::Label(name.as_slice())),
            Kind::Jump { label, .. } => Ok(ElementKind::Jump {
                label: label.as_slice(),
                link: self.link_at(alloc, pins)?,
            }),
            Kind::Return { .. } => Ok(ElementKind::Return(self.link_at(alloc, pins)?)),
        }
    }
}

//! A POU and its names.
ghost use Rattle.std.specs.Prelude.{◌≡◌, map, option_map, IfOk};
ghost use Rattle.std.specs.List.{find};
ghost use Rattle.plcx_model.specs.declared.project.ListClass.TheVariants.{Input, Output, InOut};
ghost use Rattle.plcx_rules.specs.Callees.{block_pins};
ghost use Rattle.plcx_names.specs.Seen.{declared_as, is_pin, shown_pin};

use crate::pins::{OwnPin, Pins, pins_of};
use crate::texts::in_lower_case;
use crate::variables::{Declared, OwnVariable, Variables, summary, variables_of};
use plcx_model::{ListClass, Pou};
use std::alloc::{AllocError, Global};
use std::marker::Model;

/// A POU, whose variables and pins are found by their names in lower case.
#[derive(Drop)]
pub struct Owner<'a> {
    pou: &'a Pou,
    variables: Variables<'a>,
    inputs: Pins<'a>,
    in_outs: Pins<'a>,
    outputs: Pins<'a>,
}

impl<'a> Model for Owner<'a> {
    ghost use Rattle.plcx_model.specs.declared.project.Pou.{Pou};
    ghost use Rattle.plcx_names.specs.Owned.{AreOwn};

    ghost Value = { Pou };

    ghost view = { λ o. o.pou.now };

    ghost invariant = { λ o. AreOwn o.pou.now o.variables o.inputs o.in_outs o.outputs };
}

fn class_pins<'a>(
    alloc: Global,
    class: ListClass,
    all: &[OwnVariable<'a>],
) -> Result<Pins<'a>, AllocError>
    ensures { IfOk result (λ pins. pins ≡ filter_map pin_of (filter (λ (d : Declaration). same_class d.class class) (map shown_variable all.now))) }
{
    let pins = pins_of(alloc, class, all)?;
    Ok(Pins::of(alloc, pins)?)
}

ghost use Rattle.std.specs.List.{filter, filter_map};
ghost use Rattle.plcx_rules.specs.Declarations.{Declaration, declarations_of, declaration_named, same_class};
ghost use Rattle.plcx_rules.specs.Callees.{pin_of};
ghost use Rattle.plcx_names.specs.Seen.{shown_variable, is_declared};

impl<'a> Owner<'a> {
    /// A POU, with its names.
    pub fn of(alloc: Global, pou: &'a Pou) -> Result<Owner<'a>, AllocError>
        ensures { IfOk result (λ owner. owner ≡ pou.now) }
    {
        let all = variables_of(alloc, pou)?;
        let inputs = class_pins(alloc, ListClass::Input, &all)?;
        let in_outs = class_pins(alloc, ListClass::InOut, &all)?;
        let outputs = class_pins(alloc, ListClass::Output, &all)?;
        let variables = Variables::of(alloc, all)?;
        Ok(Owner {
            pou,
            variables,
            inputs,
            in_outs,
            outputs,
        })
    }

    /// The POU.
    pub fn pou(&self) -> &'a Pou
        ensures { result.now ≡ self.now }
    {
        self.pou
    }

    fn by_key(&self, key: &[u8]) -> Option<OwnVariable<'a>>
        ensures { option_map shown_variable result ≡ find (is_declared key.now) (declarations_of self.now) }
    {
        self.variables.find(key)
    }

    /// What is said of the variable of that name, which is given in lower case.
    pub fn variable(&self, key: &[u8]) -> Option<Declared>
        ensures { result ≡ declared_as self.now key.now }
    {
        match self.by_key(key) {
            None => None,
            Some(one) => Some(summary(&one)),
        }
    }

    /// The variable that a name leads to.
    #[tactic(auto, unfolding(plcx_rules::specs::Declarations::declaration_named))]
    pub fn declaration(
        &self,
        alloc: Global,
        name: &[u8],
    ) -> Result<Option<OwnVariable<'a>>, AllocError>
        ensures { IfOk result (λ one. option_map shown_variable one ≡ declaration_named self.now name.now) }
    {
        let key = in_lower_case(alloc, name)?;
        Ok(self.by_key(key.as_slice()))
    }

    /// The input of that name, which is given in lower case.
    pub fn input(&self, key: &[u8]) -> Option<OwnPin<'a>>
        ensures { option_map shown_pin result ≡ find (is_pin key.now) (block_pins Input self.now) }
    {
        self.inputs.find(key)
    }

    /// The in-out of that name, which is given in lower case.
    pub fn in_out(&self, key: &[u8]) -> Option<OwnPin<'a>>
        ensures { option_map shown_pin result ≡ find (is_pin key.now) (block_pins InOut self.now) }
    {
        self.in_outs.find(key)
    }

    /// The output of that name, which is given in lower case.
    pub fn output(&self, key: &[u8]) -> Option<OwnPin<'a>>
        ensures { option_map shown_pin result ≡ find (is_pin key.now) (block_pins Output self.now) }
    {
        self.outputs.find(key)
    }

    /// The in-outs, in the order of the file.
    pub fn in_outs(&self) -> &[OwnPin<'a>]
        ensures { map shown_pin result.now ≡ block_pins InOut self.now }
    {
        self.in_outs.list()
    }
}

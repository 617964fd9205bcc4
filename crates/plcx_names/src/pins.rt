//! The pins of function blocks and standard blocks, by their names.
ghost use Rattle.std.specs.Prelude.{◌≡◌, ◌++◌, ℕ, List, map, option_map, option_and_then, slice_get, nat_eq, IfOk};
ghost use Rattle.std.specs.List.{find, filter, filter_map};
ghost use Rattle.plcx_rules.specs.Declarations.{Declaration, class_place, same_class};
ghost use Rattle.plcx_rules.specs.Callees.{role_place, pin_of, pin_named, standard_pins};
ghost use Rattle.plcx_names.specs.Seen.{shown_variable, shown_pin, is_pin, PinsTold};
ghost use Rattle.plcx_names.specs.Told.{place_at, found_or, place_if};

use crate::tables::with_name;
use crate::texts::same_name;
use crate::variables::OwnVariable;
use indexmap::IndexMap;
use plcx_model::{ListClass, VarTy};
use plcx_std::{Role, StdKind};
use plcx_types::Ty;
use std::alloc::{AllocError, Global};
use std::marker::Model;

/// A pin of a standard block or a function block beside EN and ENO, by its declared name.
#[derive(Clone, Copy)]
pub struct OwnPin<'a> {
    pub name: &'a [u8],
    pub ty: Ty,
}

fn class_place(class: ListClass) -> u8
    ensures { result ≡ class_place class }
{
    match class {
        ListClass::Local => 0,
        ListClass::Input => 1,
        ListClass::Output => 2,
        ListClass::InOut => 3,
    }
}

/// Whether both are one class.
pub fn same_class(left: ListClass, right: ListClass) -> bool
    ensures { result ≡ same_class left right }
{
    class_place(left) == class_place(right)
}

fn plain_pin<'a>(one: &OwnVariable<'a>) -> Option<OwnPin<'a>>
    ensures { option_map shown_pin result ≡ pin_of (shown_variable one.now) }
{
    let variable = one.variable;
    match variable.ty {
        VarTy::Plain(ty) => Some(OwnPin {
            name: variable.name.text(),
            ty,
        }),
        VarTy::Std(_) | VarTy::Block(_) => None,
    }
}

/// The variables of a class that are pins.
pub fn pins_of<'a>(
    alloc: Global,
    class: ListClass,
    variables: &[OwnVariable<'a>],
) -> Result<Vec<OwnPin<'a>>, AllocError>
    ensures { IfOk result (λ pins. map shown_pin pins.items ≡ filter_map pin_of (filter (λ (d : Declaration). same_class d.class class) (map shown_variable variables.now))) }
{
    let mut pins = Vec::new(alloc);
    for one in variables {
        if same_class(one.class, class) {
            if let Some(pin) = plain_pin(one) {
                pins.push(pin)?;
            }
        }
    }
    Ok(pins)
}

fn name_at<'a>(pins: &[OwnPin<'a>], place: usize) -> Option<&'a [u8]>
    ensures { option_map (λ n. n.now) result ≡ option_map (λ (p : OwnPin). p.name.now) (slice_get pins.now place) }
{
    match pins.get(place) {
        None => None,
        Some(pin) => Some(pin.name),
    }
}

ghost use Rattle.plcx_names.specs.declared.pins.OwnPin.{OwnPin};

/// The place of each name in lower case.
fn places_of(alloc: Global, pins: &[OwnPin]) -> Result<IndexMap<Vec<u8>, usize>, AllocError>
    ensures { IfOk result (λ table. PinsTold pins.now table.entries) }
{
    let mut table = IndexMap::new(alloc);
    for place in 0..pins.len() {
        table = with_name(alloc, table, place, name_at(pins, place))?;
    }
    Ok(table)
}

/// Some pins, found by their names in lower case.
#[derive(Drop)]
pub struct Pins<'a> {
    pins: Vec<OwnPin<'a>>,
    table: IndexMap<Vec<u8>, usize>,
}

impl<'a> Model for Pins<'a> {
    ghost use Rattle.std.specs.Prelude.{List, map};
    ghost use Rattle.plcx_rules.specs.Callees.{BlockPin};
    ghost use Rattle.plcx_names.specs.Seen.{shown_pin, PinsTold};

    ghost Value = { List BlockPin };

    ghost view = { λ p. map shown_pin p.pins.items };

    ghost invariant = { λ p. PinsTold p.pins.items p.table.entries };
}

/// What stands at a place, where one is given.
fn at<'a>(pins: &[OwnPin<'a>], place: Option<usize>) -> Option<OwnPin<'a>>
    ensures { option_map shown_pin result ≡ option_map shown_pin (option_and_then (slice_get pins.now) place) }
{
    match place {
        None => None,
        Some(place) => pins.get(place).copied(),
    }
}

impl<'a> Pins<'a> {
    /// These pins.
    pub fn of(alloc: Global, pins: Vec<OwnPin<'a>>) -> Result<Pins<'a>, AllocError>
        ensures { IfOk result (λ p. p ≡ map shown_pin pins.entry.items) }
    {
        let table = places_of(alloc, &pins)?;
        Ok(Pins { pins, table })
    }

    /// The pins, in their order.
    pub fn list(&self) -> &[OwnPin<'a>]
        ensures { map shown_pin result.now ≡ self.now }
    {
        &self.pins
    }

    /// The pin of that name, which is given in lower case.
    pub fn find(&self, key: &[u8]) -> Option<OwnPin<'a>>
        ensures { option_map shown_pin result ≡ find (is_pin key.now) self.now }
    {
        let place = self.table.get(key).copied();
        at(&self.pins, place)
    }
}

fn role_place(role: Role) -> u8
    ensures { result ≡ role_place role }
{
    match role {
        Role::In => 0,
        Role::Out => 1,
        Role::Hidden => 2,
    }
}

fn same_role(left: Role, right: Role) -> bool
    ensures { result ≡ nat_eq (role_place left) (role_place right) }
{
    role_place(left) == role_place(right)
}

/// The pin of a standard block that has this role and name.
pub fn standard_pin<'a>(role: Role, kind: StdKind, name: &[u8]) -> Option<OwnPin<'a>>
    ensures { option_map shown_pin result ≡ pin_named name.now (standard_pins role kind) }
{
    let pins = plcx_std::pins(kind);
    for pin in pins {
        let own = pin.name.as_bytes();
        if same_role(pin.role, role) && same_name(name, own) {
            return Some(OwnPin {
                name: own,
                ty: pin.ty,
            });
        }
    }
    None
}

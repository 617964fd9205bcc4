//! The numbers of what the body of a POU names.
ghost use Rattle.std.specs.Prelude.{◌≡◌, ◌+◌, ◌<◌, List, [], Some, None, IfOk, MatchOption, length, map, option_copied, option_map, slice_get, unwrap_or};
ghost use Rattle.std.specs.List.{find, position};
ghost use Rattle.plcx_types.specs.declared.ty.Ty.TheVariants.{Bool};
ghost use Rattle.plcx_types.specs.Name.{in_lower_case};
ghost use Rattle.plcx_std.specs.declared.pin.StdPin.{StdPin};
ghost use Rattle.plcx_std.specs.Kind.{kind_named};
ghost use Rattle.plcx_std.specs.Pins.{shown};
ghost use Rattle.plcx_meaning.specs.Tree as tree;
ghost use Rattle.plcx_meaning.specs.Execute.{NoFormal};
ghost use Rattle.plcx_meaning.specs.Ready.{IsReady};
ghost use Rattle.plcx_conditions.specs.Known.{same_name};
ghost use Rattle.plcx_st.specs.declared.tree.PouText.{PouText};
ghost use Rattle.plcx_st.specs.Meant.{class_meant, pou_meant};
ghost use Rattle.plcx_known.specs.declared.types.VarType.TheVariants.{Elementary};
ghost use Rattle.plcx_known.specs.Parts.{role_class, pin_variable};
ghost use Rattle.plcx_known.specs.Types.{variables_in, parts_of};
ghost use Rattle.plcx_numbered.specs.Numbers.{in_out_names};
ghost use Rattle.plcx_text_numbered.specs.Numbers.{place_named};
ghost use Rattle.plcx_text_pieces.specs.Called.{numbers_of};
ghost use Rattle.plcx_text_order.specs.Made.{owner};
ghost use Rattle.plcx_text_lines.specs.Shown.{shown_place, shown_formal, shown_callee};
ghost use Rattle.plcx_text_tables.specs.Tabled as tabled;
ghost use Rattle.plcx_text_tables.specs.Tabled.{shown_number, shown_table, number_named, leaf_named};
ghost use Rattle.plcx_text_tables.specs.Laws.{place_or, IsTableOf};
ghost use Rattle.plcx_text_program.specs.Told.{numbers_at, pou_at, in_outs_or, IsThere, IsTableAt, type_found, type_read, formal_type, read_found, formal_found, IsPartOf, called_by};

use plcx_known::VarType;
use plcx_st::TextClass;
use plcx_std::{Role, StdKind, StdPin, pins, std_lookup};
use plcx_steps::Operand;
use plcx_text_lines::{Callee, Formal, Named, Numbers, Part};
use plcx_text_tables::{Number, Place, Table, Tables};
use plcx_types::{NoMemory, Ty};
use std::alloc::Global;

/// The POU at a place of a unit without doubled names, among the tables of all.
#[derive(Drop)]
pub(crate) struct Here<'t, 'u> {
    pub(crate) tables: &'t Tables<'u>,
    pub(crate) place: u32,
    ghost told: { IsThere tables.now place },
}

/// A number of 32 bits. What is too large for one would not have fitted the memory.
fn number(n: usize) -> Result<u32, NoMemory>
    ensures { IfOk result (λ number. number ≡ n) }
{
    match u32::try_from(n) {
        Ok(number) => Ok(number),
        Err(_) => Err(NoMemory),
    }
}

fn place_of(place: Place) -> plcx_text_lines::Place
    ensures { shown_place result ≡ tabled.shown_place place }
{
    match place {
        Place::Held(wire) => plcx_text_lines::Place::Held(wire),
        Place::Stored(operand) => plcx_text_lines::Place::Stored(operand),
    }
}

fn type_in(ty: VarType) -> Ty
    ensures { result ≡ tabled.type_in ty }
{
    match ty {
        VarType::Elementary(ty) => ty,
        _ => Ty::Bool,
    }
}

/// What a variable is by its numbers, and what a name is that leads to none.
fn named(number: Option<Number>) -> Named
    ensures place { shown_place result.place ≡ place_or (option_map shown_number number.entry) }
    ensures ty { result.ty ≡ type_found (option_map shown_number number.entry) }
{
    match number {
        None => Named {
            place: plcx_text_lines::Place::Stored(Operand::Leaf(0)),
            ty: Ty::Bool,
        },
        Some(number) => Named {
            place: place_of(number.place),
            ty: type_in(number.ty),
        },
    }
}

/// The type of what can be read of an instance.
fn type_read(class: TextClass, ty: VarType) -> Ty
    ensures { result ≡ type_read (class_meant class) ty }
{
    match ty {
        VarType::Elementary(ty) => match class {
            TextClass::Output => ty,
            _ => Ty::Bool,
        },
        _ => Ty::Bool,
    }
}

/// What a variable of an instance is as a formal name.
fn formal(class: TextClass, ty: VarType) -> Formal
    ensures { shown_formal result ≡ formal_type (class_meant class) ty }
{
    match ty {
        VarType::Elementary(ty) => match class {
            TextClass::Input => Formal::Takes(ty),
            TextClass::InOut => Formal::Binds(ty),
            _ => Formal::NoFormal,
        },
        _ => Formal::NoFormal,
    }
}

/// A variable of an instance, by its class and what its type stands for.
fn part(leaf: u32, class: TextClass, ty: VarType) -> Part
    ensures leaf { result.leaf ≡ leaf }
    ensures ty { result.ty ≡ type_read (class_meant class) ty }
    ensures formal { shown_formal result.formal ≡ formal_type (class_meant class) ty }
{
    Part {
        leaf,
        ty: type_read(class, ty),
        formal: formal(class, ty),
    }
}

/// What a name is that leads to no variable of an instance.
fn no_part(leaf: u32) -> Part
    ensures leaf { result.leaf ≡ leaf }
    ensures ty { result.ty ≡ Bool }
    ensures formal { shown_formal result.formal ≡ NoFormal }
{
    Part {
        leaf,
        ty: Ty::Bool,
        formal: Formal::NoFormal,
    }
}

/// What a name leads to in an instance of a POU.
fn part_in_table(alloc: Global, table: &Table, name: &[u8]) -> Result<Part, NoMemory>
    ensures leaf { IfOk result (λ p. p.leaf ≡ leaf_named (shown_table table.now) name.now) }
    ensures ty { IfOk result (λ p. p.ty ≡ read_found (number_named (shown_table table.now) name.now)) }
    ensures formal { IfOk result (λ p. shown_formal p.formal ≡ formal_found (number_named (shown_table table.now) name.now)) }
{
    match table.find(alloc, name)? {
        None => Ok(no_part(table.leaves)),
        Some(number) => Ok(part(number.leaf, number.class, number.ty)),
    }
}

fn role_class(role: Role) -> TextClass
    ensures { class_meant result ≡ role_class role }
{
    match role {
        Role::In => TextClass::Input,
        Role::Out => TextClass::Output,
        Role::Hidden => TextClass::Var,
    }
}

fn is_named(pin: &StdPin, name: &[u8]) -> bool
    ensures { result ≡ same_name (shown pin.now).name name.now }
{
    plcx_types::same_name(pin.name.as_bytes(), name)
}

/// The place of the pin of a name.
fn pin_place(pins: &[StdPin], name: &[u8]) -> Option<usize>
    ensures { result ≡ position (λ (p : StdPin). same_name (shown p).name name.now) pins.now }
{
    pins.iter().position(|pin| is_named(pin, name))
}

/// The leaves before the pin of a name, and all of them where there is none.
fn pin_leaf(pins: &[StdPin], name: &[u8]) -> Result<u32, NoMemory>
    ensures { IfOk result (λ leaf. leaf ≡ unwrap_or (position (λ (p : StdPin). same_name (shown p).name name.now) pins.now) (length pins.now)) }
{
    match pin_place(pins, name) {
        None => Ok(number(pins.len())?),
        Some(place) => Ok(number(place)?),
    }
}

fn pin_named<'k>(pins: &'k [StdPin], name: &[u8]) -> Option<&'k StdPin>
    ensures { option_copied result ≡ find (λ (p : StdPin). same_name (shown p).name name.now) pins.now }
{
    pins.iter().find(|pin| is_named(*pin, name))
}

/// A pin at its place among those of its block.
fn pin_part(leaf: u32, pin: &StdPin) -> Part
    ensures leaf { result.leaf ≡ leaf }
    ensures ty { result.ty ≡ type_read (role_class pin.now.role) (Elementary pin.now.ty) }
    ensures formal { shown_formal result.formal ≡ formal_type (role_class pin.now.role) (Elementary pin.now.ty) }
{
    part(leaf, role_class(pin.role), VarType::Elementary(pin.ty))
}

/// What a name leads to among the pins of a standard block.
fn part_in_pins(pins: &[StdPin], name: &[u8]) -> Result<Part, NoMemory>
    ensures { IfOk result (λ p. (unit : List tree.PouText) → IsPartOf unit (map pin_variable (map shown pins.now)) name.now p) }
{
    let leaf = pin_leaf(pins, name)?;
    match pin_named(pins, name) {
        None => Ok(no_part(leaf)),
        Some(pin) => Ok(pin_part(leaf, pin)),
    }
}

/// The same variable behind so many leaves.
fn behind(leaf: u32, part: Part) -> Result<Part, NoMemory>
    ensures leaf { IfOk result (λ p. p.leaf ≡ leaf + part.leaf) }
    ensures ty { IfOk result (λ p. p.ty ≡ part.ty) }
    ensures formal { IfOk result (λ p. p.formal ≡ part.formal) }
{
    match leaf.checked_add(part.leaf) {
        None => Err(NoMemory),
        Some(leaf) => Ok(Part {
            leaf,
            ty: part.ty,
            formal: part.formal,
        }),
    }
}

/// None of the names of a table.
fn none_of<'t, 'u>(own: &'t Table<'u>) -> &'t [&'u [u8]]
    ensures { result.now ≡ [] }
{
    &own.in_outs.as_slice()[..0]
}

/// The names of the in-outs of a table, where there is one.
fn in_outs_of<'t, 'u>(own: &'t Table<'u>, table: Option<&'t Table<'u>>) -> &'t [&'u [u8]]
    ensures { map (λ s. s.now) result.now ≡ in_outs_or (option_map (λ t. shown_table t.now) table.entry) }
{
    match table {
        None => none_of(own),
        Some(table) => table.in_outs.as_slice(),
    }
}

impl<'t, 'u> Here<'t, 'u> {
    /// The POU at a place of a unit that is ready.
    pub(crate) fn at(tables: &'t Tables<'u>, place: usize) -> Result<Here<'t, 'u>, NoMemory>
        requires place { place < length tables.now }
        requires ready { IsReady (map pou_meant tables.now) }
        ensures { IfOk result (λ here. (p : PouText) → slice_get tables.now place ≡ Some p
            → numbers_at (map pou_meant here.tables.now) here.place ≡ numbers_of (owner (map pou_meant tables.now) place (pou_meant p))) }
    {
        Ok(Here {
            tables,
            place: number(place)?,
        })
    }

    /// The table of the POU.
    fn table(&self) -> &'t Table<'u>
        ensures { IsTableOf (map pou_meant self.now.tables.now) (pou_at (map pou_meant self.now.tables.now) self.now.place) (shown_table result.now) }
    {
        self.tables.table_there(self.place as usize)
    }

    /// The table of the POU at another place.
    fn table_at(&self, place: usize) -> Option<&'t Table<'u>>
        ensures { MatchOption result (slice_get (map pou_meant self.now.tables.now) place ≡ None) (λ t. IsTableAt (map pou_meant self.now.tables.now) place (shown_table t.now)) }
    {
        self.tables.table(place)
    }

    /// What a name leads to in an instance of the POU at a place.
    fn part_in_pou(&self, alloc: Global, place: usize, name: &[u8]) -> Result<Part, NoMemory>
        ensures { IfOk result (IsPartOf (map pou_meant self.now.tables.now) (variables_in (slice_get (map pou_meant self.now.tables.now) place)) name.now) }
    {
        match self.table_at(place) {
            None => Ok(no_part(0)),
            Some(table) => Ok(part_in_table(alloc, table, name)?),
        }
    }

    /// What a name leads to in an instance of a type.
    fn part_in(&self, alloc: Global, ty: VarType, name: &[u8]) -> Result<Part, NoMemory>
        ensures { IfOk result (IsPartOf (map pou_meant self.now.tables.now) (parts_of (map pou_meant self.now.tables.now) ty) name.now) }
    {
        match ty {
            VarType::Unknown => Ok(no_part(0)),
            VarType::Elementary(_) => Ok(no_part(0)),
            VarType::Standard(kind) => Ok(part_in_pins(pins(kind), name)?),
            VarType::Block(place) => Ok(self.part_in_pou(alloc, place, name)?),
        }
    }

    /// The names of the in-outs of an instance of the POU at a place.
    fn in_outs_at(&self, place: usize) -> &'t [&'u [u8]]
        ensures { map (λ s. in_lower_case s.now) result.now ≡ in_out_names (variables_in (slice_get (map pou_meant self.now.tables.now) place)) }
    {
        in_outs_of(self.table(), self.table_at(place))
    }

    /// The names of the in-outs of an instance of a type.
    fn in_outs(&self, ty: VarType) -> &'t [&'u [u8]]
        ensures { map (λ s. in_lower_case s.now) result.now ≡ in_out_names (parts_of (map pou_meant self.now.tables.now) ty) }
    {
        match ty {
            VarType::Unknown => none_of(self.table()),
            VarType::Elementary(_) => none_of(self.table()),
            VarType::Standard(_) => none_of(self.table()),
            VarType::Block(place) => self.in_outs_at(place),
        }
    }

    /// The place of the POU of a name.
    fn pou_named(&self, alloc: Global, name: &[u8]) -> Result<u32, NoMemory>
        ensures { IfOk result (λ place. place ≡ place_named name.now (map pou_meant self.now.tables.now)) }
    {
        Ok(number(self.tables.place(alloc, name)?)?)
    }

    /// What the variable of these numbers calls.
    fn called(&self, alloc: Global, number: &Number) -> Result<Callee<'t>, NoMemory>
        ensures { IfOk result (λ callee. shown_callee callee ≡ called_by (map pou_meant self.now.tables.now) (shown_number number.now) (kind_named number.now.named.now)) }
    {
        match std_lookup(number.named) {
            Some(kind) => Ok(Callee::Block {
                kind,
                leaf: number.leaf,
            }),
            None => Ok(Callee::User {
                pou: self.pou_named(alloc, number.named)?,
                leaves: number.leaf,
                in_outs: self.in_outs(number.ty),
            }),
        }
    }
}

impl<'t, 'u> Numbers for Here<'t, 'u> {
    ghost numbers = { λ here. numbers_at (map pou_meant here.tables.now) here.place };

    fn pou(&self) -> u32 {
        self.place
    }

    fn named(&self, alloc: Global, name: &[u8]) -> Result<Named, NoMemory> {
        let number = self.table().find(alloc, name)?;
        Ok(named(number))
    }

    fn part(&self, alloc: Global, instance: &[u8], name: &[u8]) -> Result<Part, NoMemory> {
        let table = self.table();
        match table.find(alloc, instance)? {
            None => Ok(no_part(table.leaves)),
            Some(number) => {
                let part = self.part_in(alloc, number.ty, name)?;
                Ok(behind(number.leaf, part)?)
            }
        }
    }

    fn callee(&self, alloc: Global, instance: &[u8]) -> Result<Callee<'_>, NoMemory> {
        match self.table().find(alloc, instance)? {
            None => Ok(Callee::Block {
                kind: StdKind::Ton,
                leaf: 0,
            }),
            Some(number) => Ok(self.called(alloc, &number)?),
        }
    }
}

//! The numbers of the variables of a POU.
ghost use Rattle.std.specs.Prelude.{◌≡◌, ◌+◌, List, map, option_map, length, IfOk};
ghost use Rattle.plcx_st.specs.Meant.{class_meant};
ghost use Rattle.plcx_known.specs.Owned.{shown_own, name_of};
ghost use Rattle.plcx_text_tables.specs.Counts.{leaves_in};
ghost use Rattle.plcx_text_tables.specs.Tabled.{Count as Counted, standing, counted, numbered, all_numbered, no_count, table_of, number_named, leaf_named, shown_place, shown_number, shown_table};

use crate::counts::{leaves_in, more};
use plcx_known::{Names, Own, VarType};
use plcx_st::TextClass;
use plcx_steps::Operand;
use plcx_types::{NoMemory, Ty, Val, default_of};
use std::alloc::Global;

/// Where the value of a variable stands: that of a temporary in a wire, another one in a leaf.
#[derive(Clone, Copy, Debug)]
pub enum Place {
    Held(usize),
    Stored(Operand),
}

/// A variable of a POU by its numbers: the leaves before it, where its value stands, the class of its block, what its
/// type stands for, and the name of that.
#[derive(Clone, Copy, Debug)]
pub struct Number<'u> {
    pub leaf: u32,
    pub place: Place,
    pub class: TextClass,
    pub ty: VarType,
    pub named: &'u [u8],
}

/// The variables of a POU by their numbers, found by their names, how many leaves they have, the names of the in-outs
/// among them, and what the temporaries begin with.
#[derive(Drop)]
pub struct Table<'u> {
    pub names: Names<'u>,
    pub numbers: Vec<Number<'u>>,
    pub leaves: u32,
    pub in_outs: Vec<&'u [u8]>,
    pub temporaries: Vec<Val>,
}

/// How many leaves, temporaries and in-outs stand before a variable.
#[derive(Clone, Copy)]
struct Count {
    leaves: usize,
    temporaries: usize,
    in_outs: usize,
}

/// A number of leaves. What is too large for one would not have fitted the memory.
fn leaf(number: usize) -> Result<u32, NoMemory>
    ensures { IfOk result (λ leaf. leaf ≡ number) }
{
    match u32::try_from(number) {
        Ok(leaf) => Ok(leaf),
        Err(_) => Err(NoMemory),
    }
}

fn standing(count: Count, class: TextClass) -> Result<Place, NoMemory>
    ensures { IfOk result (λ place. shown_place place ≡ standing (shown_count count) (class_meant class)) }
{
    match class {
        TextClass::Temp => Ok(Place::Held(count.temporaries)),
        TextClass::InOut => Ok(Place::Stored(Operand::InOut(count.in_outs))),
        _ => Ok(Place::Stored(Operand::Leaf(leaf(count.leaves)?))),
    }
}

ghost use Rattle.plcx_text_tables.specs.Laws.{shown_count};

fn counted(count: Count, class: TextClass, leaves: usize) -> Result<Count, NoMemory>
    ensures { IfOk result (λ next. shown_count next ≡ counted (shown_count count) (class_meant class) leaves) }
{
    let leaves = more(count.leaves, leaves)?;
    match class {
        TextClass::Temp => Ok(Count {
            leaves,
            temporaries: more(count.temporaries, 1)?,
            in_outs: count.in_outs,
        }),
        TextClass::InOut => Ok(Count {
            leaves,
            temporaries: count.temporaries,
            in_outs: more(count.in_outs, 1)?,
        }),
        _ => Ok(Count {
            leaves,
            temporaries: count.temporaries,
            in_outs: count.in_outs,
        }),
    }
}

fn numbered<'u>(count: Count, own: &Own<'u>) -> Result<Number<'u>, NoMemory>
    ensures { IfOk result (λ number. shown_number number ≡ numbered (shown_count count) (shown_own own.now)) }
{
    Ok(Number {
        leaf: leaf(count.leaves)?,
        place: standing(count, own.class)?,
        class: own.class,
        ty: own.ty,
        named: own.decl.ty.name.text(),
    })
}

/// The numbers of variables, and what stands behind the last.
fn all_numbered<'u>(
    alloc: Global,
    counts: &[usize],
    variables: &[Own<'u>],
) -> Result<(Vec<Number<'u>>, Count), NoMemory>
    ensures numbers { IfOk result (λ r. map shown_number r.0.items ≡ all_numbered counts.now no_count (map shown_own variables.now)) }
    ensures count { IfOk result (λ r. r.1.leaves ≡ sum_by (leaves_in 17 counts.now) (map shown_own variables.now)) }
{
    let mut numbers = Vec::new(alloc);
    let mut count = Count {
        leaves: 0,
        temporaries: 0,
        in_outs: 0,
    };
    for own in variables {
        numbers.push(numbered(count, own)?)?;
        count = counted(count, own.class, leaves_in(17, counts, own))?;
    }
    Ok((numbers, count))
}

ghost use Rattle.std.specs.List.{sum_by};

fn names_of<'u>(alloc: Global, variables: &[Own<'u>]) -> Result<Vec<&'u [u8]>, NoMemory>
    ensures { IfOk result (λ names. map (λ s. s.now) names.items ≡ map name_of (map shown_own variables.now)) }
{
    let mut names = Vec::new(alloc);
    for own in variables {
        names.push(own.name())?;
    }
    Ok(names)
}

fn is_in_out(own: &Own) -> bool
    ensures { result ≡ is_in_out (shown_own own.now) }
{
    match own.class {
        TextClass::InOut => true,
        _ => false,
    }
}

/// The names of in-outs.
fn in_outs_of<'u>(alloc: Global, variables: &[Own<'u>]) -> Result<Vec<&'u [u8]>, NoMemory>
    ensures { IfOk result (λ names. map (λ s. s.now) names.items ≡ map name_of (filter is_in_out (map shown_own variables.now))) }
{
    let mut names = Vec::new(alloc);
    for own in variables {
        if is_in_out(own) {
            names.push(own.name())?;
        }
    }
    Ok(names)
}

ghost use Rattle.std.specs.Prelude.{filter};
ghost use Rattle.plcx_text_tables.specs.Tabled.{is_in_out, is_temporary, type_in, first_in};

fn is_temporary(own: &Own) -> bool
    ensures { result ≡ is_temporary (shown_own own.now) }
{
    match own.class {
        TextClass::Temp => true,
        _ => false,
    }
}

fn type_in(ty: VarType) -> Ty
    ensures { result ≡ type_in ty }
{
    match ty {
        VarType::Elementary(ty) => ty,
        _ => Ty::Bool,
    }
}

/// A value. One out of its range is no value, and stands in no unit that is ready.
fn value_of(ty: Ty, n: i128) -> Result<Val, NoMemory>
    ensures { IfOk result (λ v. (v.ty ≡ ty) × (v.n ≡ n)) }
{
    match Val::new(ty, n) {
        None => Err(NoMemory),
        Some(value) => Ok(value),
    }
}

/// What a temporary begins with.
fn first_in(own: &Own) -> Result<Val, NoMemory>
    ensures { IfOk result (λ v. v ≡ first_in (shown_own own.now)) }
{
    match &own.decl.initial {
        None => Ok(default_of(type_in(own.ty))),
        Some(number) => Ok(value_of(type_in(own.ty), number.n)?),
    }
}

/// What temporaries begin with.
fn temporaries_of(alloc: Global, variables: &[Own]) -> Result<Vec<Val>, NoMemory>
    ensures { IfOk result (λ values. values.items ≡ map first_in (filter is_temporary (map shown_own variables.now))) }
{
    let mut values = Vec::new(alloc);
    for own in variables {
        if is_temporary(own) {
            values.push(first_in(own)?)?;
        }
    }
    Ok(values)
}

/// The table of variables, by the leaves of POUs.
pub(crate) fn table_of<'u>(
    alloc: Global,
    counts: &[usize],
    variables: &[Own<'u>],
) -> Result<Table<'u>, NoMemory>
    ensures { IfOk result (λ table. shown_table table ≡ table_of counts.now (map shown_own variables.now)) }
{
    let names = Names::of(alloc, names_of(alloc, variables)?)?;
    let (numbers, count) = all_numbered(alloc, counts, variables)?;
    Ok(Table {
        names,
        numbers,
        leaves: leaf(count.leaves)?,
        in_outs: in_outs_of(alloc, variables)?,
        temporaries: temporaries_of(alloc, variables)?,
    })
}

fn at<'u>(numbers: &[Number<'u>], place: Option<usize>) -> Option<Number<'u>>
    ensures { option_map shown_number result ≡ option_map shown_number (option_and_then (slice_get numbers.now) place) }
{
    match place {
        None => None,
        Some(place) => numbers.get(place).copied(),
    }
}

ghost use Rattle.std.specs.Prelude.{option_and_then, slice_get};

impl<'u> Table<'u> {
    /// The variable of a name.
    #[tactic(auto, using(crate::proofs::Found::found_at))]
    pub fn find(&self, alloc: Global, name: &[u8]) -> Result<Option<Number<'u>>, NoMemory>
        ensures { IfOk result (λ number. option_map shown_number number ≡ number_named (shown_table self.now) name.now) }
    {
        let place = self.names.place(alloc, name)?;
        Ok(at(&self.numbers, place))
    }

    /// The leaves before the variable of a name, and all of them where there is none.
    pub fn leaf(&self, alloc: Global, name: &[u8]) -> Result<u32, NoMemory>
        ensures { IfOk result (λ leaf. leaf ≡ leaf_named (shown_table self.now) name.now) }
    {
        match self.find(alloc, name)? {
            None => Ok(self.leaves),
            Some(number) => Ok(number.leaf),
        }
    }
}

//! Which types come to which groups: a search over facts, each of which is found once.
ghost use Rattle.std.specs.Prelude.{◌≡◌, ◌<◌, ◌≤◌, ◌*◌, ◌+◌, ◌++◌, ◌∷◌, [], ℕ, ◌^◌, true, false, replicate, length, get_or, IfOk, OnOk, if◌then◌else◌};
ghost use Rattle.std.specs.Bool.{Decides};
ghost use Rattle.std.specs.List.{Contains};
ghost use Rattle.plcx_types.specs.declared.ty.Ty.{Ty};
ghost use Rattle.plcx_types.specs.TypeName.{position_of_type};
ghost use Rattle.plcx_typing.specs.Closure.{mark_place, is_marked, marked, Comes, IsFlow, IsSearch, KeepsMarks, Extends, AreMarked};

use crate::flow::{Fact, Flow};
use plcx_types::{NoMemory, Ty};
use std::alloc::Global;

/// What is found by now: a mark for each element and type, and the facts in the order in which they were found.
#[derive(Drop)]
struct Search {
    marks: Vec<bool>,
    found: Vec<Fact>,
}

/// The place of a type among all types.
pub(crate) fn position(ty: Ty) -> usize
    ensures place { result ≡ position_of_type ty }
    ensures below { result < 14 }
{
    match ty {
        Ty::Bool => 0,
        Ty::Byte => 1,
        Ty::Word => 2,
        Ty::Dword => 3,
        Ty::Lword => 4,
        Ty::Sint => 5,
        Ty::Int => 6,
        Ty::Dint => 7,
        Ty::Lint => 8,
        Ty::Usint => 9,
        Ty::Uint => 10,
        Ty::Udint => 11,
        Ty::Ulint => 12,
        Ty::Time => 13,
    }
}

/// The place of the mark of an element and a type.
pub(crate) fn mark_place(element: u32, ty: Ty) -> usize
    ensures place { result ≡ mark_place element ty }
    ensures below { result < 14 * element + 14 }
{
    14 * element as usize + position(ty)
}

impl Search {
    /// Finds a fact, if it isn't found yet.
    fn note(&mut self, fact: Fact) -> Result<(), NoMemory>
        requires { 14 * fact.element + 14 ≤ length self.old.marks.items }
        ensures marks { OnOk result (self.new.marks.items ≡ marked self.old.marks.items fact) }
        ensures found { OnOk result (self.new.found.items ≡ (if is_marked self.old.marks.items fact.element fact.ty then self.old.found.items else (self.old.found.items ++ fact ∷ []))) }
    {
        let place = mark_place(fact.element, fact.ty);
        if self.marks[place] {
            return Ok(());
        }
        self.found.push(fact)?;
        self.marks[place] = true;
        Ok(())
    }

    /// Finds what follows from a fact.
    fn pass(&mut self, flow: &Flow, count: usize, done: usize) -> Result<(), NoMemory>
        requires flow { IsFlow count flow.now.seeds.items flow.now.next.items }
        requires search { IsSearch flow.now.seeds.items flow.now.next.items count self.old.marks.items self.old.found.items done }
        requires more { done < length self.old.found.items }
        ensures search { OnOk result (IsSearch flow.now.seeds.items flow.now.next.items count self.new.marks.items self.new.found.items (done + 1)) }
        ensures kept { OnOk result (KeepsMarks self.old.marks.items self.new.marks.items) }
    {
        let fact = self.found[done];
        for element in flow.next[fact.element as usize].as_slice() {
            self.note(Fact {
                element: *element,
                ty: fact.ty,
            })?;
        }
        Ok(())
    }
}

/// No mark.
fn no_marks(alloc: Global, count: usize) -> Result<Vec<bool>, NoMemory>
    ensures { IfOk result (λ marks. marks.items ≡ replicate count false) }
{
    Ok(vec![in alloc; false; count]?)
}

/// A search that has found the seeds.
fn begin(alloc: Global, flow: &Flow, count: usize) -> Result<Search, NoMemory>
    requires flow { IsFlow count flow.now.seeds.items flow.now.next.items }
    requires few { count < 2 ^ 32 }
    ensures search { IfOk result (λ search. IsSearch flow.now.seeds.items flow.now.next.items count search.marks.items search.found.items 0) }
    ensures seeds { IfOk result (λ search. AreMarked search.marks.items flow.now.seeds.items) }
{
    let mut search = Search {
        marks: no_marks(alloc, 14 * count)?,
        found: Vec::new(alloc),
    };
    for seed in &flow.seeds {
        search.note(*seed)?;
    }
    Ok(search)
}

/// The mark of each element and type: whether the type comes to the element's group.
pub(crate) fn comes(alloc: Global, flow: &Flow, count: usize) -> Result<Vec<bool>, NoMemory>
    requires flow { IsFlow count flow.now.seeds.items flow.now.next.items }
    requires few { count < 2 ^ 32 }
    ensures count { IfOk result (λ marks. length marks.items ≡ 14 * count) }
    ensures comes { IfOk result (λ marks. (e : ℕ) (t : Ty) → e < count → Decides (is_marked marks.items e t) (Comes flow.now.seeds.items flow.now.next.items e t)) }
{
    let mut search = begin(alloc, flow, count)?;
    let mut done = 0;
    while done < search.found.len() {
        search.pass(flow, count, done)?;
        done += 1;
    }
    Ok(search.marks)
}

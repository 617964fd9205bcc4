//! What is broken in POUs, and in the declarations of their variables.
ghost use Rattle.std.specs.Prelude.{◌≡◌, ◌++◌, ◌||◌, List, [], not, map, take, option_map, slice_get, Some, IfOk};
ghost use Rattle.std.specs.List.{list_any};
ghost use Rattle.plcx_types.specs.Reserved.{is_listed};
ghost use Rattle.plcx_meaning.specs.Layout.{is_constant};
ghost use Rattle.plcx_meaning.specs.Tree as tree;
ghost use Rattle.plcx_meaning.specs.Tree.{is_program};
ghost use Rattle.plcx_st.specs.Meant.{kind_meant, class_meant, mark_meant};
ghost use Rattle.plcx_conditions.specs.declared.broken.Condition.TheVariants.{Name};
ghost use Rattle.plcx_conditions.specs.Broken.{broken_if};
ghost use Rattle.plcx_conditions.specs.First.{first_of};
ghost use Rattle.plcx_conditions.specs.Placed.{Pou};
ghost use Rattle.plcx_known.specs.Unit.{placed_of, bare_of};
ghost use Rattle.plcx_conditions.specs.Places.{placed_word, placed_number, placed_pou};
ghost use Rattle.plcx_conditions.specs.Known.{is_among};
ghost use Rattle.plcx_conditions.specs.Declarations.{broken_in_own_name, broken_in_type, broken_in_initial, has_instances, is_in_out, broken_in_place, broken_in_variable, broken_in_variables, broken_in_pou, broken_in_pous};
ghost use Rattle.plcx_known.specs.Types.{type_of, meaning_of};
ghost use Rattle.plcx_known.specs.Owned.{shown_variable, shown_own};
ghost use Rattle.plcx_unit.specs.Answers.{is_unknown, IsTyped, AreTyped, variables_of};

use crate::first::{broken_if, sooner};
use crate::here::Here;
use crate::pieces::{differ, is_instance, literal_broken};
use plcx_conditions::{Broken, Condition};
use plcx_known::{Chains, Own, Owner, Scope, VarType};
use plcx_st::{Mark, PouText, TextClass, TextKind, Word};
use plcx_types::{NoMemory, is_listed};
use std::alloc::Global;
use std::marker::Model;

/// The condition on a name that is declared, and may stand again.
fn own_name_broken(again: bool, name: &Word) -> Option<Broken>
    ensures { (before : List placed.Word) → again ≡ is_among before (placed_word name.now) → result ≡ first_of (broken_in_own_name before (placed_word name.now)) }
{
    broken_if(
        again || is_listed(name.name.text()),
        Condition::Name,
        name.span.start,
    )
}

ghost use Rattle.plcx_conditions.specs.Placed as placed;

fn is_unknown(ty: VarType) -> bool
    ensures { result ≡ is_unknown ty }
{
    match ty {
        VarType::Unknown => true,
        VarType::Elementary(_) | VarType::Standard(_) | VarType::Block(_) => false,
    }
}

/// The condition on the type of a variable.
#[tactic(auto, using(crate::proofs::Declared::unknown_is))]
fn type_broken(own: &Own) -> Option<Broken>
    ensures { (unit : List tree.PouText) → IsTyped unit (shown_own own.now) → result ≡ first_of (broken_in_type unit (placed_word own.now.decl.now.ty)) }
{
    broken_if(is_unknown(own.ty), Condition::Name, own.decl.ty.span.start)
}

/// The conditions on the initial value of a variable.
#[tactic(auto, using(plcx_conditions::proofs::Firsts::first_append))]
fn initial_broken(own: &Own) -> Option<Broken>
    ensures { (unit : List tree.PouText) → result ≡ first_of (broken_in_initial (meaning_of unit own.now.ty) (option_map placed_number own.now.decl.now.initial)) }
{
    match &own.decl.initial {
        None => None,
        Some(n) => sooner(
            literal_broken(n),
            broken_if(differ(own.ty, Some(n.ty)), Condition::Types, n.span.start),
        ),
    }
}

/// Whether a variable of such a block may be an instance.
fn has_instances(class: TextClass, mark: Mark) -> bool
    ensures { result ≡ may_have_instances (class_meant class) (mark_meant mark) }
{
    match (class, mark) {
        (TextClass::Var, Mark::Plain) => true,
        (TextClass::Var, Mark::Retain) => true,
        (TextClass::Var, Mark::Constant) => false,
        _ => false,
    }
}

fn is_in_out(class: TextClass) -> bool
    ensures { result ≡ is_class_in_out (class_meant class) }
{
    match class {
        TextClass::InOut => true,
        _ => false,
    }
}

ghost use Rattle.plcx_unit.specs.Answers.{may_have_instances, is_class_in_out};

fn is_program(kind: TextKind) -> bool
    ensures { result ≡ is_program (kind_meant kind) }
{
    match kind {
        TextKind::Program => true,
        TextKind::FunctionBlock => false,
    }
}

/// The conditions on the block where a variable stands.
fn place_broken(kind: TextKind, own: &Own) -> Option<Broken>
    ensures { (unit : List tree.PouText) → result ≡ first_of (broken_in_place (kind_meant kind) (meaning_of unit own.now.ty) (shown_variable own.now)) }
{
    let misplaced = is_instance(own.ty) && !has_instances(own.class, own.mark);
    broken_if(
        misplaced || is_in_out(own.class) && is_program(kind),
        Condition::Types,
        own.decl.name.span.start,
    )
}

fn is_marked(marks: &[bool], place: usize) -> bool
    ensures { result ≡ get_or marks.now place false }
{
    match marks.get(place) {
        None => false,
        Some(mark) => *mark,
    }
}

/// A size counts where no chain is too long.
fn is_first_cause(chain: bool, large: bool) -> bool
    ensures { result ≡ (not chain && large) }
{
    !chain && large
}

ghost use Rattle.std.specs.Prelude.{get_or, false, ◌&&◌};

/// A unit with its tables, and where its chains of instances are too long and its POUs too large.
#[derive(Drop)]
pub(crate) struct Judge<'s, 'a> {
    scope: &'s Scope<'a>,
    chains: Chains,
    large: Vec<bool>,
}

impl<'s, 'a> Model for Judge<'s, 'a> {
    ghost use Rattle.std.specs.Prelude.{List};
    ghost use Rattle.std.specs.Coded.{codes};
    ghost use Rattle.plcx_st.specs.contracts.tree.PouText as p;
    ghost use Rattle.plcx_st.specs.declared.tree.PouText.{PouText};
    ghost use Rattle.plcx_unit.specs.Answers.{Tells};

    ghost Value = { List PouText };

    ghost coded = { Prim.hlevel (codes, p.the_row.coded) };

    ghost view = { λ j. j.scope.now };

    ghost invariant = { λ j. Tells j.scope.now j.chains.behind.items j.chains.any j.large.items };
}

impl<'s, 'a> Judge<'s, 'a> {
    /// The unit of a scope.
    pub fn of(alloc: Global, scope: &'s Scope<'a>) -> Result<Judge<'s, 'a>, NoMemory>
        ensures { IfOk result (λ j. j ≡ scope.now) }
    {
        let chains = scope.chains(alloc)?;
        let large = scope.large(alloc)?;
        Ok(Judge {
            scope,
            chains,
            large,
        })
    }

    /// The condition on the chain of instances that starts at a variable.
    fn chain_broken(&self, own: &Own) -> Option<Broken>
        ensures { IsTyped (bare_of self.now) (shown_own own.now) → result ≡ first_of (broken_in_chain (bare_of self.now) (shown_variable own.now)) }
    {
        broken_if(
            self.chains.starts(own.ty),
            Condition::Recursion,
            own.decl.name.span.start,
        )
    }

    /// What is broken in the declaration of a variable, whose name may stand again.
    fn variable_broken(&self, kind: TextKind, again: bool, own: &Own) -> Option<Broken>
        ensures { (before : List placed.Word) → again ≡ is_among before (placed_word own.now.decl.now.name) → IsTyped (bare_of self.now) (shown_own own.now)
            → result ≡ first_of (broken_in_variable (bare_of self.now) (kind_meant kind) before (shown_variable own.now)) }
    {
        let named = own_name_broken(again, &own.decl.name);
        let typed = type_broken(own);
        let begun = initial_broken(own);
        let placed = place_broken(kind, own);
        let chained = self.chain_broken(own);
        sooner(named, sooner(typed, sooner(begun, sooner(placed, chained))))
    }

    /// What is broken in the declarations of the variables of a POU.
    fn variables_broken(
        &self,
        alloc: Global,
        kind: TextKind,
        owner: &Owner,
    ) -> Result<Option<Broken>, NoMemory>
        requires { AreTyped (bare_of self.now) owner.now }
        ensures { IfOk result (λ b. b ≡ first_of (broken_in_variables (bare_of self.now) (kind_meant kind) [] (variables_of owner.now))) }
    {
        let mut first = None;
        let variables = owner.variables();
        for (place, own) in variables.iter().enumerate() {
            let again = owner.has_before(alloc, place, own.name())?;
            first = sooner(first, self.variable_broken(kind, again, own));
        }
        Ok(first)
    }

    /// The condition on the size of the POU at a place.
    fn size_broken(&self, place: usize, name: &Word) -> Option<Broken>
        ensures { (p : Pou) → slice_get (placed_of self.now) place ≡ Some p → p.name ≡ placed_word name.now → result ≡ first_of (broken_in_size (bare_of self.now) p) }
    {
        let large = is_marked(&self.large, place);
        broken_if(
            is_first_cause(self.chains.any, large),
            Condition::Recursion,
            name.span.start,
        )
    }

    /// What is broken in the variables of the POU at a place.
    fn own_broken(
        &self,
        alloc: Global,
        place: usize,
        kind: TextKind,
    ) -> Result<Option<Broken>, NoMemory>
        ensures { IfOk result (λ b. (p : Pou) → slice_get (placed_of self.now) place ≡ Some p → b ≡ first_of (broken_in_variables (bare_of self.now) (kind_meant kind) [] (declared p))) }
    {
        match self.scope.owner(place) {
            None => Ok(None),
            Some(owner) => Ok(self.variables_broken(alloc, kind, owner)?),
        }
    }

    /// What is broken in the statements of the POU at a place.
    fn body_broken(
        &self,
        alloc: Global,
        place: usize,
        pou: &PouText,
    ) -> Result<Option<Broken>, NoMemory>
        requires { slice_get (placed_of self.now) place ≡ Some (placed_pou pou.now) }
        ensures { IfOk result (λ b. b ≡ first_of (broken_in_body (setting (bare_of self.now) (placed_pou pou.now)) (placed_pou pou.now))) }
    {
        let here = Here {
            scope: self.scope,
            place,
        };
        Ok(here.statements(alloc, pou.body.as_slice())?)
    }

    /// What is broken in the POU at a place.
    fn pou_broken(
        &self,
        alloc: Global,
        place: usize,
        pou: &PouText,
    ) -> Result<Option<Broken>, NoMemory>
        requires { slice_get (placed_of self.now) place ≡ Some (placed_pou pou.now) }
        ensures { IfOk result (λ b. b ≡ first_of (broken_in_pou (bare_of self.now) (map (λ (p : Pou). p.name) (take place (placed_of self.now))) (placed_pou pou.now))) }
    {
        let name = pou.name.name.text();
        let again = self.scope.pous().has_before(alloc, place, name)?;
        let named = own_name_broken(again, &pou.name);
        let own = self.own_broken(alloc, place, pou.kind)?;
        let body = self.body_broken(alloc, place, pou)?;
        let size = self.size_broken(place, &pou.name);
        Ok(sooner(named, sooner(own, sooner(body, size))))
    }

    /// What is broken in the unit.
    pub fn unit_broken(&self, alloc: Global) -> Result<Option<Broken>, NoMemory>
        ensures { IfOk result (λ b. b ≡ first_of (broken_in (placed_of self.now))) }
    {
        let mut first = None;
        let pous = self.scope.pous().list();
        for (place, pou) in pous.iter().enumerate() {
            first = sooner(first, self.pou_broken(alloc, place, pou)?);
        }
        Ok(first)
    }
}

ghost use Rattle.plcx_conditions.specs.Placed.{declared};
ghost use Rattle.plcx_conditions.specs.Declarations.{broken_in_chain, broken_in_size, broken_in_body, setting, broken_in};

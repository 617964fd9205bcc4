//! What is found of expressions.
ghost use Rattle.std.specs.Prelude.{◌≡◌, ◌∷◌, ℕ, List, Vec, [], None, map, option_map, option_and_then, length, IfOk};
ghost use Rattle.std.specs.declared.alloc.Global.{Global};
ghost use Rattle.plcx_types.specs.declared.ty.Ty.{Ty};
ghost use Rattle.plcx_funcs.specs.declared.func.Func.TheVariants as func;
ghost use Rattle.plcx_funcs.specs.Names.{function_named};
ghost use Rattle.plcx_meaning.specs.Execute.{function_of};
ghost use Rattle.plcx_meaning.specs.Tree.{PouText};
ghost use Rattle.plcx_meaning.specs.Typed.{result_type, call_type};
ghost use Rattle.plcx_st.specs.Meant.{op_meant};
ghost use Rattle.plcx_conditions.specs.declared.broken.Condition.TheVariants.{Types};
ghost use Rattle.plcx_conditions.specs.Broken.{broken_if};
ghost use Rattle.plcx_conditions.specs.First.{first_of, sooner};
ghost use Rattle.plcx_conditions.specs.Placed as placed;
ghost use Rattle.plcx_conditions.specs.Places.{placed_word, placed_number, placed_expression};
ghost use Rattle.plcx_conditions.specs.Known.{Setting, found, seen_in};
ghost use Rattle.plcx_conditions.specs.Expressions.{broken_in_name, broken_in_member, broken_in_part, broken_in_output, broken_in_call, is_output, refuses};
ghost use Rattle.plcx_known.specs.Types.{parts_of, meaning_of};
ghost use Rattle.plcx_known.specs.Owned.{shown_seen};
ghost use Rattle.plcx_unit.specs.Pieces.{setting_of, IsJudged, AreJudged, value_type, output_type, part_type, member_value, with_type, one_type, two_types};

use crate::first::{broken, broken_if, sooner};
use crate::functions::refuses;
use crate::here::Here;
use crate::pieces::{Judged, Listed, elementary_of, is_instance, literal_broken};
use plcx_conditions::{Broken, Condition};
use plcx_funcs::{Func, lookup};
use plcx_known::{Seen, VarType};
use plcx_signatures::{call_type, can_have, function_of, is_operator, known_result};
use plcx_st::{Expr, Number, Op, TextClass, Word};
use plcx_types::{NoMemory, Ty};
use std::alloc::Global;

fn number(n: &Number) -> Judged
    ensures { (s : Setting) → IsJudged s (placed.Number (placed_number n.now)) result }
{
    Judged {
        broken: literal_broken(n),
        ty: Some(n.ty),
        at: n.span.start,
    }
}

/// What has no type, and is broken so.
fn nothing(broken: Option<Broken>, at: u64) -> Judged
    ensures { result ≡ record { broken = broken; ty = None; at = at } }
{
    Judged {
        broken,
        ty: None,
        at,
    }
}

/// The condition on a variable that is read.
fn name_broken(seen: Option<Seen>, name: &Word) -> Option<Broken>
    ensures { (unit : List PouText) → result ≡ first_of (broken_in_name (option_map (shown_seen unit) seen) (placed_word name.now)) }
{
    match seen {
        None => broken(Condition::Name, name.span.start),
        Some(v) => broken_if(is_instance(v.ty), Condition::Types, name.span.start),
    }
}

fn value_type(seen: Option<Seen>) -> Option<Ty>
    ensures { (unit : List PouText) → result ≡ value_type (option_map (shown_seen unit) seen) }
{
    match seen {
        None => None,
        Some(v) => elementary_of(v.ty),
    }
}

fn is_output(v: Seen) -> bool
    ensures { (unit : List PouText) → result ≡ is_output (shown_seen unit v).class }
{
    match v.class {
        TextClass::Output => true,
        TextClass::Var | TextClass::Input | TextClass::InOut | TextClass::Temp => false,
    }
}

/// The conditions on a part of an instance that is read.
#[tactic(auto, using(plcx_conditions::proofs::Firsts::first_append))]
fn output_broken(seen: Option<Seen>, instance: &Word, output: &Word) -> Option<Broken>
    ensures { (unit : List PouText) → result ≡ first_of (broken_in_output (option_map (shown_seen unit) seen) (placed_word instance.now) (placed_word output.now)) }
{
    match seen {
        None => broken(Condition::Name, output.span.start),
        Some(v) => sooner(
            broken_if(!is_output(v), Condition::Name, output.span.start),
            broken_if(is_instance(v.ty), Condition::Types, instance.span.start),
        ),
    }
}

fn output_type(seen: Option<Seen>) -> Option<Ty>
    ensures { (unit : List PouText) → result ≡ output_type (option_map (shown_seen unit) seen) }
{
    match seen {
        None => None,
        Some(v) => match v.class {
            TextClass::Output => elementary_of(v.ty),
            _ => None,
        },
    }
}

/// What is found of an operator or a function, by what is found of its operands.
fn typed_by(func: Func, types: Option<&[Ty]>, broken: Option<Broken>, at: u64) -> Judged
    ensures broken { result.broken ≡ sooner broken (first_of (broken_if (refuses func (option_map (λ s. s.now) types.entry)) Types at)) }
    ensures ty { result.ty ≡ option_and_then (result_type func) (option_map (λ s. s.now) types.entry) }
    ensures at { result.at ≡ at }
{
    Judged {
        broken: sooner(
            broken,
            broken_if(refuses(func, types), Condition::Types, at),
        ),
        ty: known_result(func, types),
        at,
    }
}

/// NOT before an operand.
fn negated(operand: &Judged, at: u64) -> Judged
    ensures broken { result.broken ≡ sooner operand.now.broken (first_of (broken_if (refuses func.Not (one_type operand.now.ty)) Types at)) }
    ensures ty { result.ty ≡ option_and_then (result_type func.Not) (one_type operand.now.ty) }
    ensures at { result.at ≡ at }
{
    match operand.ty {
        None => typed_by(Func::Not, None, operand.broken, at),
        Some(ty) => {
            let types = [ty];
            typed_by(Func::Not, Some(types.as_slice()), operand.broken, at)
        }
    }
}

/// An operator between two operands.
fn joined(op: Op, left: &Judged, right: &Judged) -> Judged
    ensures broken { result.broken ≡ sooner (sooner left.now.broken right.now.broken)
        (first_of (broken_if (refuses (function_of (op_meant op)) (two_types left.now.ty right.now.ty)) Types left.now.at)) }
    ensures ty { result.ty ≡ option_and_then (result_type (function_of (op_meant op))) (two_types left.now.ty right.now.ty) }
    ensures at { result.at ≡ left.now.at }
{
    let func = function_of(op);
    let broken = sooner(left.broken, right.broken);
    match (left.ty, right.ty) {
        (Some(one), Some(other)) => {
            let types = [one, other];
            typed_by(func, Some(types.as_slice()), broken, left.at)
        }
        _ => typed_by(func, None, broken, left.at),
    }
}

/// The conditions on a call of a function with so many arguments of these types.
#[tactic(auto, using(plcx_conditions::proofs::Firsts::first_append))]
fn call_broken(
    called: Option<Func>,
    function: &Word,
    count: usize,
    types: Option<&[Ty]>,
) -> Option<Broken>
    ensures { result ≡ first_of (broken_in_call called (placed_word function.now) count (option_map (λ s. s.now) types.entry)) }
{
    let at = function.span.start;
    match called {
        None => broken(Condition::Name, at),
        Some(func) => {
            let named = !is_operator(func);
            let unfit = !can_have(func, count) || refuses(func, types);
            sooner(
                broken_if(is_operator(func), Condition::Name, at),
                broken_if(named && unfit, Condition::Types, at),
            )
        }
    }
}

fn lent(types: &Option<Vec<Ty>>) -> Option<&[Ty]>
    ensures { option_map (λ s. s.now) result ≡ option_map (λ (v : Vec Ty Global). v.items) types.now }
{
    match types {
        None => None,
        Some(types) => Some(types.as_slice()),
    }
}

/// A call of a function.
fn applied(function: &Word, count: usize, args: &Listed) -> Judged
    ensures broken { result.broken ≡ sooner args.now.broken
        (first_of (broken_in_call (function_named function.now.name) (placed_word function.now) count (option_map (λ (v : Vec Ty Global). v.items) args.now.types))) }
    ensures ty { result.ty ≡ option_and_then (call_type (function_named function.now.name)) (option_map (λ (v : Vec Ty Global). v.items) args.now.types) }
    ensures at { result.at ≡ function.now.span.start }
{
    let called = lookup(function.name.text());
    let types = lent(&args.types);
    Judged {
        broken: sooner(args.broken, call_broken(called, function, count, types)),
        ty: call_type(called, types),
        at: function.span.start,
    }
}

fn none_yet(alloc: Global) -> Listed
    ensures broken { result.broken ≡ None }
    ensures types { option_map (λ (v : Vec Ty Global). v.items) result.types ≡ Some [] }
{
    Listed {
        broken: None,
        types: Some(Vec::new(alloc)),
    }
}

ghost use Rattle.std.specs.Prelude.{Some};

/// One type more, where all are known.
fn with_type(types: Option<Vec<Ty>>, ty: Option<Ty>) -> Result<Option<Vec<Ty>>, NoMemory>
    ensures { IfOk result (λ more. option_map (λ (v : Vec Ty Global). v.items) more ≡ with_type (option_map (λ (v : Vec Ty Global). v.items) types) ty) }
{
    match (types, ty) {
        (Some(mut types), Some(ty)) => {
            types.push(ty)?;
            Ok(Some(types))
        }
        _ => Ok(None),
    }
}

/// One expression more.
fn with_one(all: Listed, one: &Judged) -> Result<Listed, NoMemory>
    ensures broken { IfOk result (λ more. more.broken ≡ sooner all.broken one.now.broken) }
    ensures types { IfOk result (λ more. option_map (λ (v : Vec Ty Global). v.items) more.types ≡ with_type (option_map (λ (v : Vec Ty Global). v.items) all.types) one.now.ty) }
{
    let broken = sooner(all.broken, one.broken);
    let types = with_type(all.types, one.ty)?;
    Ok(Listed { broken, types })
}

impl<'s, 'a> Here<'s, 'a> {
    fn name(&self, alloc: Global, name: &Word) -> Result<Judged, NoMemory>
        ensures { IfOk result (IsJudged (setting_of self.now) (placed.Name (placed_word name.now))) }
    {
        let seen = self.found(alloc, name)?;
        Ok(Judged {
            broken: name_broken(seen, name),
            ty: value_type(seen),
            at: name.span.start,
        })
    }

    /// An output of an instance whose type is known.
    fn output(
        &self,
        alloc: Global,
        ty: VarType,
        instance: &Word,
        output: &Word,
    ) -> Result<Judged, NoMemory>
        ensures broken { IfOk result (λ j. j.broken ≡ first_of (broken_in_output (seen_in (setting_of self.now).unit (parts_of (setting_of self.now).unit ty) output.now.name)
            (placed_word instance.now) (placed_word output.now))) }
        ensures ty { IfOk result (λ j. j.ty ≡ output_type (seen_in (setting_of self.now).unit (parts_of (setting_of self.now).unit ty) output.now.name)) }
        ensures at { IfOk result (λ j. j.at ≡ instance.now.span.start) }
    {
        let seen = self.part(alloc, ty, output)?;
        Ok(Judged {
            broken: output_broken(seen, instance, output),
            ty: output_type(seen),
            at: instance.span.start,
        })
    }

    /// What is read of a variable of a type.
    fn part_of_type(
        &self,
        alloc: Global,
        ty: VarType,
        instance: &Word,
        output: &Word,
    ) -> Result<Judged, NoMemory>
        ensures broken { IfOk result (λ j. j.broken ≡ first_of (broken_in_part (setting_of self.now) (meaning_of (setting_of self.now).unit ty) (placed_word instance.now) (placed_word output.now))) }
        ensures ty { IfOk result (λ j. j.ty ≡ part_type (setting_of self.now) (meaning_of (setting_of self.now).unit ty) output.now.name) }
        ensures at { IfOk result (λ j. j.at ≡ instance.now.span.start) }
    {
        let at = instance.span.start;
        match ty {
            VarType::Unknown => Ok(nothing(None, at)),
            VarType::Elementary(_) => Ok(nothing(broken(Condition::Name, at), at)),
            VarType::Standard(_) => Ok(self.output(alloc, ty, instance, output)?),
            VarType::Block(_) => Ok(self.output(alloc, ty, instance, output)?),
        }
    }

    /// What is read of what a name leads to.
    fn part_of_seen(
        &self,
        alloc: Global,
        seen: Option<Seen>,
        instance: &Word,
        output: &Word,
    ) -> Result<Judged, NoMemory>
        ensures broken { IfOk result (λ j. j.broken ≡ first_of (broken_in_member (setting_of self.now) (option_map (shown_seen (setting_of self.now).unit) seen)
            (placed_word instance.now) (placed_word output.now))) }
        ensures ty { IfOk result (λ j. j.ty ≡ member_value (setting_of self.now) (option_map (shown_seen (setting_of self.now).unit) seen) output.now.name) }
        ensures at { IfOk result (λ j. j.at ≡ instance.now.span.start) }
    {
        match seen {
            None => {
                let at = instance.span.start;
                Ok(nothing(broken(Condition::Name, at), at))
            }
            Some(v) => Ok(self.part_of_type(alloc, v.ty, instance, output)?),
        }
    }

    fn member(&self, alloc: Global, instance: &Word, output: &Word) -> Result<Judged, NoMemory>
        ensures { IfOk result (IsJudged (setting_of self.now) (placed.Member (placed_word instance.now) (placed_word output.now))) }
    {
        let seen = self.found(alloc, instance)?;
        Ok(self.part_of_seen(alloc, seen, instance, output)?)
    }

    /// What is found of an expression.
    #[cycle(expression)]
    pub fn expression(&self, alloc: Global, x: &Expr) -> Result<Judged, NoMemory>
        ensures { IfOk result (IsJudged (setting_of self.now) (placed_expression x.now)) }
    {
        match x {
            Expr::Number(n) => Ok(number(n)),
            Expr::Name(name) => Ok(self.name(alloc, name)?),
            Expr::Member { instance, output } => Ok(self.member(alloc, instance, output)?),
            Expr::Call { function, args } => {
                let listed = self.expressions(alloc, args.as_slice())?;
                Ok(applied(function, args.len(), &listed))
            }
            Expr::Not { operand, span } => {
                let operand = self.expression(alloc, operand.get())?;
                Ok(negated(&operand, span.start))
            }
            Expr::Binary { op, left, right } => {
                let left = self.expression(alloc, left.get())?;
                let right = self.expression(alloc, right.get())?;
                Ok(joined(*op, &left, &right))
            }
        }
    }

    #[cycle(expression)]
    fn expressions(&self, alloc: Global, args: &[Expr]) -> Result<Listed, NoMemory>
        ensures { IfOk result (AreJudged (setting_of self.now) (map placed_expression args.now)) }
    {
        let mut all = none_yet(alloc);
        for x in args {
            let one = self.expression(alloc, x)?;
            all = with_one(all, &one)?;
        }
        Ok(all)
    }
}

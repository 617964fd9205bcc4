//! What is broken in calls of instances.
ghost use Rattle.std.specs.Prelude.{◌≡◌, ◌++◌, List, [], map, take, option_map, IfOk};
ghost use Rattle.std.specs.List.{list_any};
ghost use Rattle.plcx_meaning.specs.Tree.{PouText};
ghost use Rattle.plcx_st.specs.declared.tree.Arg.{Arg};
ghost use Rattle.plcx_st.specs.declared.tree.Word as word;
ghost use Rattle.plcx_conditions.specs.declared.broken.Condition.TheVariants.{Name, Types};
ghost use Rattle.plcx_conditions.specs.Broken.{broken_if};
ghost use Rattle.plcx_conditions.specs.First.{first_of};
ghost use Rattle.plcx_conditions.specs.Places.{placed_word, placed_expression, placed_argument};
ghost use Rattle.plcx_conditions.specs.Known.{same_name, found};
ghost use Rattle.plcx_conditions.specs.Expressions.{broken_in_expression};
ghost use Rattle.plcx_conditions.specs.Statements.{is_bindable, is_of_another, cannot_bind, is_unbindable, broken_in_binding, broken_by_formal, parts_known, broken_in_formal, broken_in_arguments, broken_in_instance, broken_in_call};
ghost use Rattle.plcx_known.specs.Types.{meaning_of};
ghost use Rattle.plcx_known.specs.Owned.{shown_seen};
ghost use Rattle.plcx_known.specs.Parts.{in_outs_of};
ghost use Rattle.plcx_unit.specs.Pieces.{setting_of, IsJudged, name_alone, formals, is_lacking};

use crate::first::{broken, broken_if, sooner};
use crate::here::Here;
use crate::pieces::{Judged, differ, is_target, value_broken};
use plcx_conditions::{Broken, Condition};
use plcx_known::{Names, Seen, VarType};
use plcx_st::{Arg, Expr, TextClass, Word};
use plcx_types::NoMemory;
use std::alloc::Global;

/// Whether an in-out may stand for a variable.
fn is_bindable(v: Seen) -> bool
    ensures { (unit : List PouText) → result ≡ is_bindable (shown_seen unit v) }
{
    match v.class {
        TextClass::Temp => false,
        _ => is_target(v),
    }
}

/// Whether a variable of a type is known to be none of the type that is wanted.
fn is_of_another(wanted: VarType, ty: VarType) -> bool
    ensures { (unit : List PouText) → result ≡ is_of_another (meaning_of unit wanted) (meaning_of unit ty) }
{
    match ty {
        VarType::Elementary(ty) => differ(wanted, Some(ty)),
        VarType::Unknown => false,
        VarType::Standard(_) => false,
        VarType::Block(_) => false,
    }
}

/// Whether an in-out of a type can't stand for what a name leads to.
fn cannot_bind(wanted: VarType, seen: Option<Seen>) -> bool
    ensures { (unit : List PouText) → result ≡ cannot_bind (meaning_of unit wanted) (option_map (shown_seen unit) seen) }
{
    match seen {
        None => false,
        Some(v) => !is_bindable(v) || is_of_another(wanted, v.ty),
    }
}

/// The name that an expression is.
fn name_alone(x: &Expr) -> Option<&Word>
    ensures { option_map (λ w. placed_word w.now) result ≡ name_alone (placed_expression x.now) }
{
    match x {
        Expr::Name(name) => Some(name),
        Expr::Number(_) => None,
        Expr::Member { .. } => None,
        Expr::Call { .. } => None,
        Expr::Not { .. } => None,
        Expr::Binary { .. } => None,
    }
}

fn formals_of<'a>(alloc: Global, args: &'a [Arg]) -> Result<Vec<&'a [u8]>, NoMemory>
    ensures { IfOk result (λ names. map (λ s. s.now) names.items ≡ formals args.now) }
{
    let mut names = Vec::new(alloc);
    for arg in args {
        names.push(arg.formal.name.text())?;
    }
    Ok(names)
}

/// Whether one of the in-outs has none of these names.
fn some_lacks(alloc: Global, in_outs: &[&[u8]], names: &Names) -> Result<bool, NoMemory>
    ensures { IfOk result (λ b. b ≡ list_any (is_lacking names.now) (map (λ s. s.now) in_outs.now)) }
{
    for name in in_outs {
        if !names.has(alloc, *name)? {
            return Ok(true);
        }
    }
    Ok(false)
}

ghost use Rattle.plcx_known.specs.declared.types.VarType.TheVariants.{Block};

impl<'s, 'a> Here<'s, 'a> {
    /// Whether an expression can't stand for an in-out of a type.
    #[tactic(auto, using(crate::proofs::Acting::unbindable_name, crate::proofs::Acting::unbindable_other))]
    fn is_unbindable(&self, alloc: Global, wanted: VarType, x: &Expr) -> Result<bool, NoMemory>
        ensures { IfOk result (λ b. b ≡ is_unbindable (setting_of self.now) (meaning_of (setting_of self.now).unit wanted) (placed_expression x.now)) }
    {
        match name_alone(x) {
            None => Ok(true),
            Some(name) => Ok(cannot_bind(wanted, self.found(alloc, name)?)),
        }
    }

    /// The condition on the argument of an in-out of a type.
    fn binding(
        &self,
        alloc: Global,
        wanted: VarType,
        x: &Expr,
        one: &Judged,
    ) -> Result<Option<Broken>, NoMemory>
        requires { IsJudged (setting_of self.now) (placed_expression x.now) one.now }
        ensures { IfOk result (λ b. b ≡ first_of (broken_in_binding (setting_of self.now) (meaning_of (setting_of self.now).unit wanted) (placed_expression x.now))) }
    {
        let unbindable = self.is_unbindable(alloc, wanted, x)?;
        Ok(broken_if(unbindable, Condition::Types, one.at))
    }

    /// The conditions on an argument by what its formal name leads to.
    fn by_formal(
        &self,
        alloc: Global,
        seen: Option<Seen>,
        arg: &Arg,
        one: &Judged,
    ) -> Result<Option<Broken>, NoMemory>
        requires { IsJudged (setting_of self.now) (placed_expression arg.now.value) one.now }
        ensures { IfOk result (λ b. b ≡ first_of (broken_by_formal (setting_of self.now) (option_map (shown_seen (setting_of self.now).unit) seen) (placed_argument arg.now))) }
    {
        let at = arg.formal.span.start;
        match seen {
            None => Ok(broken(Condition::Name, at)),
            Some(v) => match v.class {
                TextClass::Input => Ok(value_broken(v.ty, one)),
                TextClass::InOut => Ok(self.binding(alloc, v.ty, &arg.value, one)?),
                TextClass::Var => Ok(broken(Condition::Name, at)),
                TextClass::Output => Ok(broken(Condition::Name, at)),
                TextClass::Temp => Ok(broken(Condition::Name, at)),
            },
        }
    }

    /// The conditions on an argument by its formal name in an instance of a type.
    fn formal(
        &self,
        alloc: Global,
        ty: VarType,
        arg: &Arg,
        one: &Judged,
    ) -> Result<Option<Broken>, NoMemory>
        requires { IsJudged (setting_of self.now) (placed_expression arg.now.value) one.now }
        ensures { IfOk result (λ b. b ≡ first_of (broken_in_formal (setting_of self.now) (parts_known (meaning_of (setting_of self.now).unit ty)) (placed_argument arg.now))) }
    {
        match ty {
            VarType::Unknown => Ok(None),
            VarType::Elementary(_) => Ok(None),
            VarType::Standard(_) => {
                let seen = self.part(alloc, ty, &arg.formal)?;
                Ok(self.by_formal(alloc, seen, arg, one)?)
            }
            VarType::Block(_) => {
                let seen = self.part(alloc, ty, &arg.formal)?;
                Ok(self.by_formal(alloc, seen, arg, one)?)
            }
        }
    }

    /// What is broken in the argument at a place of those with these formal names.
    fn argument(
        &self,
        alloc: Global,
        ty: VarType,
        names: &Names,
        place: usize,
        arg: &Arg,
    ) -> Result<Option<Broken>, NoMemory>
        ensures { IfOk result (λ b. b ≡ first_of (broken_if (list_any (λ n. same_name n arg.now.formal.name) (take place names.now)) Name arg.now.formal.span.start
            ++ (broken_in_expression (setting_of self.now) (placed_expression arg.now.value)
            ++ broken_in_formal (setting_of self.now) (parts_known (meaning_of (setting_of self.now).unit ty)) (placed_argument arg.now)))) }
    {
        let again = names.has_before(alloc, place, arg.formal.name.text())?;
        let one = self.expression(alloc, &arg.value)?;
        let formal = self.formal(alloc, ty, arg, &one)?;
        let named = broken_if(again, Condition::Name, arg.formal.span.start);
        Ok(sooner(named, sooner(one.broken, formal)))
    }

    /// What is broken in the arguments of a call of an instance of a type.
    fn arguments(
        &self,
        alloc: Global,
        ty: VarType,
        names: &Names,
        args: &[Arg],
    ) -> Result<Option<Broken>, NoMemory>
        requires { names.now ≡ formals args.now }
        ensures { IfOk result (λ b. b ≡ first_of (broken_in_arguments (setting_of self.now) (parts_known (meaning_of (setting_of self.now).unit ty)) [] (map placed_argument args.now))) }
    {
        let mut first = None;
        for (place, arg) in args.iter().enumerate() {
            first = sooner(first, self.argument(alloc, ty, names, place, arg)?);
        }
        Ok(first)
    }

    /// Whether an in-out of an instance of the function block at a place has no argument of its name.
    #[tactic(auto, using(plcx_known::proofs::Parts::block_in_outs, plcx_known::proofs::Parts::no_block_in_outs))]
    fn block_lacks(&self, alloc: Global, place: usize, names: &Names) -> Result<bool, NoMemory>
        ensures { IfOk result (λ b. b ≡ list_any (is_lacking names.now) (in_outs_of (setting_of self.now).unit (Block place))) }
    {
        match self.scope.owner(place) {
            None => Ok(false),
            Some(owner) => Ok(some_lacks(alloc, owner.in_outs(), names)?),
        }
    }

    /// The conditions on the name that is called, by its type.
    fn instance(
        &self,
        alloc: Global,
        ty: VarType,
        instance: &Word,
        names: &Names,
        args: &[Arg],
    ) -> Result<Option<Broken>, NoMemory>
        requires { names.now ≡ formals args.now }
        ensures { IfOk result (λ b. b ≡ first_of (broken_in_instance (setting_of self.now) (meaning_of (setting_of self.now).unit ty) (placed_word instance.now) (map placed_argument args.now))) }
    {
        let at = instance.span.start;
        match ty {
            VarType::Unknown => Ok(None),
            VarType::Elementary(_) => Ok(broken(Condition::Name, at)),
            VarType::Standard(_) => Ok(None),
            VarType::Block(place) => {
                let lacks = self.block_lacks(alloc, place, names)?;
                Ok(broken_if(lacks, Condition::Types, at))
            }
        }
    }

    /// What is broken in a call of what a name leads to.
    #[tactic(auto, using(plcx_conditions::proofs::Firsts::first_append))]
    fn call_of(
        &self,
        alloc: Global,
        seen: Option<Seen>,
        instance: &Word,
        names: &Names,
        args: &[Arg],
    ) -> Result<Option<Broken>, NoMemory>
        requires { names.now ≡ formals args.now }
        ensures { IfOk result (λ b. b ≡ first_of (broken_in_call (setting_of self.now) (option_map (shown_seen (setting_of self.now).unit) seen)
            (placed_word instance.now) (map placed_argument args.now))) }
    {
        match seen {
            None => {
                let rest = self.arguments(alloc, VarType::Unknown, names, args)?;
                Ok(sooner(broken(Condition::Name, instance.span.start), rest))
            }
            Some(v) => {
                let called = self.instance(alloc, v.ty, instance, names, args)?;
                let rest = self.arguments(alloc, v.ty, names, args)?;
                Ok(sooner(called, rest))
            }
        }
    }

    /// What is broken in a call.
    pub fn call(
        &self,
        alloc: Global,
        instance: &Word,
        args: &[Arg],
    ) -> Result<Option<Broken>, NoMemory>
        ensures { IfOk result (λ b. b ≡ first_of (broken_in_call (setting_of self.now) (found (setting_of self.now) instance.now.name) (placed_word instance.now) (map placed_argument args.now))) }
    {
        let names = Names::of(alloc, formals_of(alloc, args)?)?;
        let seen = self.found(alloc, instance)?;
        Ok(self.call_of(alloc, seen, instance, &names, args)?)
    }
}

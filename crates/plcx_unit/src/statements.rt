//! What is broken in statements.
ghost use Rattle.std.specs.Prelude.{◌≡◌, ◌++◌, ◌||◌, ℕ, List, [], map, option_map, nat_eq, IfOk};
ghost use Rattle.std.specs.List.{list_any};
ghost use Rattle.plcx_types.specs.declared.ty.Ty.{Ty};
ghost use Rattle.plcx_meaning.specs.Layout.{Elementary};
ghost use Rattle.plcx_conditions.specs.declared.broken.Condition.TheVariants.{Literal};
ghost use Rattle.plcx_conditions.specs.Broken.{broken_if};
ghost use Rattle.plcx_conditions.specs.First.{first_of};
ghost use Rattle.plcx_conditions.specs.Placed as placed;
ghost use Rattle.plcx_conditions.specs.Placed.{Expression};
ghost use Rattle.plcx_conditions.specs.Places.{placed_word, placed_expression, placed_statement};
ghost use Rattle.plcx_conditions.specs.Known.{Setting, found};
ghost use Rattle.plcx_conditions.specs.Statements.{broken_in_assignment, broken_in_label, broken_where, broken_in_statement, broken_in_statements, broken_in_arms};
ghost use Rattle.plcx_known.specs.Owned.{shown_seen};
ghost use Rattle.plcx_unit.specs.Pieces.{setting_of, IsJudged, placed_labelled, AreLabels};

use crate::first::{broken, broken_if, sooner};
use crate::here::Here;
use crate::pieces::{Judged, is_target, value_broken};
use plcx_conditions::{Broken, Condition};
use plcx_known::{Seen, VarType};
use plcx_st::{Arm, Expr, Stmt, Word};
use plcx_types::{NoMemory, Ty};
use std::alloc::Global;
use std::collections::HashSet;

/// The conditions on a target, by what its name leads to, and on the value that goes to it.
#[tactic(auto, using(crate::proofs::Acting::value_is, plcx_conditions::proofs::Firsts::first_append))]
fn assignment(seen: Option<Seen>, target: &Word, one: &Judged) -> Option<Broken>
    ensures { (s : Setting) (e : Expression) → IsJudged s e one.now → result ≡ first_of (broken_in_assignment s (option_map (shown_seen s.unit) seen) (placed_word target.now) e) }
{
    let at = target.span.start;
    match seen {
        None => broken(Condition::Name, at),
        Some(v) => sooner(
            broken_if(!is_target(v), Condition::Types, at),
            value_broken(v.ty, one),
        ),
    }
}

/// Adds a label, and says whether it was there.
fn add(labels: &mut HashSet<u32>, label: u32) -> Result<bool, NoMemory>
    ensures there { IfOk result (λ there. there ≡ list_any (nat_eq label) labels.old.keys) }
    ensures added { IfOk result (λ there. (n : ℕ) → list_any (nat_eq n) labels.new.keys ≡ (list_any (nat_eq n) labels.old.keys || nat_eq n label)) }
{
    Ok(!labels.insert(label)?)
}

/// The condition on a label behind others, which it joins.
fn label_broken(labels: &mut HashSet<u32>, arm: &Arm) -> Result<Option<Broken>, NoMemory>
    ensures broken { IfOk result (λ b. (before : List ℕ) → AreLabels before labels.old.keys → b ≡ first_of (broken_in_label before arm.now.label arm.now.span.start)) }
    ensures labels { IfOk result (λ b. (before : List ℕ) → AreLabels before labels.old.keys → AreLabels (before ++ arm.now.label ∷ []) labels.new.keys) }
{
    let again = add(labels, arm.label)?;
    Ok(broken_if(
        2_147_483_647 < arm.label || again,
        Condition::Literal,
        arm.span.start,
    ))
}

ghost use Rattle.std.specs.Prelude.{◌∷◌};

impl<'s, 'a> Here<'s, 'a> {
    /// What is broken in an assignment.
    fn assign(&self, alloc: Global, target: &Word, value: &Expr) -> Result<Option<Broken>, NoMemory>
        ensures { IfOk result (λ b. b ≡ first_of (broken_in_statement (setting_of self.now) (placed.Assign (placed_word target.now) (placed_expression value.now)))) }
    {
        let one = self.expression(alloc, value)?;
        let seen = self.found(alloc, target)?;
        Ok(sooner(one.broken, assignment(seen, target, &one)))
    }

    /// What is broken in an expression that has to be of this type.
    #[tactic(auto, using(crate::proofs::Acting::where_is))]
    fn condition(&self, alloc: Global, ty: Ty, x: &Expr) -> Result<Option<Broken>, NoMemory>
        ensures { IfOk result (λ b. b ≡ first_of (broken_where (setting_of self.now) ty (placed_expression x.now))) }
    {
        let one = self.expression(alloc, x)?;
        let value = value_broken(VarType::Elementary(ty), &one);
        Ok(sooner(one.broken, value))
    }

    /// What is broken in a statement.
    #[cycle(statement)]
    fn statement(&self, alloc: Global, s: &Stmt) -> Result<Option<Broken>, NoMemory>
        ensures { IfOk result (λ b. b ≡ first_of (broken_in_statement (setting_of self.now) (placed_statement s.now))) }
    {
        match s {
            Stmt::Assign { target, value } => Ok(self.assign(alloc, target, value)?),
            Stmt::Call { instance, args } => Ok(self.call(alloc, instance, args.as_slice())?),
            Stmt::If { cond, body } => {
                let first = self.condition(alloc, Ty::Bool, cond)?;
                let rest = self.statements(alloc, body.as_slice())?;
                Ok(sooner(first, rest))
            }
            Stmt::While { cond, body } => {
                let first = self.condition(alloc, Ty::Bool, cond)?;
                let rest = self.statements(alloc, body.as_slice())?;
                Ok(sooner(first, rest))
            }
            Stmt::Case { value, arms } => {
                let first = self.condition(alloc, Ty::Dint, value)?;
                let rest = self.arms(alloc, arms.as_slice())?;
                Ok(sooner(first, rest))
            }
        }
    }

    /// What is broken in statements.
    #[cycle(statement)]
    pub fn statements(&self, alloc: Global, body: &[Stmt]) -> Result<Option<Broken>, NoMemory>
        ensures { IfOk result (λ b. b ≡ first_of (broken_in_statements (setting_of self.now) (placed.statements (map placed_statement body.now)))) }
    {
        let mut first = None;
        for s in body {
            first = sooner(first, self.statement(alloc, s)?);
        }
        Ok(first)
    }

    #[cycle(statement)]
    fn arms(&self, alloc: Global, arms: &[Arm]) -> Result<Option<Broken>, NoMemory>
        ensures { IfOk result (λ b. b ≡ first_of (broken_in_arms (setting_of self.now) [] (placed.arms (map placed_labelled arms.now)))) }
    {
        let mut first = None;
        let mut labels = HashSet::new(alloc);
        for arm in arms {
            let label = label_broken(&mut labels, arm)?;
            let body = self.statements(alloc, arm.body.as_slice())?;
            first = sooner(first, sooner(label, body));
        }
        Ok(first)
    }
}

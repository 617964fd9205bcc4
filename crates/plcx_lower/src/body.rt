//! The statements of a body, as they grow.
ghost use Rattle.std.specs.Prelude.{◌≡◌, [], ◌∷◌, IsTrue, IfOk, OnOk, codes};
ghost use Rattle.plcx_meaning.specs.Tree.{Assign, If, statements};
ghost use Rattle.plcx_meaning.specs.Templates.{wire, wire_name, store_text, turned_if, enabled};
ghost use Rattle.plcx_st.specs.Meant.{expr_meant, stmt_meant};
ghost use Rattle.plcx_st.specs.InRange.{StatementInRange};
ghost use Rattle.plcx_types.specs.Name.{is_identifier};
ghost use Rattle.plcx_drawn.specs.Shown.{shown_storing, shown_enable};
ghost use Rattle.plcx_lower.specs.Adds.{Adds};

use crate::expressions::{truth, turned, wire_value};
use crate::words::{wire_word, word_named};
use plcx_drawn::{Enable, Storing};
use plcx_st::{Expr, Stmt, Word};
use plcx_types::NoMemory;
use sqlite_items::Items;
use std::alloc::Global;

/// The statements so far.
#[derive(Drop)]
pub struct Body {
    pub alloc: Global,
    pub statements: Vec<Stmt>,
}

/// A variable gets a value.
pub fn assignment(target: Word, value: Expr) -> Stmt
    ensures { stmt_meant result ≡ Assign target.name (expr_meant value) }
{
    Stmt::Assign { target, value }
}

/// One statement alone.
fn alone(alloc: Global, stmt: Stmt) -> Result<Items<Stmt>, NoMemory>
    ensures { IfOk result (λ items. items ≡ stmt ∷ []) }
{
    let mut body = Vec::with_capacity(alloc, 1)?;
    body.push(stmt)?;
    Ok(Items::from_vec(body))
}

/// A statement within an IF.
pub fn when(alloc: Global, cond: Expr, stmt: Stmt) -> Result<Stmt, NoMemory>
    ensures { IfOk result (λ s. stmt_meant s ≡ If (expr_meant cond) (statements (stmt_meant stmt ∷ []))) }
{
    let body = alone(alloc, stmt)?;
    Ok(Stmt::If { cond, body })
}

/// A variable gets a value or its opposite, or is set or reset where the value is TRUE.
pub fn storing(alloc: Global, how: Storing, variable: &[u8], value: Expr) -> Result<Stmt, NoMemory>
    requires { IsTrue (is_identifier variable.now) }
    ensures { IfOk result (λ s. stmt_meant s ≡ store_text (shown_storing how) variable.now (expr_meant value)) }
{
    let target = word_named(alloc, variable)?;
    match how {
        Storing::Stored => Ok(assignment(target, value)),
        Storing::Inverted => Ok(assignment(target, turned(alloc, value)?)),
        Storing::Set => when(alloc, value, assignment(target, truth(true))),
        Storing::Reset => when(alloc, value, assignment(target, truth(false))),
    }
}

impl Body {
    /// A body without statements.
    pub fn new(alloc: Global) -> Body
        ensures { result.statements.items ≡ [] }
    {
        Body {
            alloc,
            statements: Vec::new(alloc),
        }
    }

    /// Puts a statement at the end.
    pub fn put(&mut self, stmt: Stmt) -> Result<(), NoMemory>
        ensures { OnOk result (Adds self.old self.new (stmt_meant stmt ∷ [])) }
    {
        self.statements.push(stmt)?;
        Ok(())
    }

    /// A wire gets a value.
    pub fn put_wire(&mut self, id: u64, pin: &[u8], value: Expr) -> Result<(), NoMemory>
        requires { IsTrue (is_identifier (wire_name id pin.now)) }
        ensures { OnOk result (Adds self.old self.new (Assign (wire_name id pin.now) (expr_meant value) ∷ [])) }
    {
        let target = wire_word(self.alloc, id, pin)?;
        self.put(assignment(target, value))
    }

    /// A wire is turned, where its output is negated.
    pub fn put_turned(&mut self, negated: bool, id: u64, pin: &[u8]) -> Result<(), NoMemory>
        requires { Each StatementInRange (turned_if negated id pin.now) }
        ensures { OnOk result (Adds self.old self.new (turned_if negated id pin.now)) }
    {
        if negated {
            let value = wire_value(self.alloc, id, pin)?;
            let opposite = turned(self.alloc, value)?;
            self.put_wire(id, pin, opposite)
        } else {
            Ok(())
        }
    }

    fn put_within(&mut self, id: u64, stmt: Stmt) -> Result<(), NoMemory>
        requires { IsTrue (is_identifier (wire_name id (codes "ENO"))) }
        ensures { OnOk result (Adds self.old self.new (If (wire id (codes "ENO")) (statements (stmt_meant stmt ∷ [])) ∷ [])) }
    {
        let cond = wire_value(self.alloc, id, b"ENO")?;
        let within = when(self.alloc, cond, stmt)?;
        self.put(within)
    }

    /// A statement within an IF over ENO where EN is connected, or as it is.
    pub fn put_enabled(&mut self, id: u64, enable: &Enable, stmt: Stmt) -> Result<(), NoMemory>
        requires { StatementInRange (enabled id (shown_enable enable.now) (stmt_meant stmt)) }
        ensures { OnOk result (Adds self.old self.new (enabled id (shown_enable enable.now) (stmt_meant stmt) ∷ [])) }
    {
        match &enable.en {
            Some(_) => self.put_within(id, stmt),
            None => self.put(stmt),
        }
    }
}

ghost use Rattle.plcx_types.specs.Lists.{Each};

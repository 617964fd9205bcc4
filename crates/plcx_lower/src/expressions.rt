//! What stands at the pins of an element, and what it reads, as expressions.
ghost use Rattle.std.specs.Prelude.{◌≡◌, map, IsTrue, IfOk};
ghost use Rattle.plcx_types.specs.Lists.{Each};
ghost use Rattle.plcx_types.specs.Name.{is_identifier};
ghost use Rattle.plcx_meaning.specs.Base.{AtEdge, AtOutput};
ghost use Rattle.plcx_meaning.specs.Tree.{Not, Binary};
ghost use Rattle.plcx_meaning.specs.Templates.{both, number, truth, not_if, source_text, or_text, link_text, operand_text, contact_text, wire_name, wire, memory_name, memory};
ghost use Rattle.plcx_st.specs.Meant.{expr_meant, op_meant};
ghost use Rattle.plcx_st.specs.InRange.{ExpressionInRange};
ghost use Rattle.plcx_drawn.specs.Shown.{shown_source, shown_link, shown_operand, shown_contacting};

use crate::words::{edge_word, fed_word, wire_word, word_named};
use plcx_drawn::{Contacting, Link, Operand, Source};
use plcx_st::{Expr, Number, Op};
use plcx_types::{NoMemory, Span, Ty};
use sqlite_items::Boxed;
use std::alloc::Global;

/// A literal.
pub fn number(ty: Ty, n: i128) -> Expr
    ensures { expr_meant result ≡ number ty n }
{
    Expr::Number(Number {
        ty,
        n,
        span: Span { start: 0, end: 0 },
    })
}

/// TRUE or FALSE.
pub fn truth(value: bool) -> Expr
    ensures { expr_meant result ≡ truth value }
{
    number(Ty::Bool, if value { 1 } else { 0 })
}

/// An expression under NOT.
pub fn turned(alloc: Global, operand: Expr) -> Result<Expr, NoMemory>
    ensures { IfOk result (λ e. expr_meant e ≡ Not (expr_meant operand)) }
{
    Ok(Expr::Not {
        operand: Boxed::new(alloc, operand)?,
        span: Span { start: 0, end: 0 },
    })
}

/// An expression under NOT, or as it is.
pub fn turned_if(alloc: Global, negated: bool, operand: Expr) -> Result<Expr, NoMemory>
    ensures { IfOk result (λ e. expr_meant e ≡ not_if negated (expr_meant operand)) }
{
    if negated {
        turned(alloc, operand)
    } else {
        Ok(operand)
    }
}

/// Two expressions joined by an operator.
pub fn binary(alloc: Global, op: Op, left: Expr, right: Expr) -> Result<Expr, NoMemory>
    ensures { IfOk result (λ e. expr_meant e ≡ Binary (op_meant op) (expr_meant left) (expr_meant right)) }
{
    Ok(Expr::Binary {
        op,
        left: Boxed::new(alloc, left)?,
        right: Boxed::new(alloc, right)?,
    })
}

/// A wire, by its element and its pin.
pub fn wire_value(alloc: Global, id: u64, pin: &[u8]) -> Result<Expr, NoMemory>
    requires { IsTrue (is_identifier (wire_name id pin.now)) }
    ensures { IfOk result (λ e. expr_meant e ≡ wire id pin.now) }
{
    Ok(Expr::Name(wire_word(alloc, id, pin)?))
}

/// What an element remembers at its edge.
pub fn edge_value(alloc: Global, id: u64) -> Result<Expr, NoMemory>
    requires { IsTrue (is_identifier (memory_name (AtEdge id))) }
    ensures { IfOk result (λ e. expr_meant e ≡ memory (AtEdge id)) }
{
    Ok(Expr::Name(edge_word(alloc, id)?))
}

/// What an output that feeds back was before.
pub fn fed_value(alloc: Global, id: u64, pin: &[u8]) -> Result<Expr, NoMemory>
    requires { IsTrue (is_identifier (memory_name (AtOutput id pin.now))) }
    ensures { IfOk result (λ e. expr_meant e ≡ memory (AtOutput id pin.now)) }
{
    Ok(Expr::Name(fed_word(alloc, id, pin)?))
}

/// What a source stands for in the type of the pin.
pub fn source_value(alloc: Global, ty: Ty, source: &Source) -> Result<Expr, NoMemory>
    requires { ExpressionInRange (source_text ty (shown_source source.now)) }
    ensures { IfOk result (λ e. expr_meant e ≡ source_text ty (shown_source source.now)) }
{
    match source {
        Source::Rail => Ok(truth(true)),
        Source::Literal { negated, n } => turned_if(alloc, *negated, number(ty, *n)),
        Source::Wire(output) => wire_value(alloc, output.element, output.pin),
        Source::Back(output) => fed_value(alloc, output.element, output.pin),
    }
}

/// The OR of an expression and of several sources, from the left.
fn joined(alloc: Global, ty: Ty, first: Expr, others: &[Source]) -> Result<Expr, NoMemory>
    requires { Each ExpressionInRange (map (source_text ty) (map shown_source others.now)) }
    ensures { IfOk result (λ e. expr_meant e ≡ or_text (expr_meant first) (map (source_text ty) (map shown_source others.now))) }
{
    let mut value = first;
    for other in others {
        value = binary(alloc, Op::Or, value, source_value(alloc, ty, other)?)?;
    }
    Ok(value)
}

/// The OR of a link's sources, under NOT where the pin is negated.
pub fn link_value(alloc: Global, link: &Link) -> Result<Expr, NoMemory>
    requires { ExpressionInRange (link_text (shown_link link.now)) }
    ensures { IfOk result (λ e. expr_meant e ≡ link_text (shown_link link.now)) }
{
    let first = source_value(alloc, link.ty, &link.first)?;
    let value = joined(alloc, link.ty, first, link.others.as_slice())?;
    turned_if(alloc, link.negated, value)
}

/// A variable, or an output of an instance.
pub fn operand_value(alloc: Global, operand: &Operand) -> Result<Expr, NoMemory>
    requires { ExpressionInRange (operand_text (shown_operand operand.now)) }
    ensures { IfOk result (λ e. expr_meant e ≡ operand_text (shown_operand operand.now)) }
{
    match operand {
        Operand::Own(name) => Ok(Expr::Name(word_named(alloc, name)?)),
        Operand::Output { instance, output } => Ok(Expr::Member {
            instance: word_named(alloc, instance)?,
            output: word_named(alloc, output)?,
        }),
    }
}

/// The AND of an expression and the opposite of another.
fn and_not(alloc: Global, left: Expr, right: Expr) -> Result<Expr, NoMemory>
    ensures { IfOk result (λ e. expr_meant e ≡ both (expr_meant left) (Not (expr_meant right))) }
{
    let opposite = turned(alloc, right)?;
    binary(alloc, Op::And, left, opposite)
}

/// What a contact lets through where its variable rises.
fn risen(alloc: Global, id: u64, wired: Expr, value: Expr) -> Result<Expr, NoMemory>
    requires { IsTrue (is_identifier (memory_name (AtEdge id))) }
    ensures { IfOk result (λ e. expr_meant e ≡ both (both (expr_meant wired) (expr_meant value)) (Not (memory (AtEdge id)))) }
{
    let set = binary(alloc, Op::And, wired, value)?;
    and_not(alloc, set, edge_value(alloc, id)?)
}

/// What a contact lets through where its variable falls.
fn fallen(alloc: Global, id: u64, wired: Expr, value: Expr) -> Result<Expr, NoMemory>
    requires { IsTrue (is_identifier (memory_name (AtEdge id))) }
    ensures { IfOk result (λ e. expr_meant e ≡ both (both (expr_meant wired) (Not (expr_meant value))) (memory (AtEdge id))) }
{
    let released = and_not(alloc, wired, value)?;
    binary(alloc, Op::And, released, edge_value(alloc, id)?)
}

/// What a contact lets through, by its number, its link and its variable.
pub fn contact_value(
    alloc: Global,
    id: u64,
    how: Contacting,
    operand: &Operand,
    link: &Link,
) -> Result<Expr, NoMemory>
    requires { ExpressionInRange (contact_text (shown_contacting how) (link_text (shown_link link.now)) (operand_text (shown_operand operand.now)) (memory (AtEdge id))) }
    ensures { IfOk result (λ e. expr_meant e
        ≡ contact_text (shown_contacting how) (link_text (shown_link link.now)) (operand_text (shown_operand operand.now)) (memory (AtEdge id))) }
{
    let wired = link_value(alloc, link)?;
    let value = operand_value(alloc, operand)?;
    match how {
        Contacting::Open => binary(alloc, Op::And, wired, value),
        Contacting::Closed => and_not(alloc, wired, value),
        Contacting::Rising => risen(alloc, id, wired, value),
        Contacting::Falling => fallen(alloc, id, wired, value),
    }
}

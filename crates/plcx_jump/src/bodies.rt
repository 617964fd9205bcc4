//! The body of a POU: its networks one after another, or a loop over them.
ghost use Rattle.std.specs.Prelude.{◌≡◌, ◌∷◌, ◌++◌, ◌+◌, ◌<◌, ◌^◌, [], IfOk, OnOk, map, length};
ghost use Rattle.std.specs.List.{flat_map};
ghost use Rattle.plcx_types.specs.Lists.{Each};
ghost use Rattle.plcx_meaning.specs.Tree.{Assign, statements, arms};
ghost use Rattle.plcx_meaning.specs.Diagram.{has_jump};
ghost use Rattle.plcx_meaning.specs.Templates.{counter_name, dint, elements_text, choice_text, choices_text, turn_text, arms_text, straight_text, jumping_text, body_text};
ghost use Rattle.plcx_drawn.specs.Shown.{shown_element, shown_network, shown_networks};
ghost use Rattle.plcx_st.specs.InRange.{StatementInRange, StatementsInRange, ArmsInRange};
ghost use Rattle.plcx_st.specs.Meant.{expr_meant, stmt_meant};
ghost use Rattle.plcx_st.specs.Printer.{arm_meant};
ghost use Rattle.plcx_targets.specs.Labels.{network_of};

use plcx_drawn::{Drawing, Element};
use plcx_lower::{counter_word, lower_network, lower_networks, number, wire_word};
use plcx_st::{Arm, Expr, Op, Stmt};
use plcx_targets::{Targets, element_at};
use plcx_types::{NoMemory, Span, Ty};
use sqlite_items::{Boxed, Items};
use std::alloc::Global;

/// A number of the counter.
fn dint(value: usize) -> Expr
    ensures { expr_meant result ≡ dint value }
{
    number(Ty::Dint, value as i128)
}

fn counter(alloc: Global) -> Result<Expr, NoMemory>
    ensures { IfOk result (λ e. expr_meant e ≡ Name counter_name) }
{
    Ok(Expr::Name(counter_word(alloc)?))
}

/// The network of that number follows.
fn set_counter(alloc: Global, number: usize) -> Result<Stmt, NoMemory>
    ensures { IfOk result (λ s. stmt_meant s ≡ Assign counter_name (dint number)) }
{
    Ok(Stmt::Assign {
        target: counter_word(alloc)?,
        value: dint(number),
    })
}

/// The network of that number follows where the condition of a jump or a return is TRUE.
fn choice(alloc: Global, id: u64, number: usize) -> Result<Stmt, NoMemory>
    requires { IsTrue (is_identifier (wire_name id [])) }
    ensures { IfOk result (λ s. stmt_meant s ≡ If (wire id []) (statements (Assign counter_name (dint number) ∷ []))) }
{
    let mut body = Items::new(alloc);
    body.push(set_counter(alloc, number)?)?;
    Ok(Stmt::If {
        cond: Expr::Name(wire_word(alloc, id, b"")?),
        body,
    })
}

ghost use Rattle.plcx_meaning.specs.Tree.{If, While, Case, Binary, Less, Name};
ghost use Rattle.plcx_meaning.specs.Templates.{wire, wire_name};
ghost use Rattle.std.specs.Prelude.{IsTrue};
ghost use Rattle.plcx_types.specs.Name.{is_identifier};

/// The counter gets where a jump or a return leads, if the element is one.
fn put_choice(
    alloc: Global,
    targets: &Targets,
    body: &mut Vec<Stmt>,
    element: &Element,
) -> Result<(), NoMemory>
    requires { Each StatementInRange (choice_text targets.now (shown_element element.now)) }
    ensures { OnOk result (map stmt_meant body.new.items ≡ map stmt_meant body.old.items ++ choice_text targets.now (shown_element element.now)) }
{
    if let Some(number) = targets.leads_to(alloc, &element.kind)? {
        body.push(choice(alloc, element.id, number)?)?;
    }
    Ok(())
}

/// The choices of a network, from the last to the first, so that the first decides.
fn put_choices(
    alloc: Global,
    targets: &Targets,
    body: &mut Vec<Stmt>,
    elements: &[Element],
    places: &[u32],
) -> Result<(), NoMemory>
    requires { Each StatementInRange (choices_text targets.now (network_of elements.now places.now)) }
    ensures { OnOk result (map stmt_meant body.new.items ≡ map stmt_meant body.old.items ++ choices_text targets.now (network_of elements.now places.now)) }
{
    for i in (0..places.len()).rev() {
        if let Some(element) = element_at(elements, places[i]) {
            put_choice(alloc, targets, body, element)?;
        }
    }
    Ok(())
}

/// A network in a loop: its elements, and then the number of the network that follows.
fn turn(
    alloc: Global,
    drawing: &Drawing,
    targets: &Targets,
    next: usize,
    places: &[u32],
) -> Result<Vec<Stmt>, NoMemory>
    requires { Each StatementInRange (turn_text targets.now next (network_of drawing.now.elements places.now)) }
    ensures { IfOk result (λ body. map stmt_meant body.items ≡ turn_text targets.now next (network_of drawing.now.elements places.now)) }
{
    let mut body = lower_network(alloc, drawing, places)?;
    body.push(set_counter(alloc, next)?)?;
    put_choices(alloc, targets, &mut body, drawing.elements(), places)?;
    Ok(body)
}

/// The arm of a network.
fn arm(
    alloc: Global,
    drawing: &Drawing,
    targets: &Targets,
    number: usize,
    places: &[u32],
) -> Result<Arm, NoMemory>
    requires range { Each StatementInRange (turn_text targets.now (number + 1) (network_of drawing.now.elements places.now)) }
    requires few { number < 2 ^ 31 }
    ensures { IfOk result (λ arm. arm_meant arm ≡ (number, turn_text targets.now (number + 1) (network_of drawing.now.elements places.now))) }
{
    let body = turn(alloc, drawing, targets, number + 1, places)?;
    Ok(Arm {
        label: number as u32,
        span: Span { start: 0, end: 0 },
        body: Items::from_vec(body),
    })
}

/// An arm for each network.
fn arms(alloc: Global, drawing: &Drawing, targets: &Targets) -> Result<Vec<Arm>, NoMemory>
    requires own { targets.now ≡ shown_networks drawing.now }
    requires range { ArmsInRange (arms (arms_text (shown_networks drawing.now) 0 (shown_networks drawing.now))) }
    requires few { length drawing.now.networks.now < 2 ^ 31 }
    ensures { IfOk result (λ arms. map arm_meant arms.items ≡ arms_text (shown_networks drawing.now) 0 (shown_networks drawing.now)) }
{
    let mut arms = Vec::new(alloc);
    for (number, network) in drawing.networks.iter().enumerate() {
        arms.push(arm(alloc, drawing, targets, number, network.as_slice())?)?;
    }
    Ok(arms)
}

/// While the counter is less than the number of networks.
fn condition(alloc: Global, end: usize) -> Result<Expr, NoMemory>
    ensures { IfOk result (λ e. expr_meant e ≡ Binary Less (Name counter_name) (dint end)) }
{
    Ok(Expr::Binary {
        op: Op::Less,
        left: Boxed::new(alloc, counter(alloc)?)?,
        right: Boxed::new(alloc, dint(end))?,
    })
}

/// The arm of the counter's number is done.
fn selection(alloc: Global, each: Vec<Arm>) -> Result<Stmt, NoMemory>
    ensures { IfOk result (λ s. stmt_meant s ≡ Case (Name counter_name) (arms (map arm_meant each.items))) }
{
    Ok(Stmt::Case {
        value: counter(alloc)?,
        arms: Items::from_vec(each),
    })
}

/// A statement is done while the counter is less than the number of networks.
fn repetition(alloc: Global, end: usize, stmt: Stmt) -> Result<Stmt, NoMemory>
    ensures { IfOk result (λ s. stmt_meant s ≡ While (Binary Less (Name counter_name) (dint end)) (statements (stmt_meant stmt ∷ []))) }
{
    let mut body = Items::new(alloc);
    body.push(stmt)?;
    Ok(Stmt::While {
        cond: condition(alloc, end)?,
        body,
    })
}

/// The networks in a loop over the counter.
fn jumping(alloc: Global, drawing: &Drawing) -> Result<Vec<Stmt>, NoMemory>
    requires range { ArmsInRange (arms (arms_text (shown_networks drawing.now) 0 (shown_networks drawing.now))) }
    requires few { length drawing.now.networks.now < 2 ^ 31 }
    ensures { IfOk result (λ body. map stmt_meant body.items ≡ jumping_text (shown_networks drawing.now)) }
{
    let targets = Targets::of(alloc, drawing)?;
    let selection = selection(alloc, arms(alloc, drawing, &targets)?)?;
    let mut body = Vec::new(alloc);
    body.push(set_counter(alloc, 0)?)?;
    body.push(repetition(alloc, targets.end(), selection)?)?;
    Ok(body)
}

/// The statements of a body, which is a loop where it jumps.
pub fn body(alloc: Global, drawing: &Drawing, jumps: bool) -> Result<Vec<Stmt>, NoMemory>
    requires jumps { jumps ≡ has_jump (shown_networks drawing.now) }
    requires range { StatementsInRange (statements (body_text (shown_networks drawing.now))) }
    requires few { length drawing.now.networks.now < 2 ^ 31 }
    ensures { IfOk result (λ body. map stmt_meant body.items ≡ body_text (shown_networks drawing.now)) }
{
    if jumps {
        jumping(alloc, drawing)
    } else {
        lower_networks(alloc, drawing)
    }
}

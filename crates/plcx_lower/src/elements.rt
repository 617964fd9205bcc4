//! The statements of an element.
ghost use Rattle.std.specs.Prelude.{◌≡◌, [], ◌∷◌, ◌++◌, map, codes, IfOk, OnOk};
ghost use Rattle.plcx_types.specs.Lists.{Each};
ghost use Rattle.plcx_meaning.specs.Diagram.{Contact, Coil, Function, Call, eno_negated};
ghost use Rattle.plcx_meaning.specs.Tree.{Assign};
ghost use Rattle.plcx_meaning.specs.Templates.{wire_name, link_text, eno_text, out_default, input_text, in_out_text, output_text, kind_text, feed_text, element_text};
ghost use Rattle.plcx_st.specs.Meant.{arg_meant};
ghost use Rattle.plcx_st.specs.InRange.{ArgumentInRange, StatementInRange};
ghost use Rattle.plcx_drawn.specs.Shown.{shown_link, shown_operand, shown_contacting, shown_coiling, shown_enable};
ghost use Rattle.plcx_drawn.specs.Shown.{shown_input_pin, shown_in_out_pin, shown_output_pin, shown_kind, shown_port, shown_element};
ghost use Rattle.plcx_lower.specs.Adds.{Adds};

use crate::body::{Body, assignment, storing};
use crate::expressions::{
    binary, contact_value, edge_value, link_value, number, operand_value, truth, turned, turned_if,
    wire_value,
};
use crate::functions::function_value;
use crate::words::{edge_word, fed_word, wire_word, word_named};
use plcx_drawn::{
    Coiling, Contacting, Element, ElementKind, Enable, InOutPin, InputPin, Link, Operand,
    OutputPin, Port, out_type,
};
use plcx_funcs::Func;
use plcx_st::{Arg, Expr, Op, Stmt};
use plcx_types::{NoMemory, Ty};
use sqlite_items::Items;
use std::alloc::Global;

/// The argument of a connected input.
fn input_argument(alloc: Global, input: &InputPin) -> Result<Arg, NoMemory>
    requires { ArgumentInRange (input_text (shown_input_pin input.now)) }
    ensures { IfOk result (λ arg. arg_meant arg ≡ input_text (shown_input_pin input.now)) }
{
    Ok(Arg {
        formal: word_named(alloc, input.name)?,
        value: link_value(alloc, &input.link)?,
    })
}

/// The argument of an in-out.
fn in_out_argument(alloc: Global, in_out: &InOutPin) -> Result<Arg, NoMemory>
    requires { ArgumentInRange (in_out_text (shown_in_out_pin in_out.now)) }
    ensures { IfOk result (λ arg. arg_meant arg ≡ in_out_text (shown_in_out_pin in_out.now)) }
{
    Ok(Arg {
        formal: word_named(alloc, in_out.name)?,
        value: Expr::Name(word_named(alloc, in_out.variable)?),
    })
}

/// Puts the arguments of connected inputs at the end.
fn put_inputs(alloc: Global, args: &mut Vec<Arg>, inputs: &[InputPin]) -> Result<(), NoMemory>
    requires { Each ArgumentInRange (map input_text (map shown_input_pin inputs.now)) }
    ensures { OnOk result (map arg_meant args.new.items ≡ map arg_meant args.old.items ++ map input_text (map shown_input_pin inputs.now)) }
{
    for input in inputs {
        args.push(input_argument(alloc, input)?)?;
    }
    Ok(())
}

/// Puts the arguments of in-outs at the end.
fn put_in_outs(alloc: Global, args: &mut Vec<Arg>, in_outs: &[InOutPin]) -> Result<(), NoMemory>
    requires { Each ArgumentInRange (map in_out_text (map shown_in_out_pin in_outs.now)) }
    ensures { OnOk result (map arg_meant args.new.items ≡ map arg_meant args.old.items ++ map in_out_text (map shown_in_out_pin in_outs.now)) }
{
    for in_out in in_outs {
        args.push(in_out_argument(alloc, in_out)?)?;
    }
    Ok(())
}

/// The call of an instance: its connected inputs, and then its in-outs.
fn call(
    alloc: Global,
    instance: &[u8],
    inputs: &[InputPin],
    in_outs: &[InOutPin],
) -> Result<Stmt, NoMemory>
    requires { StatementInRange (tree.Call instance.now (map input_text (map shown_input_pin inputs.now) ++ map in_out_text (map shown_in_out_pin in_outs.now))) }
    ensures { IfOk result (λ s. stmt_meant s
        ≡ tree.Call instance.now (map input_text (map shown_input_pin inputs.now) ++ map in_out_text (map shown_in_out_pin in_outs.now))) }
{
    let mut args = Vec::with_capacity(alloc, inputs.len())?;
    put_inputs(alloc, &mut args, inputs)?;
    put_in_outs(alloc, &mut args, in_outs)?;
    Ok(Stmt::Call {
        instance: word_named(alloc, instance)?,
        args: Items::from_vec(args),
    })
}

ghost use Rattle.plcx_meaning.specs.Tree as tree;
ghost use Rattle.plcx_st.specs.Meant.{stmt_meant};

/// Whether ENO is listed, and negated there.
fn eno_negated(enable: &Enable) -> bool
    ensures { result ≡ eno_negated (shown_enable enable.now) }
{
    match enable.eno {
        Some(negated) => negated,
        None => false,
    }
}

impl Body {
    /// A contact's wire, and what it remembers at an edge.
    fn put_contact(
        &mut self,
        id: u64,
        how: Contacting,
        operand: &Operand,
        link: &Link,
    ) -> Result<(), NoMemory>
        requires { Each StatementInRange (kind_text (Contact (shown_contacting how) (shown_operand operand.now) (shown_link link.now)) id) }
        ensures { OnOk result (Adds self.old self.new (kind_text (Contact (shown_contacting how) (shown_operand operand.now) (shown_link link.now)) id)) }
    {
        let value = contact_value(self.alloc, id, how, operand, link)?;
        self.put_wire(id, b"", value)?;
        match how {
            Contacting::Open | Contacting::Closed => Ok(()),
            Contacting::Rising | Contacting::Falling => {
                let memory = edge_word(self.alloc, id)?;
                let now = operand_value(self.alloc, operand)?;
                self.put(assignment(memory, now))
            }
        }
    }

    /// What a coil stores at an edge, where its wire and what it remembers tell one, and what it remembers.
    fn put_edge(
        &mut self,
        id: u64,
        variable: &[u8],
        now: Expr,
        before: Expr,
    ) -> Result<(), NoMemory>
        requires variable { IsTrue (is_identifier variable.now) }
        requires memory { IsTrue (is_identifier (memory_name (AtEdge id))) }
        requires wire { IsTrue (is_identifier (wire_name id [])) }
        ensures { OnOk result (Adds self.old self.new
            (Assign variable.now (both (expr_meant now) (expr_meant before)) ∷ Assign (memory_name (AtEdge id)) (wire id []) ∷ [])) }
    {
        let target = word_named(self.alloc, variable)?;
        let edge = binary(self.alloc, Op::And, now, before)?;
        self.put(assignment(target, edge))?;
        let memory = edge_word(self.alloc, id)?;
        let wire = wire_value(self.alloc, id, b"")?;
        self.put(assignment(memory, wire))
    }

    /// What a coil stores where its wire rises, and what it remembers.
    fn put_rising(&mut self, id: u64, variable: &[u8], wired: Expr) -> Result<(), NoMemory>
        requires variable { IsTrue (is_identifier variable.now) }
        requires memory { IsTrue (is_identifier (memory_name (AtEdge id))) }
        requires wire { IsTrue (is_identifier (wire_name id [])) }
        ensures { OnOk result (Adds self.old self.new
            (Assign variable.now (both (expr_meant wired) (Not (memory (AtEdge id)))) ∷ Assign (memory_name (AtEdge id)) (wire id []) ∷ [])) }
    {
        let memory = edge_value(self.alloc, id)?;
        let before = turned(self.alloc, memory)?;
        self.put_edge(id, variable, wired, before)
    }

    /// What a coil stores where its wire falls, and what it remembers.
    fn put_falling(&mut self, id: u64, variable: &[u8], wired: Expr) -> Result<(), NoMemory>
        requires variable { IsTrue (is_identifier variable.now) }
        requires memory { IsTrue (is_identifier (memory_name (AtEdge id))) }
        requires wire { IsTrue (is_identifier (wire_name id [])) }
        ensures { OnOk result (Adds self.old self.new
            (Assign variable.now (both (Not (expr_meant wired)) (memory (AtEdge id))) ∷ Assign (memory_name (AtEdge id)) (wire id []) ∷ [])) }
    {
        let memory = edge_value(self.alloc, id)?;
        let now = turned(self.alloc, wired)?;
        self.put_edge(id, variable, now, memory)
    }

    /// What a coil stores, and at an edge remembers, by its wire.
    fn put_stored(&mut self, id: u64, how: Coiling, variable: &[u8]) -> Result<(), NoMemory>
        requires { Each StatementInRange (coil_text (shown_coiling how) variable.now (AtEdge id) (wire id [])) }
        ensures { OnOk result (Adds self.old self.new (coil_text (shown_coiling how) variable.now (AtEdge id) (wire id []))) }
    {
        let wire = wire_value(self.alloc, id, b"")?;
        match how {
            Coiling::By(how) => {
                let stmt = storing(self.alloc, how, variable, wire)?;
                self.put(stmt)
            }
            Coiling::Rising => self.put_rising(id, variable, wire),
            Coiling::Falling => self.put_falling(id, variable, wire),
        }
    }

    /// A coil's wire, and then what it stores.
    fn put_coil(
        &mut self,
        id: u64,
        how: Coiling,
        variable: &[u8],
        link: &Link,
    ) -> Result<(), NoMemory>
        requires { Each StatementInRange (kind_text (Coil (shown_coiling how) variable.now (shown_link link.now)) id) }
        ensures { OnOk result (Adds self.old self.new (kind_text (Coil (shown_coiling how) variable.now (shown_link link.now)) id)) }
    {
        self.put_link(id, link)?;
        self.put_stored(id, how, variable)
    }

    /// A wire gets what its link gives.
    fn put_link(&mut self, id: u64, link: &Link) -> Result<(), NoMemory>
        requires wire { IsTrue (is_identifier (wire_name id [])) }
        requires link { ExpressionInRange (link_text (shown_link link.now)) }
        ensures { OnOk result (Adds self.old self.new (Assign (wire_name id []) (link_text (shown_link link.now)) ∷ [])) }
    {
        let value = link_value(self.alloc, link)?;
        self.put_wire(id, b"", value)
    }

    /// ENO gets EN's link, or TRUE, where the block has it.
    fn put_eno(&mut self, id: u64, enable: &Enable) -> Result<(), NoMemory>
        requires { Each StatementInRange (eno_text id (shown_enable enable.now)) }
        ensures { OnOk result (Adds self.old self.new (eno_text id (shown_enable enable.now))) }
    {
        match &enable.en {
            Some(link) => {
                let value = link_value(self.alloc, link)?;
                self.put_wire(id, b"ENO", value)
            }
            None => match enable.eno {
                Some(_) => self.put_wire(id, b"ENO", truth(true)),
                None => Ok(()),
            },
        }
    }

    /// OUT begins with its default where EN may be FALSE.
    fn put_default(&mut self, id: u64, enable: &Enable, ty: Ty) -> Result<(), NoMemory>
        requires { Each StatementInRange (out_default id (shown_enable enable.now) ty) }
        ensures { OnOk result (Adds self.old self.new (out_default id (shown_enable enable.now) ty)) }
    {
        match &enable.en {
            Some(_) => self.put_wire(id, b"OUT", number(ty, 0)),
            None => Ok(()),
        }
    }

    /// OUT of a function gets its result, and behind it negated outputs are turned.
    fn put_function(
        &mut self,
        id: u64,
        func: Func,
        ty: Ty,
        enable: &Enable,
        inputs: &[Link],
        negated: bool,
    ) -> Result<(), NoMemory>
        requires { Each StatementInRange (kind_text (Function func ty (shown_enable enable.now) (map shown_link inputs.now) negated) id) }
        ensures { OnOk result (Adds self.old self.new (kind_text (Function func ty (shown_enable enable.now) (map shown_link inputs.now) negated) id)) }
    {
        self.put_eno(id, enable)?;
        self.put_default(id, enable, out_type(func, ty))?;
        let value = function_value(self.alloc, func, inputs)?;
        let out = assignment(wire_word(self.alloc, id, b"OUT")?, value);
        self.put_enabled(id, enable, out)?;
        self.put_turned(eno_negated(enable), id, b"ENO")?;
        self.put_turned(negated, id, b"OUT")
    }

    /// The wire of a listed output gets what the instance stores.
    fn put_output(&mut self, id: u64, instance: &[u8], output: &OutputPin) -> Result<(), NoMemory>
        requires { StatementInRange (output_text id instance.now (shown_output_pin output.now)) }
        ensures { OnOk result (Adds self.old self.new (output_text id instance.now (shown_output_pin output.now) ∷ [])) }
    {
        let member = Expr::Member {
            instance: word_named(self.alloc, instance)?,
            output: word_named(self.alloc, output.name)?,
        };
        let value = turned_if(self.alloc, output.negated, member)?;
        self.put_wire(id, output.name, value)
    }

    /// The wires of the listed outputs.
    fn put_outputs(
        &mut self,
        id: u64,
        instance: &[u8],
        outputs: &[OutputPin],
    ) -> Result<(), NoMemory>
        requires { Each StatementInRange (map (output_text id instance.now) (map shown_output_pin outputs.now)) }
        ensures { OnOk result (Adds self.old self.new (map (output_text id instance.now) (map shown_output_pin outputs.now))) }
    {
        for output in outputs {
            self.put_output(id, instance, output)?;
        }
        Ok(())
    }

    /// The call of an instance, and behind it the wires of its listed outputs.
    fn put_call(
        &mut self,
        id: u64,
        instance: &[u8],
        enable: &Enable,
        inputs: &[InputPin],
        in_outs: &[InOutPin],
        outputs: &[OutputPin],
    ) -> Result<(), NoMemory>
        requires { Each StatementInRange (kind_text (Call instance.now (shown_enable enable.now)
            (map shown_input_pin inputs.now) (map shown_in_out_pin in_outs.now) (map shown_output_pin outputs.now)) id) }
        ensures { OnOk result (Adds self.old self.new (kind_text (Call instance.now (shown_enable enable.now)
            (map shown_input_pin inputs.now) (map shown_in_out_pin in_outs.now) (map shown_output_pin outputs.now)) id)) }
    {
        self.put_eno(id, enable)?;
        let call = call(self.alloc, instance, inputs, in_outs)?;
        self.put_enabled(id, enable, call)?;
        self.put_outputs(id, instance, outputs)?;
        self.put_turned(eno_negated(enable), id, b"ENO")
    }

    /// What an element does.
    fn put_kind(&mut self, id: u64, kind: &ElementKind) -> Result<(), NoMemory>
        requires { Each StatementInRange (kind_text (shown_kind kind.now) id) }
        ensures { OnOk result (Adds self.old self.new (kind_text (shown_kind kind.now) id)) }
    {
        match kind {
            ElementKind::Still | ElementKind::Label(_) => Ok(()),
            ElementKind::In {
                ty: _,
                negated,
                operand,
            } => {
                let value = operand_value(self.alloc, operand)?;
                let value = turned_if(self.alloc, *negated, value)?;
                self.put_wire(id, b"", value)
            }
            ElementKind::Out {
                how,
                variable,
                link,
            } => {
                let value = link_value(self.alloc, link)?;
                let stmt = storing(self.alloc, *how, variable, value)?;
                self.put(stmt)
            }
            ElementKind::Contact { how, operand, link } => {
                self.put_contact(id, *how, operand, link)
            }
            ElementKind::Coil {
                how,
                variable,
                link,
            } => self.put_coil(id, *how, variable, link),
            ElementKind::Pass(link)
            | ElementKind::Jump { label: _, link }
            | ElementKind::Return(link) => self.put_link(id, link),
            ElementKind::Function {
                func,
                ty,
                enable,
                inputs,
                negated,
            } => self.put_function(id, *func, *ty, enable, inputs.as_slice(), *negated),
            ElementKind::Call {
                instance,
                enable,
                inputs,
                in_outs,
                outputs,
            } => self.put_call(
                id,
                instance,
                enable,
                inputs.as_slice(),
                in_outs.as_slice(),
                outputs.as_slice(),
            ),
        }
    }

    /// The variable of an output that feeds back gets its wire.
    fn put_port(&mut self, id: u64, port: &Port) -> Result<(), NoMemory>
        requires { StatementInRange (feed_text id (shown_port port.now)) }
        ensures { OnOk result (Adds self.old self.new (feed_text id (shown_port port.now) ∷ [])) }
    {
        let memory = fed_word(self.alloc, id, port.pin)?;
        let wire = wire_value(self.alloc, id, port.pin)?;
        self.put(assignment(memory, wire))
    }

    /// What feeds back.
    fn put_fed(&mut self, id: u64, fed: &[Port]) -> Result<(), NoMemory>
        requires { Each StatementInRange (map (feed_text id) (map shown_port fed.now)) }
        ensures { OnOk result (Adds self.old self.new (map (feed_text id) (map shown_port fed.now))) }
    {
        for port in fed {
            self.put_port(id, port)?;
        }
        Ok(())
    }

    /// What an element does, and behind it what feeds back.
    pub fn put_element(&mut self, element: &Element) -> Result<(), NoMemory>
        requires { Each StatementInRange (element_text (shown_element element.now)) }
        ensures { OnOk result (Adds self.old self.new (element_text (shown_element element.now))) }
    {
        self.put_kind(element.id, &element.kind)?;
        self.put_fed(element.id, element.fed.as_slice())
    }
}

ghost use Rattle.plcx_meaning.specs.Base.{AtEdge};
ghost use Rattle.plcx_meaning.specs.Tree.{Not};
ghost use Rattle.plcx_meaning.specs.Templates.{wire, both, coil_text, memory, memory_name};
ghost use Rattle.plcx_st.specs.Meant.{expr_meant};
ghost use Rattle.plcx_st.specs.InRange.{ExpressionInRange};
ghost use Rattle.plcx_types.specs.Name.{is_identifier};
ghost use Rattle.std.specs.Prelude.{IsTrue};

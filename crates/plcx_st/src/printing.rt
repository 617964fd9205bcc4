//! The printed form of a unit, written token by token into one buffer.
ghost use Rattle.std.specs.Prelude.{◌≡◌, [], ◌∷◌, ◌++◌, ◌+◌, IfOk, OnOk, map, codes, replicate};
ghost use Rattle.std.specs.Option.{option_map};
ghost use Rattle.std.specs.List.{flat_map};
ghost use Rattle.plcx_lex.specs.declared.token.TokenKind.TheVariants as kind;
ghost use Rattle.plcx_meaning.specs.Tree as tree;
ghost use Rattle.plcx_st.specs.declared.printing.Last.TheVariants.{Nothing};
ghost use Rattle.plcx_st.specs.Meant.{number_meant, op_meant, expr_meant, arg_meant, stmt_meant, decl_meant, class_meant, mark_meant, block_meant, kind_meant, pou_meant, meant};
ghost use Rattle.plcx_st.specs.Print.{shape, word, sign, name, number, operator_shape, expression_shapes, list_shapes, argument_shapes, arguments_shapes, in_brackets, line, label_line, opening, closing, line_text, statement_lines, statements_lines, arms_lines, address_shapes, initial_shapes, declaration_line, class_word, mark_shapes, block_lines, pou_word, pou_end, pou_lines, unit_lines, printed};
ghost use Rattle.plcx_st.specs.Printer.{Puts, Writes, arm_meant, joins, last_of};

use crate::binding::level;
use crate::tree::{
    Arg, Arm, Decl, Expr, Mark, Number, Op, PouText, Stmt, TextBlock, TextClass, TextKind, Unit,
    Word,
};
use plcx_lex::TokenKind;
use plcx_types::{NoMemory, number_text};
use sqlite_items::Items;
use std::alloc::Global;

/// What the last token of a line is to the one behind it.
#[derive(Clone, Copy, Debug, PartialEq, Eq)]
pub enum Last {
    Nothing,
    Opening,
    Name,
    Digits,
    Other,
}

/// The bytes so far, and how their last line ends.
#[derive(Drop)]
pub struct Printer {
    pub bytes: Vec<u8>,
    pub last: Last,
}

#[tactic(auto, unfolding(crate::specs::Printer::joins))]
fn joins(last: Last, text: &[u8]) -> bool
    ensures { result ≡ joins last text.now }
{
    let is_before = text == b";".as_slice()
        || text == b",".as_slice()
        || text == b")".as_slice()
        || text == b".".as_slice();
    match last {
        Last::Nothing | Last::Opening => true,
        Last::Name => is_before || text == b"(".as_slice(),
        Last::Digits => is_before || text == b":".as_slice(),
        Last::Other => is_before,
    }
}

#[tactic(auto, unfolding(crate::specs::Printer::last_of))]
fn last_of(kind: TokenKind, text: &[u8]) -> Last
    ensures { result ≡ last_of (shape kind text.now) }
{
    if text == b"(".as_slice() || text == b".".as_slice() {
        return Last::Opening;
    }
    match kind {
        TokenKind::Name => Last::Name,
        TokenKind::Digits => Last::Digits,
        _ => Last::Other,
    }
}

fn operator_kind(op: Op) -> TokenKind
    ensures { result ≡ (operator_shape (op_meant op)).kind }
{
    match op {
        Op::Or | Op::Xor | Op::And | Op::Mod => TokenKind::Keyword,
        _ => TokenKind::Sign,
    }
}

fn operator_text(op: Op) -> &'static [u8]
    ensures { result.now ≡ (operator_shape (op_meant op)).text }
{
    match op {
        Op::Or => b"OR",
        Op::Xor => b"XOR",
        Op::And => b"AND",
        Op::Equal => b"=",
        Op::NotEqual => b"<>",
        Op::Less => b"<",
        Op::Greater => b">",
        Op::LessOrEqual => b"<=",
        Op::GreaterOrEqual => b">=",
        Op::Plus => b"+",
        Op::Minus => b"-",
        Op::Times => b"*",
        Op::Divide => b"/",
        Op::Mod => b"MOD",
    }
}

impl Printer {
    #[tactic(auto, unfolding(crate::specs::Printer::text_after, crate::specs::Printer::last_after))]
    fn put(&mut self, kind: TokenKind, text: &[u8]) -> Result<(), NoMemory>
        ensures { OnOk result (Puts self.old self.new (shape kind text.now ∷ [])) }
    {
        if !joins(self.last, text) {
            self.bytes.push(b' ')?;
        }
        self.bytes.extend_from_slice(text)?;
        self.last = last_of(kind, text);
        Ok(())
    }

    fn word(&mut self, text: &[u8]) -> Result<(), NoMemory>
        ensures { OnOk result (Puts self.old self.new (word text.now ∷ [])) }
    {
        self.put(TokenKind::Keyword, text)
    }

    fn sign(&mut self, text: &[u8]) -> Result<(), NoMemory>
        ensures { OnOk result (Puts self.old self.new (sign text.now ∷ [])) }
    {
        self.put(TokenKind::Sign, text)
    }

    fn name(&mut self, w: &Word) -> Result<(), NoMemory>
        ensures { OnOk result (Puts self.old self.new (name w.now.name ∷ [])) }
    {
        self.put(TokenKind::Name, w.name.text())
    }

    fn number(&mut self, alloc: Global, n: &Number) -> Result<(), NoMemory>
        ensures { OnOk result (Puts self.old self.new (number (number_meant n.now) ∷ [])) }
    {
        let text = number_text(alloc, n.ty, n.n)?;
        self.put(TokenKind::Number, text.as_bytes())
    }

    fn operator(&mut self, op: Op) -> Result<(), NoMemory>
        ensures { OnOk result (Puts self.old self.new (operator_shape (op_meant op) ∷ [])) }
    {
        self.put(operator_kind(op), operator_text(op))
    }

    #[cycle(expression)]
    fn expression(&mut self, alloc: Global, x: &Expr, least: u8) -> Result<(), NoMemory>
        ensures { OnOk result (Puts self.old self.new (expression_shapes least (expr_meant x.now))) }
    {
        match x {
            Expr::Number(n) => self.number(alloc, n),
            Expr::Name(w) => self.name(w),
            Expr::Member { instance, output } => {
                self.name(instance)?;
                self.sign(b".")?;
                self.name(output)
            }
            Expr::Call { function, args } => {
                self.name(function)?;
                self.sign(b"(")?;
                self.expressions(alloc, args.as_slice())?;
                self.sign(b")")
            }
            Expr::Not { operand, span: _ } => {
                self.word(b"NOT")?;
                self.expression(alloc, operand.get(), 7)
            }
            Expr::Binary { op, left, right } => {
                if level(*op) < least {
                    self.sign(b"(")?;
                    self.expression(alloc, left.get(), level(*op))?;
                    self.operator(*op)?;
                    self.expression(alloc, right.get(), level(*op) + 1)?;
                    self.sign(b")")
                } else {
                    self.expression(alloc, left.get(), level(*op))?;
                    self.operator(*op)?;
                    self.expression(alloc, right.get(), level(*op) + 1)
                }
            }
        }
    }

    #[cycle(expression)]
    fn expressions(&mut self, alloc: Global, args: &[Expr]) -> Result<(), NoMemory>
        ensures { OnOk result (Puts self.old self.new (list_shapes (tree.expressions (map expr_meant args.now)))) }
    {
        let mut is_first = true;
        for x in args {
            if !is_first {
                self.sign(b",")?;
            }
            is_first = false;
            self.expression(alloc, x, 0)?;
        }
        Ok(())
    }

    fn argument(&mut self, alloc: Global, arg: &Arg) -> Result<(), NoMemory>
        ensures { OnOk result (Puts self.old self.new (argument_shapes (arg_meant arg.now))) }
    {
        self.name(&arg.formal)?;
        self.sign(b":=")?;
        self.expression(alloc, &arg.value, 0)
    }

    fn arguments(&mut self, alloc: Global, args: &[Arg]) -> Result<(), NoMemory>
        ensures { OnOk result (Puts self.old self.new (arguments_shapes (map arg_meant args.now))) }
    {
        let mut is_first = true;
        for arg in args {
            if !is_first {
                self.sign(b",")?;
            }
            is_first = false;
            self.argument(alloc, arg)?;
        }
        Ok(())
    }

    /// Begins a line.
    fn begin(&mut self, indent: usize) -> Result<(), NoMemory>
        ensures bytes { OnOk result (self.new.bytes.items ≡ self.old.bytes.items ++ replicate indent 32) }
        ensures last { OnOk result (self.new.last ≡ Nothing) }
    {
        for _i in 0..indent {
            self.bytes.push(b' ')?;
        }
        self.last = Last::Nothing;
        Ok(())
    }

    /// Ends a line.
    fn end(&mut self) -> Result<(), NoMemory>
        ensures { OnOk result (self.new.bytes.items ≡ self.old.bytes.items ++ 10 ∷ []) }
    {
        self.bytes.push(b'\n')?;
        Ok(())
    }

    fn heading(&mut self, text: &[u8]) -> Result<(), NoMemory>
        ensures { OnOk result (Writes self.old self.new (line 0 (word text.now ∷ []) ∷ [])) }
    {
        self.begin(0)?;
        self.word(text)?;
        self.end()
    }

    fn opening(
        &mut self,
        alloc: Global,
        indent: usize,
        first: &[u8],
        value: &Expr,
        last: &[u8],
    ) -> Result<(), NoMemory>
        ensures { OnOk result (Writes self.old self.new (line indent (opening first.now (expr_meant value.now) last.now) ∷ [])) }
    {
        self.begin(indent)?;
        self.word(first)?;
        self.expression(alloc, value, 0)?;
        self.word(last)?;
        self.end()
    }

    fn closing(&mut self, indent: usize, last: &[u8]) -> Result<(), NoMemory>
        ensures { OnOk result (Writes self.old self.new (line indent (closing last.now) ∷ [])) }
    {
        self.begin(indent)?;
        self.word(last)?;
        self.sign(b";")?;
        self.end()
    }

    fn assignment(
        &mut self,
        alloc: Global,
        indent: usize,
        target: &Word,
        value: &Expr,
    ) -> Result<(), NoMemory>
        ensures { OnOk result (Writes self.old self.new (statement_lines indent (tree.Assign target.now.name (expr_meant value.now)))) }
    {
        self.begin(indent)?;
        self.name(target)?;
        self.sign(b":=")?;
        self.expression(alloc, value, 0)?;
        self.sign(b";")?;
        self.end()
    }

    fn call(
        &mut self,
        alloc: Global,
        indent: usize,
        instance: &Word,
        args: &[Arg],
    ) -> Result<(), NoMemory>
        ensures { OnOk result (Writes self.old self.new (statement_lines indent (tree.Call instance.now.name (map arg_meant args.now)))) }
    {
        self.begin(indent)?;
        self.name(instance)?;
        self.sign(b"(")?;
        self.arguments(alloc, args)?;
        self.sign(b")")?;
        self.sign(b";")?;
        self.end()
    }

    #[cycle(statement)]
    fn statement(&mut self, alloc: Global, indent: usize, s: &Stmt) -> Result<(), NoMemory>
        ensures { OnOk result (Writes self.old self.new (statement_lines indent (stmt_meant s.now))) }
    {
        match s {
            Stmt::Assign { target, value } => self.assignment(alloc, indent, target, value),
            Stmt::Call { instance, args } => self.call(alloc, indent, instance, args.as_slice()),
            Stmt::If { cond, body } => {
                self.opening(alloc, indent, b"IF", cond, b"THEN")?;
                self.statements(alloc, deeper(indent)?, body.as_slice())?;
                self.closing(indent, b"END_IF")
            }
            Stmt::While { cond, body } => {
                self.opening(alloc, indent, b"WHILE", cond, b"DO")?;
                self.statements(alloc, deeper(indent)?, body.as_slice())?;
                self.closing(indent, b"END_WHILE")
            }
            Stmt::Case { value, arms } => {
                self.opening(alloc, indent, b"CASE", value, b"OF")?;
                self.arms(alloc, deeper(indent)?, arms.as_slice())?;
                self.closing(indent, b"END_CASE")
            }
        }
    }

    #[cycle(statement)]
    fn statements(&mut self, alloc: Global, indent: usize, body: &[Stmt]) -> Result<(), NoMemory>
        ensures { OnOk result (Writes self.old self.new (statements_lines indent (tree.statements (map stmt_meant body.now)))) }
    {
        for s in body {
            self.statement(alloc, indent, s)?;
        }
        Ok(())
    }

    #[cycle(statement)]
    fn arms(&mut self, alloc: Global, indent: usize, arms: &[Arm]) -> Result<(), NoMemory>
        ensures { OnOk result (Writes self.old self.new (arms_lines indent (tree.arms (map arm_meant arms.now)))) }
    {
        for arm in arms {
            self.label(alloc, indent, arm.label)?;
            self.statements(alloc, deeper(indent)?, arm.body.as_slice())?;
        }
        Ok(())
    }

    fn label(&mut self, alloc: Global, indent: usize, label: u32) -> Result<(), NoMemory>
        ensures { OnOk result (Writes self.old self.new (label_line indent label ∷ [])) }
    {
        let text = format!(in alloc; "{label}")?;
        self.begin(indent)?;
        self.put(TokenKind::Digits, text.as_bytes())?;
        self.sign(b":")?;
        self.end()
    }

    fn address(&mut self, address: &Option<Items<u8>>) -> Result<(), NoMemory>
        ensures { OnOk result (Puts self.old self.new (address_shapes address.now)) }
    {
        if let Some(text) = address {
            self.word(b"AT")?;
            self.put(TokenKind::Address, text.as_slice())?;
        }
        Ok(())
    }

    fn initial(&mut self, alloc: Global, initial: &Option<Number>) -> Result<(), NoMemory>
        ensures { OnOk result (Puts self.old self.new (initial_shapes (option_map number_meant initial.now))) }
    {
        if let Some(n) = initial {
            self.sign(b":=")?;
            self.number(alloc, n)?;
        }
        Ok(())
    }

    fn declaration(&mut self, alloc: Global, decl: &Decl) -> Result<(), NoMemory>
        ensures { OnOk result (Writes self.old self.new (declaration_line (decl_meant decl.now) ∷ [])) }
    {
        self.begin(2)?;
        self.name(&decl.name)?;
        self.address(&decl.address)?;
        self.sign(b":")?;
        self.name(&decl.ty)?;
        self.initial(alloc, &decl.initial)?;
        self.sign(b";")?;
        self.end()
    }

    fn mark(&mut self, mark: Mark) -> Result<(), NoMemory>
        ensures { OnOk result (Puts self.old self.new (mark_shapes (mark_meant mark))) }
    {
        match mark {
            Mark::Plain => Ok(()),
            Mark::Constant => self.word(b"CONSTANT"),
            Mark::Retain => self.word(b"RETAIN"),
        }
    }

    fn block_heading(&mut self, class: TextClass, mark: Mark) -> Result<(), NoMemory>
        ensures { OnOk result (Writes self.old self.new (line 0 (word (class_word (class_meant class)) ∷ mark_shapes (mark_meant mark)) ∷ [])) }
    {
        self.begin(0)?;
        self.word(class_word(class))?;
        self.mark(mark)?;
        self.end()
    }

    fn declarations(&mut self, alloc: Global, decls: &[Decl]) -> Result<(), NoMemory>
        ensures { OnOk result (Writes self.old self.new (map declaration_line (map decl_meant decls.now))) }
    {
        for decl in decls {
            self.declaration(alloc, decl)?;
        }
        Ok(())
    }

    fn block(&mut self, alloc: Global, block: &TextBlock) -> Result<(), NoMemory>
        ensures { OnOk result (Writes self.old self.new (block_lines (block_meant block.now))) }
    {
        self.block_heading(block.class, block.mark)?;
        self.declarations(alloc, block.decls.as_slice())?;
        self.heading(b"END_VAR")
    }

    fn blocks(&mut self, alloc: Global, blocks: &[TextBlock]) -> Result<(), NoMemory>
        ensures { OnOk result (Writes self.old self.new (flat_map block_lines (map block_meant blocks.now))) }
    {
        for block in blocks {
            self.block(alloc, block)?;
        }
        Ok(())
    }

    fn pou_heading(&mut self, kind: TextKind, named: &Word) -> Result<(), NoMemory>
        ensures { OnOk result (Writes self.old self.new (line 0 (word (pou_word (kind_meant kind)) ∷ name named.now.name ∷ []) ∷ [])) }
    {
        self.begin(0)?;
        self.word(pou_word(kind))?;
        self.name(named)?;
        self.end()
    }

    fn pou(&mut self, alloc: Global, pou: &PouText) -> Result<(), NoMemory>
        ensures { OnOk result (Writes self.old self.new (pou_lines (pou_meant pou.now))) }
    {
        self.pou_heading(pou.kind, &pou.name)?;
        self.blocks(alloc, pou.blocks.as_slice())?;
        self.statements(alloc, 2, pou.body.as_slice())?;
        self.heading(pou_end(pou.kind))
    }
}

/// Two deeper. What stands so deep that there is no such number has no room for its spaces.
fn deeper(indent: usize) -> Result<usize, NoMemory>
    ensures { IfOk result (λ n. n ≡ indent + 2) }
{
    match indent.checked_add(2) {
        Some(n) => Ok(n),
        None => Err(NoMemory),
    }
}

fn class_word(class: TextClass) -> &'static [u8]
    ensures { result.now ≡ class_word (class_meant class) }
{
    match class {
        TextClass::Var => b"VAR",
        TextClass::Input => b"VAR_INPUT",
        TextClass::Output => b"VAR_OUTPUT",
        TextClass::InOut => b"VAR_IN_OUT",
        TextClass::Temp => b"VAR_TEMP",
    }
}

fn pou_word(kind: TextKind) -> &'static [u8]
    ensures { result.now ≡ pou_word (kind_meant kind) }
{
    match kind {
        TextKind::Program => b"PROGRAM",
        TextKind::FunctionBlock => b"FUNCTION_BLOCK",
    }
}

fn pou_end(kind: TextKind) -> &'static [u8]
    ensures { result.now ≡ pou_end (kind_meant kind) }
{
    match kind {
        TextKind::Program => b"END_PROGRAM",
        TextKind::FunctionBlock => b"END_FUNCTION_BLOCK",
    }
}

/// The bytes of a unit in its printed form.
pub fn print(alloc: Global, unit: &Unit) -> Result<Vec<u8>, NoMemory>
    ensures printed { IfOk result (λ bytes. bytes.items ≡ printed (meant unit.now)) }
{
    let mut printer = Printer {
        bytes: Vec::new(alloc),
        last: Last::Nothing,
    };
    for pou in unit.pous.as_slice() {
        printer.pou(alloc, pou)?;
    }
    Ok(printer.bytes)
}

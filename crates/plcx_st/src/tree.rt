//! The tree of a text. Names, numbers, NOT and labels keep the places of their tokens.
use plcx_types::{Ident, Span, Ty};
use sqlite_items::{Boxed, Items};

/// A name where it stands.
#[derive(Debug, Drop)]
pub struct Word {
    pub name: Ident,
    pub span: Span,
}

/// A literal where it stands. Its number may lie outside its type.
#[derive(Debug, Drop)]
pub struct Number {
    pub ty: Ty,
    pub n: i128,
    pub span: Span,
}

/// What a POU is.
#[derive(Clone, Copy, Debug, PartialEq, Eq)]
pub enum TextKind {
    Program,
    FunctionBlock,
}

/// What a block of declarations declares.
#[derive(Clone, Copy, Debug, PartialEq, Eq)]
pub enum TextClass {
    Var,
    Input,
    Output,
    InOut,
    Temp,
}

/// What stands behind the heading of a block: nothing, CONSTANT or RETAIN.
#[derive(Clone, Copy, Debug, PartialEq, Eq)]
pub enum Mark {
    Plain,
    Constant,
    Retain,
}

/// `name AT address : type := literal;`, the address in upper case.
#[derive(Debug, Drop)]
pub struct Decl {
    pub name: Word,
    pub address: Option<Items<u8>>,
    pub ty: Word,
    pub initial: Option<Number>,
}

/// Declarations between a heading and `END_VAR`.
#[derive(Debug, Drop)]
pub struct TextBlock {
    pub class: TextClass,
    pub mark: Mark,
    pub decls: Items<Decl>,
}

/// A binary operator.
#[derive(Clone, Copy, Debug, PartialEq, Eq)]
pub enum Op {
    Or,
    Xor,
    And,
    Equal,
    NotEqual,
    Less,
    Greater,
    LessOrEqual,
    GreaterOrEqual,
    Plus,
    Minus,
    Times,
    Divide,
    Mod,
}

/// What gives a value. Brackets leave no node.
#[derive(Debug, Drop)]
pub enum Expr {
    Number(Number),
    Name(Word),
    Member {
        instance: Word,
        output: Word,
    },
    Call {
        function: Word,
        args: Items<Expr>,
    },
    /// The span is that of the word NOT.
    Not {
        operand: Boxed<Expr>,
        span: Span,
    },
    Binary {
        op: Op,
        left: Boxed<Expr>,
        right: Boxed<Expr>,
    },
}

/// `formal := value`
#[derive(Debug, Drop)]
pub struct Arg {
    pub formal: Word,
    pub value: Expr,
}

/// A label and its statements. A label above 2147483647 is kept as 2147483648.
#[derive(Debug, Drop)]
#[cycle(statement)]
pub struct Arm {
    pub label: u32,
    pub span: Span,
    pub body: Items<Stmt>,
}

/// What is done.
#[derive(Debug, Drop)]
#[cycle(statement)]
pub enum Stmt {
    Assign { target: Word, value: Expr },
    Call { instance: Word, args: Items<Arg> },
    If { cond: Expr, body: Items<Stmt> },
    While { cond: Expr, body: Items<Stmt> },
    Case { value: Expr, arms: Items<Arm> },
}

/// A POU with its declarations and its statements.
#[derive(Debug, Drop)]
pub struct PouText {
    pub kind: TextKind,
    pub name: Word,
    pub blocks: Items<TextBlock>,
    pub body: Items<Stmt>,
}

/// A whole text.
#[derive(Debug, Drop)]
pub struct Unit {
    pub pous: Items<PouText>,
}

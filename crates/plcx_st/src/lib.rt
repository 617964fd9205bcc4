//! The tree of a structured text, and its grammar.
#![tactic(auto)]

mod binding;
mod law;
mod printing;
mod range;
mod tree;

pub use binding::level;
pub use law::read_again;
pub use plcx_lex::Terminal;
pub use printing::print;
pub use range::texts_are_in_range;
pub use tree::{
    Arg, Arm, Decl, Expr, Mark, Number, Op, PouText, Stmt, TextBlock, TextClass, TextKind, Unit,
    Word,
};

//! What the rules from 20 on mean: definitions over a project, and the laws that hold of them.
//!
//! `Items` are what is judged, an element of a body each; `LinkRules` has a predicate for each rule from 20 to 33 and
//! the verdict over them. They are said in the words of `Declarations` (what a name leads to), `Callees` (what a block
//! calls, and which pins it has), `Helds` (what an expression holds) and `Sources` (the sources of each input pin).
//! `Types` is the closure that says which types the pins, groups and outputs of a body have, `Forms` what it goes by,
//! and `TypingRules` has the rules 34 to 36. `CheckVerdict` joins both verdicts.
#![tactic(auto)]

mod callee;
mod examples;
mod form;
mod laws;
mod rule;

pub use callee::Callee;
pub use examples::{
    examples_of_blocks, examples_of_connections, examples_of_expressions, examples_of_formals,
    examples_of_modifiers, examples_of_names, examples_of_references, examples_of_sources,
};
pub use form::{Form, Gives, Grouping, Out, Outputs, Pin, TypeRule, WireForm};
pub use laws::{
    bodies_have_graphs, link_verdict_computes, no_element_breaks_a_rule, no_input_is_missing,
    one_check_verdict, sources_are_outputs,
};
pub use rule::LinkRule;

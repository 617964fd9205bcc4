//! Worked examples of the rules from 34 to 36: the verdict on a project by the rules from 20 on, and the types of pins.
#![tactic(auto)]

mod examples;

pub use examples::{
    examples_of_disagreements, examples_of_negations, examples_of_ranges, examples_of_types,
};

//! What diagrams and texts mean, and the text of a diagram: definitions, and the laws that join them.
#![tactic(auto)]

mod examples;
mod law;
mod ready;
mod words;

pub use examples::{
    examples_of_blocks, examples_of_feedback, examples_of_in_outs, examples_of_loops,
    examples_of_pins, examples_of_rungs, examples_of_starts, examples_of_watches,
    examples_that_fit,
};
pub use law::{
    distinct_leaves, halting, hearing, loops, outside_leaves, same_behavior, spelled_leaves,
    times_of_scans, turns_never_grow,
};
pub use ready::{never_stuck, readiness_of_texts, texts_are_ready};
pub use words::listed_words;

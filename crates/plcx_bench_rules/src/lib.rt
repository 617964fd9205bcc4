//! The project that a bench measures breaks no rule on references, pins, names and types.
//!
//! `bench_breaks_no_rule` says so of the definitions alone, and `checked_bench` checks the project, which only want of
//! memory can hinder.
#![tactic(auto)]

mod checked;
mod law;

pub use checked::checked_bench;
pub use law::bench_breaks_no_rule;

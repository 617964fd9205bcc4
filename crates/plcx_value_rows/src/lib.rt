//! Tests of what needs no private name of values, functions and standard blocks.
#![tactic(auto)]

#[cfg(test)]
mod blocks;
#[cfg(test)]
mod functions;
#[cfg(test)]
mod values;

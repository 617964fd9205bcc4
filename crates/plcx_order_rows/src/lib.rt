//! Tests of plcx_order: rows, rings, and some hundred graphs against a plain slow program of each definition.
#![tactic(auto)]

pub mod build;
#[cfg(test)]
mod plain;
#[cfg(test)]
mod tests;

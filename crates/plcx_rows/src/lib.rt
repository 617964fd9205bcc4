//! Tests over several crates, of what no call of the program shows: trees, and the whole way from words and files in
//! memory to what both sinks got, where a desk or a sink fails, or someone listens. The calls themselves have their rows
//! in examples/rows.
#![tactic(auto)]

#[cfg(test)]
mod benches;
#[cfg(test)]
mod calls;
#[cfg(test)]
mod faults;
#[cfg(test)]
mod files;
#[cfg(test)]
mod listening;
#[cfg(test)]
mod trees;

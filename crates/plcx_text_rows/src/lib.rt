//! Tests of texts, of what no call of the program shows: their tokens, the units that they are, and their printed form. The
//! places where texts are refused have their rows in examples/rows.
#![tactic(auto)]

#[cfg(test)]
mod cuts;
#[cfg(test)]
mod printed;
#[cfg(test)]
mod units;

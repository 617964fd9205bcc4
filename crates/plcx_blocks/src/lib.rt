//! Standard blocks, computed where their leaves stand among those of a program.
#![tactic(auto)]

mod blocks;

pub use blocks::{call, flag_at, flag_value, int_value, time_value};

//! The exchange file of the project that `bench N` measures, and the project that is read from it.
//!
//! `bench_bytes` says which file that is, and `bench_root` for which tree its bytes stand. That tree breaks no rule on
//! its form or on what it declares, so `bench_project` gives the project, whatever N from 1 to 1000 is.
#![tactic(auto)]

mod reading;
mod spelling;

pub use reading::bench_project;
pub use spelling::bench_file;

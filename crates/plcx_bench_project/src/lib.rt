//! The project that `bench N` measures: a ring of N additions, each of which gives its sum to the next one's variable.
//!
//! `IsBench` says which project that is, whatever the spelling of its file.
#![tactic(auto)]

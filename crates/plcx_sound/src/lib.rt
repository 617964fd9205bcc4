//! What a file that breaks none of the rules 4 to 16 stands for: a sound project.
#![tactic(auto)]

mod laws;

pub use laws::sound_project;

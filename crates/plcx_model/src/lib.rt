//! A project as an exchange file has it, and what is found out about it before it runs.
//!
//! The types of a project, of its links, types and plan, and of a refusal. `IsFirst` and `Verdict` say which of some
//! rules is broken first and where, whatever the rules are about; `Sound` says what the checks from rule 20 on may
//! presume of a project.
//!
//! `Wires` shows a body as a graph: its elements with their keys, and its connections, one look at a time. The specs
//! say which elements make a network, which connections are feedback, and what the order of a network is.
#![tactic(auto)]

mod body;
mod broken;
mod key;
mod numbering;
mod plan;
mod project;
mod readers;
mod source;
mod steps;
mod wires;

pub use body::{Body, BodyElement, Connection, Edge, Kind, Mods, PinIn, PinOut, Storage};
pub use broken::{Broken, Place, Rule};
pub use key::Key;
pub use plan::{BodyPlan, Links, Plan, Types};
pub use project::{ListClass, Pou, PouKind, Project, VarList, VarTy, Variable};
pub use source::{Source, Wire};
pub use steps::Steps;
pub use wires::Wires;

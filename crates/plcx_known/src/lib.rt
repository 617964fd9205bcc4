//! What the names of a unit lead to, each looked up in a table: POUs, types, variables and the parts of instances.
//!
//! Each look-up equals the definition of plcx_conditions that it serves. A doubled name stands for its first declaration.
#![tactic(auto)]

mod chains;
mod names;
mod owner;
mod pous;
mod scope;
mod seen;
mod sizes;
mod types;

pub use chains::Chains;
pub use names::Names;
pub use owner::{Own, Owner};
pub use pous::Pous;
pub use scope::{Scope, own_part};
pub use seen::Seen;
pub use types::VarType;

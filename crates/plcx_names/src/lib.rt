//! Names of a project, each looked up in a table: what a name leads to in a POU, what a block's `typeName` is, which
//! pins it has, what an expression holds, and where a localId, a connector or a label stands in a body.
//!
//! Each look-up equals the definition of plcx_rules that it serves.
#![tactic(auto)]

mod formals;
mod helds;
mod listed;
mod owner;
mod pins;
mod places;
mod scope;
mod tables;
mod texts;
mod variables;

pub use formals::{Formal, function_input_name};
pub use helds::{Held, Holding, NOTHING, Named, text_held, text_holding, text_named};
pub use listed::{
    input_count, is_connected, is_enable, is_eno, is_function, output_name, result_count,
};
pub use owner::Owner;
pub use pins::{OwnPin, standard_pin};
pub use places::Places;
pub use scope::{Scope, narrow};
pub use tables::with_name;
pub use texts::{in_lower_case, same_name, trimmed};
pub use variables::{Declared, OwnVariable};

//! What functions give for values of these types.
//!
//! Each function equals the definition of plcx_meaning that has its name.
#![tactic(auto)]

mod functions;

pub use functions::{
    call_type, can_have, function_of, group_index, is_operator, known_result, result_type,
};

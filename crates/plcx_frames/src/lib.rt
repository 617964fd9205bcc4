//! What a side takes for its scans, and what it does around them: a frame of wires and in-outs, a state, inputs, and how
//! a scan came out.
#![tactic(auto)]

mod preparing;

pub use preparing::{Frame, frame_of, outcome_of, put_inputs, state_of};

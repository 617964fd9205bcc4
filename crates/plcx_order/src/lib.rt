//! Networks, feedback and order of a body, which is seen as `Wires`: each proved equal to its definition.
//!
//! `networks` finds the classes of linked elements by a walk over neighbours, `feedback` the connections that lead
//! back by a walk over strong components, and `order` lists a network by a heap of what is ready.
//! `one_order` and `one_list_of_networks` say that the definitions leave no choice.
#![tactic(auto)]

mod chains;
mod classes;
mod law;
mod links;
mod listing;
mod marks;
mod rank;
mod ready;
mod standing;
mod waits;
mod walk;

pub use classes::{networks, networks_uncounted};
pub use law::{one_list_of_networks, one_order};
pub use listing::{order, orders, orders_uncounted};
pub use marks::{feedback, feedback_uncounted};
pub use plcx_model::{Key, Source, Steps, Wire, Wires};

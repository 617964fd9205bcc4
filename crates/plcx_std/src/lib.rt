//! The ten standard function blocks: their leaves, and what one call of each does to them.
#![tactic(auto)]

mod counter;
mod edge;
mod elapsed;
mod kind;
mod latch;
mod law;
mod leaves;
mod on_delay;
mod pin;
mod state;
mod timer;
mod values;

pub use counter::{ctd, ctu, ctud};
pub use edge::{f_trig, r_trig};
pub use kind::{StdKind, std_lookup};
pub use latch::{rs, sr};
pub use law::{histories, leaves_are_pins};
pub use leaves::{DownCounter, Edge, Latch, OnDelay, Timer, UpCounter, UpDownCounter};
pub use on_delay::ton;
pub use pin::{Role, StdPin, pins};
pub use state::{StdState, step};
pub use timer::{tof, tp};

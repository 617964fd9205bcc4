//! Why a file gives no plan.
ghost use Rattle.std.specs.Prelude.{◌≡◌};
ghost use Rattle.plcx_plan.specs.declared.error.TaskError.TheVariants.{NoMemory};

use crate::condition::TaskKind;
use plcx_types::NoMemory as NoRoom;
use std::alloc::{AllocError, AllocFailed};

/// Why a file gives no plan: the first condition on its tasks that fails, at a byte, or want of memory.
#[derive(Clone, Copy, Debug, PartialEq, Eq)]
pub enum TaskError {
    Broken { kind: TaskKind, at: u64 },
    NoMemory,
}

impl From<AllocError> for TaskError {
    ghost from_gives = { λ _ e. e ≡ NoMemory };

    fn from(_: AllocError) -> Self {
        TaskError::NoMemory
    }
}

impl From<NoRoom> for TaskError {
    ghost from_gives = { λ _ e. e ≡ NoMemory };

    fn from(_: NoRoom) -> Self {
        TaskError::NoMemory
    }
}

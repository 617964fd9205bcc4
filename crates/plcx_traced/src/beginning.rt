//! The retained state that a run begins with.
ghost use Rattle.std.specs.Prelude.{◌≡◌, ◌≤◌, ℕ, List, Option, IfOk, IfErr};
ghost use Rattle.std.specs.Option.{option_map};
ghost use Rattle.plcx_io.specs.Counts.{Rose};
ghost use Rattle.plcx_state.specs.Retains.{IsRetainedOf};
ghost use Rattle.plcx_traced.specs.Files.{IsLoaded, TellsRetained, Begins, WhyNotKept, WhyNotBegun};

use crate::error::RunError;
use plcx_io::{Desk, LoadError, load};
use plcx_state::{Layout, RetainError, Retained, initial, read_retained};
use plcx_types::limits::MAX_FILE_BYTES;
use std::alloc::Global;

/// The retained state that the lines of a file stand for.
fn kept_in(alloc: Global, layout: &Layout, bytes: &[u8]) -> Result<Retained, RunError>
    ensures ok { IfOk result (λ kept. (told : Option (List ℕ)) → IsLoaded told bytes.now → TellsRetained told layout.now.leaves kept) }
    ensures state { IfOk result (λ kept. IsRetainedOf layout.now.leaves kept) }
    ensures err { IfErr result (λ e. (told : Option (List ℕ)) → IsLoaded told bytes.now → WhyNotKept told ⊥ layout.now.leaves e) }
{
    match read_retained(alloc, layout, bytes) {
        Ok(kept) => Ok(kept),
        Err(RetainError::Line { line }) => Err(RunError::Line { line }),
        Err(RetainError::NoMemory) => Err(RunError::NoMemory),
    }
}

/// The retained state that a file stands for.
fn kept_by<D: Desk>(
    alloc: Global,
    desk: &mut D,
    layout: &Layout,
    name: &str,
) -> Result<Retained, RunError>
    ensures ok { IfOk result (λ kept. TellsRetained (D.file desk.old name.now) layout.now.leaves kept) }
    ensures state { IfOk result (λ kept. IsRetainedOf layout.now.leaves kept) }
    ensures err { IfErr result (WhyNotKept (D.file desk.old name.now)
        (Rose (D.faults desk.old name.now) (D.faults desk.new name.now)) layout.now.leaves) }
    ensures files { (other : List ℕ) → D.file desk.new other ≡ D.file desk.old other }
    ensures later { (other : List ℕ) → D.faults desk.old other ≤ D.faults desk.new other }
{
    match load(alloc, desk, name, MAX_FILE_BYTES) {
        Ok(bytes) => kept_in(alloc, layout, &bytes),
        Err(LoadError::Read) => Err(RunError::RetainedRead),
        Err(LoadError::TooLong { limit: _ }) => Err(RunError::Line { line: 0 }),
        Err(LoadError::NoMemory) => Err(RunError::NoMemory),
    }
}

/// The retained state that a run begins with: that of its file, or the initial values where none is named.
pub fn begun<D: Desk>(
    alloc: Global,
    desk: &mut D,
    layout: &Layout,
    retain: Option<&str>,
) -> Result<Retained, RunError>
    ensures ok { IfOk result
        (λ kept. Begins (D.file desk.old) layout.now.leaves (option_map (λ s. s.now) retain.entry) kept) }
    ensures state { IfOk result (λ kept. IsRetainedOf layout.now.leaves kept) }
    ensures err { IfErr result (WhyNotBegun (D.file desk.old)
        (λ name. Rose (D.faults desk.old name) (D.faults desk.new name))
        layout.now.leaves (option_map (λ s. s.now) retain.entry)) }
    ensures files { (other : List ℕ) → D.file desk.new other ≡ D.file desk.old other }
    ensures later { (other : List ℕ) → D.faults desk.old other ≤ D.faults desk.new other }
{
    match retain {
        Some(name) => kept_by(alloc, desk, layout, name),
        None => Ok(initial(alloc, layout)?),
    }
}

//! What is told of a run.
use plcx_scan::Outcome;
use plcx_types::Val;
use sqlite_items::Items;

/// What is told of an event to an instance, and the values of its shown leaves after it. Events are numbered from 1.
#[derive(Debug, Drop)]
pub struct TaskRow {
    pub event: u64,
    pub instance: u32,
    pub outcome: Outcome,
    pub values: Items<Val>,
}

/// The rows of all events.
#[derive(Debug, Drop)]
pub struct TaskTrace {
    pub rows: Items<TaskRow>,
}

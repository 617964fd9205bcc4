//! The events of a resource: ticks with their inputs, and restarts.
use plcx_types::Val;
use sqlite_items::Items;

/// A value for the leaf of this number, of the instance at this place.
#[derive(Clone, Copy, Debug)]
pub struct TaskInput {
    pub instance: u32,
    pub leaf: u32,
    pub value: Val,
}

/// A tick at a time in milliseconds with its inputs in order, or a restart of all instances.
#[derive(Debug, Drop)]
pub enum TaskEvent {
    Tick { time: i64, inputs: Items<TaskInput> },
    Warm,
    Cold,
}

//! Plans: the tasks of a resource, and the instances of programs that they run.
use plcx_types::Ident;
use sqlite_items::Items;

/// A task. The least priority is the first to run; the interval is in milliseconds.
#[derive(Debug, Drop)]
pub struct Task {
    pub name: Ident,
    pub priority: u32,
    pub interval: i64,
}

/// An instance of a program, with the place of its task.
#[derive(Debug, Drop)]
pub struct Instance {
    pub name: Ident,
    pub program: Ident,
    pub task: u32,
}

/// The tasks and the instances of a resource, each in the order of the file.
#[derive(Debug, Drop)]
pub struct TaskPlan {
    pub tasks: Items<Task>,
    pub instances: Items<Instance>,
}

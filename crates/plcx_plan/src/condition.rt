//! What elements are among the tasks of a file, and the conditions on them.

/// What is wrong with the tasks of a file.
#[derive(Clone, Copy, Debug, PartialEq, Eq)]
pub enum TaskKind {
    /// There is not one resource, or there are no instances, or too many tasks or instances.
    Count,
    /// A task has no name, priority or interval of its form, or the name of an earlier one.
    Task,
    /// An instance has no name, or that of an earlier one.
    Instance,
    /// An instance is of no program of the file.
    Program,
}

/// What an element is among the tasks.
#[derive(Clone, Copy, Debug, PartialEq, Eq)]
pub enum Role {
    Root,
    Resource,
    Task,
    Instance,
    Other,
}

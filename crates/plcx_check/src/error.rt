//! Why a project isn't checked.
use plcx_model::{Broken, Project};

/// Why a project isn't checked: the first rule that it breaks, or want of memory. The project comes back.
#[derive(Debug, Drop)]
pub enum CheckError {
    Broken { project: Project, broken: Broken },
    NoMemory { project: Project },
}

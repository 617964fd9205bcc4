//! What a unit breaks, and where.

/// What is asked of a unit that is ready to run.
#[derive(Clone, Copy, Debug, PartialEq, Eq)]
pub enum Condition {
    /// Names are declared once, free and known.
    Name,
    /// Each thing has the type of where it stands.
    Types,
    /// Chains of instances end, and POUs are not too large.
    Recursion,
    /// Literals lie in their types, and labels differ.
    Literal,
}

/// A condition that a unit breaks, and the byte where the token begins that is to blame.
#[derive(Clone, Copy, Debug, PartialEq, Eq)]
pub struct Broken {
    pub condition: Condition,
    pub at: u64,
}

//! Prepared texts: lines over the numbers of leaves and wires, in sections that stand by number.
use plcx_steps::{Action, Source};
use plcx_types::Val;

/// One thing that a section does. A wire holds a temporary, or a value within a statement.
#[derive(Clone, Copy, Debug)]
pub enum Line {
    Act(Action),
    /// A POU as the instance whose leaves stand from these on. What its in-outs are bound to are so many of the
    /// program's bindings from the first on.
    Call {
        pou: u32,
        leaves: u32,
        first: usize,
        count: usize,
    },
    /// A section, where the source is TRUE.
    If {
        test: Source,
        section: usize,
    },
    /// A section again and again, as long as the source is TRUE behind the section that stands before each turn.
    While {
        before: usize,
        test: Source,
        section: usize,
    },
    /// The section of the first arm that has the source's number as its label, among so many of the text's arms from
    /// the first on.
    Case {
        source: Source,
        first: usize,
        count: usize,
    },
}

/// An arm of a CASE: its label, and the section with its statements.
#[derive(Clone, Copy, Debug, PartialEq, Eq)]
pub struct Arm {
    pub label: u32,
    pub section: usize,
}

/// A part of the body of a POU, by the POU's place. It mentions sections of lower numbers alone.
#[derive(Debug, Drop)]
pub struct Section {
    pub pou: u32,
    pub lines: Vec<Line>,
}

/// Where a POU begins: its wires before its first line, with each temporary at its initial value, and its section.
#[derive(Debug, Drop)]
pub struct Entry {
    pub wires: Vec<Val>,
    pub section: usize,
}

/// What the POUs of a text do. The frames of their bodies, the bindings of their calls and the inputs of their
/// functions stand in a program beside it.
#[derive(Debug, Drop)]
pub struct Text {
    pub entries: Vec<Entry>,
    pub sections: Vec<Section>,
    pub arms: Vec<Arm>,
}

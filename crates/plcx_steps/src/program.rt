//! Prepared programs: a body for each POU, as steps over the numbers of leaves, memories and wires.
use plcx_funcs::Func;
use plcx_std::StdKind;
use plcx_types::{Ty, Val};

/// Where a variable of a POU is: a leaf of the instance, by its offset, or the leaf that an in-out is bound to.
#[derive(Clone, Copy, Debug, PartialEq, Eq)]
pub enum Operand {
    Leaf(u32),
    InOut(usize),
}

/// What a step reads.
#[derive(Clone, Copy, Debug)]
pub enum Source {
    Constant(Val),
    /// A wire of the network.
    Wire(usize),
    /// A memory of the instance, by its offset.
    Memory(u32),
    Variable(Operand),
}

/// An input of a function, with its type.
#[derive(Clone, Copy, Debug)]
pub struct Argument {
    pub ty: Ty,
    pub source: Source,
}

/// A step that calls no POU. Leaves and memories are offsets within the instance.
#[derive(Clone, Copy, Debug)]
pub enum Action {
    /// A wire gets a value.
    Fix {
        source: Source,
        wire: usize,
    },
    /// A variable gets a value.
    Write {
        to: Operand,
        source: Source,
    },
    /// A memory gets a value.
    Keep {
        memory: u32,
        source: Source,
    },
    Not {
        source: Source,
        wire: usize,
    },
    And {
        left: Source,
        right: Source,
        wire: usize,
    },
    Or {
        left: Source,
        right: Source,
        wire: usize,
    },
    /// A function at the type of its group, whose inputs are so many of the program's arguments from the first on.
    Apply {
        func: Func,
        ty: Ty,
        first: usize,
        count: usize,
        wire: usize,
    },
    /// A standard block, whose leaves stand from this one on.
    Standard {
        kind: StdKind,
        leaves: u32,
    },
}

/// One thing that an element does.
#[derive(Clone, Copy, Debug)]
pub enum Step {
    Act(Action),
    /// So many steps are passed over unless the source is TRUE.
    Skip {
        unless: Source,
        count: usize,
    },
    /// A POU as the instance whose leaves and memories stand from these on. What its in-outs are bound to are so many
    /// of the program's bindings from the first on.
    Enter {
        pou: u32,
        leaves: u32,
        memories: u32,
        first: usize,
        count: usize,
    },
    /// A watch is told a wire as an output of an element.
    Tell {
        id: u64,
        number: u32,
        ty: Ty,
        wire: usize,
    },
}

/// A jump or a return of a network: the wire that decides, and the number of the network that it leads to.
#[derive(Clone, Copy, Debug, PartialEq, Eq)]
pub struct Jump {
    pub wire: usize,
    pub target: usize,
}

/// A network: its wires as they are before its first step, its steps, and its jumps, which are looked at behind the last.
#[derive(Debug, Drop)]
pub struct Network {
    pub wires: Vec<Val>,
    pub steps: Vec<Step>,
    pub jumps: Vec<Jump>,
}

/// A POU: how many levels of POUs it calls, how many leaves and memories an instance has and how many in-outs, where
/// its wires and its in-outs stand among those of all POUs, the most wires of a network, whether there is a jump, and
/// its networks.
#[derive(Debug, Drop)]
pub struct Body {
    pub level: usize,
    pub leaves: u32,
    pub memories: u32,
    pub in_outs: usize,
    pub first_wire: usize,
    pub first_in_out: usize,
    pub width: usize,
    pub jumps: bool,
    pub networks: Vec<Network>,
}

/// A body for each POU, in the order of the project; what in-outs are bound to, and the inputs of functions.
#[derive(Debug, Drop)]
pub struct Program {
    pub bodies: Vec<Body>,
    pub bindings: Vec<Operand>,
    pub arguments: Vec<Argument>,
}

/// Where the leaves and the memories of an instance begin.
#[derive(Clone, Copy, Debug, PartialEq, Eq)]
pub struct Instance {
    pub leaves: u32,
    pub memories: u32,
}

//! Elements, with all that their effects take.
use plcx_funcs::Func;
use plcx_types::Ty;
use sqlite_items::Items;

/// An output by its element's `localId` and its pin, whose name is empty but at a block.
#[derive(Clone, Copy)]
pub struct Output<'a> {
    pub element: u64,
    pub pin: &'a [u8],
}

/// What a pin is wired to.
#[derive(Clone, Copy)]
pub enum Source<'a> {
    Rail,
    /// A literal in the type of its link, and whether its inVariable is negated.
    Literal { negated: bool, n: i128 },
    /// An output that is fixed before.
    Wire(Output<'a>),
    /// An output that feeds back.
    Back(Output<'a>),
}

/// What stands at an input pin: the OR of its sources, negated or not.
#[derive(Drop)]
pub struct Link<'a> {
    pub ty: Ty,
    pub negated: bool,
    pub first: Source<'a>,
    pub others: Items<Source<'a>>,
}

/// What an inVariable or a contact reads: a variable, or an output of an instance.
#[derive(Clone, Copy)]
pub enum Operand<'a> {
    Own(&'a [u8]),
    Output {
        instance: &'a [u8],
        output: &'a [u8],
    },
}

/// How an outVariable stores what stands at its pin.
#[derive(Clone, Copy, Debug, PartialEq, Eq)]
pub enum Storing {
    Stored,
    Inverted,
    Set,
    Reset,
}

/// When a contact lets through.
#[derive(Clone, Copy, Debug, PartialEq, Eq)]
pub enum Contacting {
    Open,
    Closed,
    Rising,
    Falling,
}

/// When and how a coil stores.
#[derive(Clone, Copy, Debug, PartialEq, Eq)]
pub enum Coiling {
    By(Storing),
    Rising,
    Falling,
}

/// EN where it is connected, and ENO where it is listed, with its negation.
#[derive(Drop)]
pub struct Enable<'a> {
    pub en: Option<Link<'a>>,
    pub eno: Option<bool>,
}

/// A connected input of an instance.
#[derive(Drop)]
pub struct InputPin<'a> {
    pub name: &'a [u8],
    pub link: Link<'a>,
}

/// An in-out of an instance, and the variable that it stands for.
#[derive(Clone, Copy)]
pub struct InOutPin<'a> {
    pub name: &'a [u8],
    pub variable: &'a [u8],
}

/// A listed output of an instance.
#[derive(Clone, Copy)]
pub struct OutputPin<'a> {
    pub name: &'a [u8],
    pub ty: Ty,
    pub negated: bool,
}

/// What an element is, with all that its effect takes.
#[derive(Drop)]
pub enum ElementKind<'a> {
    /// A rail, a comment or a vendor's element, or an inVariable with a literal.
    Still,
    In {
        ty: Ty,
        negated: bool,
        operand: Operand<'a>,
    },
    Out {
        how: Storing,
        variable: &'a [u8],
        link: Link<'a>,
    },
    Contact {
        how: Contacting,
        operand: Operand<'a>,
        link: Link<'a>,
    },
    Coil {
        how: Coiling,
        variable: &'a [u8],
        link: Link<'a>,
    },
    /// A connector or a continuation.
    Pass(Link<'a>),
    Label(&'a [u8]),
    Jump {
        label: &'a [u8],
        link: Link<'a>,
    },
    Return(Link<'a>),
    /// A function at the type of its group, with its inputs in the order of the signature; negated is said of OUT.
    Function {
        func: Func,
        ty: Ty,
        enable: Enable<'a>,
        inputs: Items<Link<'a>>,
        negated: bool,
    },
    /// An instance with its connected inputs, its in-outs and its listed outputs, each in the listed order.
    Call {
        instance: &'a [u8],
        enable: Enable<'a>,
        inputs: Items<InputPin<'a>>,
        in_outs: Items<InOutPin<'a>>,
        outputs: Items<OutputPin<'a>>,
    },
}

/// An output of an element with its type. The name of its pin is empty but at a block.
#[derive(Clone, Copy)]
pub struct Port<'a> {
    pub pin: &'a [u8],
    pub ty: Ty,
}

/// An element by its `localId`, with those of its outputs that feed back.
#[derive(Drop)]
pub struct Element<'a> {
    pub id: u64,
    pub kind: ElementKind<'a>,
    pub fed: Items<Port<'a>>,
}

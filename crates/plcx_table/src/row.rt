//! How elements are read.

/// What an element is read as: a row of the table of the format.
#[derive(Clone, Copy, Debug, PartialEq, Eq)]
pub enum Row {
    Project,
    Types,
    DataTypes,
    Pous,
    Program,
    FunctionBlock,
    Function,
    Contents,
    ProgramInterface,
    BlockInterface,
    VariableList,
    OutsideList,
    Variable,
    OneType,
    Derived,
    InitialValue,
    SimpleValue,
    Body,
    Diagram,
    Comment,
    Vendor,
    Block,
    InputPins,
    InOutPins,
    OutputPins,
    InputPin,
    InOutPin,
    OutputPin,
    PointIn,
    PointOut,
    RailPoint,
    Connection,
    RailConnection,
    InVariable,
    OutVariable,
    Contact,
    Coil,
    Connector,
    Continuation,
    Label,
    Jump,
    Return,
    LeftRail,
    RightRail,
    Position,
    TextAlone,
    Bare,
}

/// One of the seats that the children of an element take.
#[derive(Clone, Copy, Debug, PartialEq, Eq)]
pub enum Seat {
    First,
    Second,
    Third,
    Fourth,
}

/// How often children of a kind stand in an element. Of those that share a seat one may stand.
#[derive(Clone, Copy, Debug, PartialEq, Eq)]
pub enum Often {
    Any,
    AtMostOnce(Seat),
    Once(Seat),
}

/// What becomes of an element that is looked at. A skipped one has a row for its own attributes.
#[derive(Clone, Copy, Debug, PartialEq, Eq)]
pub enum Fate {
    Read(Row),
    Refused(Row),
    Skipped(Row),
    Misplaced,
    Doubled,
}

/// What the value of an attribute is.
#[derive(Clone, Copy, Debug, PartialEq, Eq)]
pub enum Form {
    Whole,
    Coordinate,
    Boolean,
    Edge,
    Storage,
    PouType,
    Namespace,
    Address,
    Nonempty,
    Text,
}

/// The seats that earlier children have taken.
#[derive(Clone, Copy)]
pub struct Taken {
    pub first: bool,
    pub second: bool,
    pub third: bool,
    pub fourth: bool,
}

/// A rule on the form of a file, in the order in which they are tested.
#[derive(Clone, Copy, Debug, PartialEq, Eq)]
pub enum FormatRule {
    /// An element is misplaced, doubled or missing, or text stands where none may.
    Structure,
    /// An attribute is missing, doubled or malformed.
    Attributes,
    /// A construct is left out of the format.
    Constructs,
    /// There is too much of something.
    Limits,
}

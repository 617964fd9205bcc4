//! The table of the format: which children and attributes an element has that is read.
ghost use Rattle.std.specs.Prelude.{◌≡◌, map};
ghost use Rattle.plcx_table.specs.Table.{children, attributes, holds_text};
ghost use Rattle.plcx_table.specs.Shown.{shown_child, shown_field};

use crate::row::{Fate, Form, Often, Row, Seat};

/// Where a child of a name is meant.
#[derive(Clone, Copy)]
pub enum When {
    Always,
    Has(&'static str, &'static str),
    HasText,
}

/// A child that an element may have.
#[derive(Clone, Copy)]
pub struct Child {
    pub name: &'static str,
    pub when: When,
    pub often: Often,
    pub fate: Fate,
}

/// An attribute that is read.
#[derive(Clone, Copy)]
pub struct Field {
    pub name: &'static str,
    pub required: bool,
    pub form: Form,
}

macro_rules! child {
    ($name:literal any $fate:ident $row:ident) => {
        Child { name: $name, when: When::Always, often: Often::Any, fate: Fate::$fate(Row::$row) }
    };
    ($name:literal $attribute:literal $value:literal any $fate:ident $row:ident) => {
        Child { name: $name, when: When::Has($attribute, $value), often: Often::Any, fate: Fate::$fate(Row::$row) }
    };
    ($name:literal maybe $seat:ident $fate:ident $row:ident) => {
        Child { name: $name, when: When::Always, often: Often::AtMostOnce(Seat::$seat), fate: Fate::$fate(Row::$row) }
    };
    ($name:literal with_text maybe $seat:ident $fate:ident $row:ident) => {
        Child { name: $name, when: When::HasText, often: Often::AtMostOnce(Seat::$seat), fate: Fate::$fate(Row::$row) }
    };
    ($name:literal once $seat:ident $fate:ident $row:ident) => {
        Child { name: $name, when: When::Always, often: Often::Once(Seat::$seat), fate: Fate::$fate(Row::$row) }
    };
}

macro_rules! field {
    ($name:literal needed $form:ident) => {
        Field { name: $name, required: true, form: Form::$form }
    };
    ($name:literal optional $form:ident) => {
        Field { name: $name, required: false, form: Form::$form }
    };
}

static NO_CHILDREN: [Child; 0] = [];

static NO_FIELDS: [Field; 0] = [];

static PROJECT: [Child; 4] = [
    child!("fileHeader" maybe First Skipped Bare),
    child!("contentHeader" maybe Second Skipped Bare),
    child!("types" once Third Read Types),
    child!("instances" maybe Fourth Skipped Bare),
];

static TYPES: [Child; 2] = [
    child!("dataTypes" maybe First Read DataTypes),
    child!("pous" once Second Read Pous),
];

static DATA_TYPES: [Child; 1] = [child!("dataType" any Refused Bare)];

static POUS: [Child; 3] = [
    child!("pou" "pouType" "function" any Refused Function),
    child!("pou" "pouType" "program" any Read Program),
    child!("pou" any Read FunctionBlock),
];

static PROGRAM: [Child; 4] = [
    child!("interface" maybe First Read ProgramInterface),
    child!("body" once Second Read Body),
    child!("actions" maybe Third Read Contents),
    child!("transitions" maybe Fourth Read Contents),
];

static FUNCTION_BLOCK: [Child; 4] = [
    child!("interface" maybe First Read BlockInterface),
    child!("body" once Second Read Body),
    child!("actions" maybe Third Read Contents),
    child!("transitions" maybe Fourth Read Contents),
];

static PROGRAM_INTERFACE: [Child; 9] = [
    child!("localVars" any Read VariableList),
    child!("inputVars" any Read VariableList),
    child!("outputVars" any Read VariableList),
    child!("inOutVars" any Read OutsideList),
    child!("tempVars" any Read OutsideList),
    child!("externalVars" any Read OutsideList),
    child!("globalVars" any Read OutsideList),
    child!("accessVars" any Read OutsideList),
    child!("returnType" maybe First Refused Bare),
];

static BLOCK_INTERFACE: [Child; 9] = [
    child!("localVars" any Read VariableList),
    child!("inputVars" any Read VariableList),
    child!("outputVars" any Read VariableList),
    child!("inOutVars" any Read VariableList),
    child!("tempVars" any Read OutsideList),
    child!("externalVars" any Read OutsideList),
    child!("globalVars" any Read OutsideList),
    child!("accessVars" any Read OutsideList),
    child!("returnType" maybe First Refused Bare),
];

static VARIABLE_LIST: [Child; 1] = [child!("variable" any Read Variable)];

static OUTSIDE_LIST: [Child; 1] = [child!("variable" any Refused Variable)];

static VARIABLE: [Child; 2] = [
    child!("type" once First Read OneType),
    child!("initialValue" maybe Second Read InitialValue),
];

static ONE_TYPE: [Child; 31] = [
    child!("BOOL" once First Read Bare),
    child!("INT" once First Read Bare),
    child!("DINT" once First Read Bare),
    child!("TIME" once First Read Bare),
    child!("derived" once First Read Derived),
    child!("WORD" once First Read Bare),
    child!("BYTE" once First Read Bare),
    child!("SINT" once First Read Bare),
    child!("LINT" once First Read Bare),
    child!("USINT" once First Read Bare),
    child!("UINT" once First Read Bare),
    child!("UDINT" once First Read Bare),
    child!("ULINT" once First Read Bare),
    child!("DWORD" once First Read Bare),
    child!("LWORD" once First Read Bare),
    child!("REAL" once First Refused Bare),
    child!("LREAL" once First Refused Bare),
    child!("LTIME" once First Refused Bare),
    child!("DATE" once First Refused Bare),
    child!("DT" once First Refused Bare),
    child!("TOD" once First Refused Bare),
    child!("STRING" once First Refused Bare),
    child!("WSTRING" once First Refused Bare),
    child!("string" once First Refused Bare),
    child!("wstring" once First Refused Bare),
    child!("array" once First Refused Bare),
    child!("struct" once First Refused Bare),
    child!("enum" once First Refused Bare),
    child!("subrangeSigned" once First Refused Bare),
    child!("subrangeUnsigned" once First Refused Bare),
    child!("pointer" once First Refused Bare),
];

static INITIAL_VALUE: [Child; 3] = [
    child!("simpleValue" once First Read SimpleValue),
    child!("arrayValue" once First Refused Bare),
    child!("structValue" once First Refused Bare),
];

static BODY: [Child; 5] = [
    child!("FBD" once First Read Diagram),
    child!("LD" once First Read Diagram),
    child!("IL" once First Refused Bare),
    child!("ST" once First Refused Bare),
    child!("SFC" once First Refused Bare),
];

static DIAGRAM: [Child; 25] = [
    child!("block" any Read Block),
    child!("inVariable" any Read InVariable),
    child!("outVariable" any Read OutVariable),
    child!("contact" any Read Contact),
    child!("coil" any Read Coil),
    child!("connector" any Read Connector),
    child!("continuation" any Read Continuation),
    child!("label" any Read Label),
    child!("jump" any Read Jump),
    child!("return" any Read Return),
    child!("leftPowerRail" any Read LeftRail),
    child!("rightPowerRail" any Read RightRail),
    child!("comment" any Skipped Comment),
    child!("vendorElement" any Skipped Vendor),
    child!("error" any Refused Bare),
    child!("actionBlock" any Refused Bare),
    child!("inOutVariable" any Refused Bare),
    child!("step" any Refused Bare),
    child!("macroStep" any Refused Bare),
    child!("jumpStep" any Refused Bare),
    child!("transition" any Refused Bare),
    child!("selectionDivergence" any Refused Bare),
    child!("selectionConvergence" any Refused Bare),
    child!("simultaneousDivergence" any Refused Bare),
    child!("simultaneousConvergence" any Refused Bare),
];

static BLOCK: [Child; 4] = [
    child!("position" maybe First Read Position),
    child!("inputVariables" maybe Second Read InputPins),
    child!("inOutVariables" maybe Third Read InOutPins),
    child!("outputVariables" maybe Fourth Read OutputPins),
];

static INPUT_PINS: [Child; 1] = [child!("variable" any Read InputPin)];

static IN_OUT_PINS: [Child; 1] = [child!("variable" any Read InOutPin)];

static OUTPUT_PINS: [Child; 1] = [child!("variable" any Read OutputPin)];

static INPUT_PIN: [Child; 1] = [child!("connectionPointIn" maybe First Read PointIn)];

static IN_OUT_PIN: [Child; 2] = [
    child!("connectionPointIn" maybe First Read PointIn),
    child!("connectionPointOut" maybe Second Read PointOut),
];

static OUTPUT_PIN: [Child; 1] = [child!("connectionPointOut" maybe First Read PointOut)];

static POINT_IN: [Child; 4] = [
    child!("relPosition" maybe First Skipped Bare),
    child!("connection" any Read Connection),
    child!("expression" with_text maybe Second Refused Bare),
    child!("expression" maybe Second Read TextAlone),
];

static POINT_OUT: [Child; 3] = [
    child!("relPosition" maybe First Skipped Bare),
    child!("expression" with_text maybe Second Refused Bare),
    child!("expression" maybe Second Read TextAlone),
];

static RAIL_POINT: [Child; 4] = [
    child!("relPosition" maybe First Skipped Bare),
    child!("connection" any Read RailConnection),
    child!("expression" with_text maybe Second Refused Bare),
    child!("expression" maybe Second Read TextAlone),
];

static CONNECTION: [Child; 1] = [child!("position" any Skipped Bare)];

static IN_VARIABLE: [Child; 3] = [
    child!("position" maybe First Read Position),
    child!("connectionPointOut" maybe Second Read PointOut),
    child!("expression" once Third Read TextAlone),
];

static OUT_VARIABLE: [Child; 3] = [
    child!("position" maybe First Read Position),
    child!("connectionPointIn" maybe Second Read PointIn),
    child!("expression" once Third Read TextAlone),
];

static CONTACT: [Child; 4] = [
    child!("position" maybe First Read Position),
    child!("connectionPointIn" maybe Second Read PointIn),
    child!("connectionPointOut" maybe Third Read PointOut),
    child!("variable" once Fourth Read TextAlone),
];

static CONNECTOR: [Child; 2] = [
    child!("position" maybe First Read Position),
    child!("connectionPointIn" maybe Second Read PointIn),
];

static CONTINUATION: [Child; 2] = [
    child!("position" maybe First Read Position),
    child!("connectionPointOut" maybe Second Read PointOut),
];

static LABEL: [Child; 1] = [child!("position" maybe First Read Position)];

static LEFT_RAIL: [Child; 2] = [
    child!("position" maybe First Read Position),
    child!("connectionPointOut" any Read PointOut),
];

static RIGHT_RAIL: [Child; 2] = [
    child!("position" maybe First Read Position),
    child!("connectionPointIn" any Read RailPoint),
];

static PROJECT_FIELDS: [Field; 1] = [field!("xmlns" needed Namespace)];

static PROGRAM_FIELDS: [Field; 2] = [field!("name" needed Text), field!("pouType" needed PouType)];

static VARIABLE_LIST_FIELDS: [Field; 2] = [
    field!("constant" optional Boolean),
    field!("retain" optional Boolean),
];

static VARIABLE_FIELDS: [Field; 2] = [
    field!("name" needed Text),
    field!("address" optional Address),
];

static DERIVED_FIELDS: [Field; 1] = [field!("name" needed Text)];

static SIMPLE_VALUE_FIELDS: [Field; 1] = [field!("value" needed Text)];

static COMMENT_FIELDS: [Field; 1] = [field!("localId" needed Whole)];

static BLOCK_FIELDS: [Field; 4] = [
    field!("localId" needed Whole),
    field!("typeName" needed Text),
    field!("instanceName" optional Text),
    field!("executionOrderId" optional Whole),
];

static INPUT_PIN_FIELDS: [Field; 4] = [
    field!("formalParameter" needed Text),
    field!("negated" optional Boolean),
    field!("edge" optional Edge),
    field!("storage" optional Storage),
];

static CONNECTION_FIELDS: [Field; 2] = [
    field!("refLocalId" needed Whole),
    field!("formalParameter" optional Text),
];

static IN_VARIABLE_FIELDS: [Field; 5] = [
    field!("localId" needed Whole),
    field!("executionOrderId" optional Whole),
    field!("negated" optional Boolean),
    field!("edge" optional Edge),
    field!("storage" optional Storage),
];

static CONNECTOR_FIELDS: [Field; 3] = [
    field!("localId" needed Whole),
    field!("executionOrderId" optional Whole),
    field!("name" needed Nonempty),
];

static LABEL_FIELDS: [Field; 3] = [
    field!("localId" needed Whole),
    field!("executionOrderId" optional Whole),
    field!("label" needed Nonempty),
];

static RETURN_FIELDS: [Field; 2] = [
    field!("localId" needed Whole),
    field!("executionOrderId" optional Whole),
];

static POSITION_FIELDS: [Field; 2] = [field!("x" needed Coordinate), field!("y" needed Coordinate)];

/// The children that an element may have, by what it is read as. The first that fits counts.
pub fn children(row: Row) -> &'static [Child]
    ensures { map shown_child result.now ≡ children row }
{
    match row {
        Row::Project => &PROJECT,
        Row::Types => &TYPES,
        Row::DataTypes => &DATA_TYPES,
        Row::Pous => &POUS,
        Row::Program => &PROGRAM,
        Row::FunctionBlock => &FUNCTION_BLOCK,
        Row::ProgramInterface => &PROGRAM_INTERFACE,
        Row::BlockInterface => &BLOCK_INTERFACE,
        Row::VariableList => &VARIABLE_LIST,
        Row::OutsideList => &OUTSIDE_LIST,
        Row::Variable => &VARIABLE,
        Row::OneType => &ONE_TYPE,
        Row::InitialValue => &INITIAL_VALUE,
        Row::Body => &BODY,
        Row::Diagram => &DIAGRAM,
        Row::Block => &BLOCK,
        Row::InputPins => &INPUT_PINS,
        Row::InOutPins => &IN_OUT_PINS,
        Row::OutputPins => &OUTPUT_PINS,
        Row::InputPin => &INPUT_PIN,
        Row::InOutPin => &IN_OUT_PIN,
        Row::OutputPin => &OUTPUT_PIN,
        Row::PointIn => &POINT_IN,
        Row::PointOut => &POINT_OUT,
        Row::RailPoint => &RAIL_POINT,
        Row::Connection | Row::RailConnection => &CONNECTION,
        Row::InVariable => &IN_VARIABLE,
        Row::OutVariable => &OUT_VARIABLE,
        Row::Contact | Row::Coil => &CONTACT,
        Row::Connector | Row::Jump | Row::Return => &CONNECTOR,
        Row::Continuation => &CONTINUATION,
        Row::Label => &LABEL,
        Row::LeftRail => &LEFT_RAIL,
        Row::RightRail => &RIGHT_RAIL,
        _ => &NO_CHILDREN,
    }
}

/// The attributes of an element that are read.
pub fn attributes(row: Row) -> &'static [Field]
    ensures { map shown_field result.now ≡ attributes row }
{
    match row {
        Row::Project => &PROJECT_FIELDS,
        Row::Program | Row::FunctionBlock | Row::Function => &PROGRAM_FIELDS,
        Row::VariableList | Row::OutsideList => &VARIABLE_LIST_FIELDS,
        Row::Variable => &VARIABLE_FIELDS,
        Row::Derived => &DERIVED_FIELDS,
        Row::SimpleValue => &SIMPLE_VALUE_FIELDS,
        Row::Comment | Row::Vendor => &COMMENT_FIELDS,
        Row::Block => &BLOCK_FIELDS,
        Row::InputPin | Row::InOutPin | Row::OutputPin => &INPUT_PIN_FIELDS,
        Row::Connection | Row::RailConnection => &CONNECTION_FIELDS,
        Row::InVariable | Row::OutVariable | Row::Contact | Row::Coil => &IN_VARIABLE_FIELDS,
        Row::Connector | Row::Continuation => &CONNECTOR_FIELDS,
        Row::Label | Row::Jump => &LABEL_FIELDS,
        Row::Return | Row::LeftRail | Row::RightRail => &RETURN_FIELDS,
        Row::Position => &POSITION_FIELDS,
        _ => &NO_FIELDS,
    }
}

/// Whether text alone stands in an element.
pub fn holds_text(row: Row) -> bool
    ensures { result ≡ holds_text row }
{
    row == Row::TextAlone
}

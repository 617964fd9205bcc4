//! How much of each thing there may be.
ghost use Rattle.std.specs.Prelude.{◌≡◌, pos};
ghost use Rattle.plcx_types.specs.Limits.{max_file_bytes, max_text_bytes, max_name_bytes, max_declared_name_bytes, max_element_depth, max_text_depth};
ghost use Rattle.plcx_types.specs.Limits.{max_pous, max_variables, max_elements, max_connections, max_pin_connections, max_pins};
ghost use Rattle.plcx_types.specs.Limits.{max_instance_chain, max_leaves, max_parts, max_text_leaves, max_tasks, max_instances, max_event_time};

/// The bytes of a project's file, of a file of events and of a retained file.
pub const MAX_FILE_BYTES: u64 = 16 * 1024 * 1024;

/// The bytes of a text that is run.
pub const MAX_TEXT_BYTES: u64 = 64 * 1024 * 1024;

/// The bytes of a name.
pub const MAX_NAME_BYTES: usize = 128;

/// The bytes of a name of a POU or a variable in a file.
pub const MAX_DECLARED_NAME_BYTES: usize = 64;

/// How deep elements stand in one another in a file.
pub const MAX_ELEMENT_DEPTH: usize = 64;

/// How deep a text is.
pub const MAX_TEXT_DEPTH: usize = 256;

/// The POUs of a project.
pub const MAX_POUS: usize = 256;

/// The variables of a POU.
pub const MAX_VARIABLES: usize = 4096;

/// The elements of a body, comments and those of vendors among them.
pub const MAX_ELEMENTS: usize = 4096;

/// The connections of a body.
pub const MAX_CONNECTIONS: usize = 16_384;

/// The connections at a pin other than a right rail's.
pub const MAX_PIN_CONNECTIONS: usize = 64;

/// The pins in one list of inputs, or of in-outs, of a block.
pub const MAX_PINS: usize = 64;

/// How many instances stand in one another.
pub const MAX_INSTANCE_CHAIN: usize = 16;

/// The leaves of a POU.
pub const MAX_LEAVES: usize = 262_144;

/// The parts of a POU, those of its instances among them.
pub const MAX_PARTS: usize = 2_097_152;

/// The leaves and instances of a POU of a text.
pub const MAX_TEXT_LEAVES: usize = 8_388_608;

/// The tasks of a resource.
pub const MAX_TASKS: usize = 64;

/// The instances of programs of a resource.
pub const MAX_INSTANCES: usize = 16;

/// The time of an event, in milliseconds.
pub const MAX_EVENT_TIME: i64 = 4_611_686_018_427_387_904;

/// Bytes, and how deep things stand in one another: the constants are those of the definitions.
pub fn limits_of_texts()
    ensures file { MAX_FILE_BYTES ≡ max_file_bytes }
    ensures text { MAX_TEXT_BYTES ≡ max_text_bytes }
    ensures name { MAX_NAME_BYTES ≡ max_name_bytes }
    ensures declared { MAX_DECLARED_NAME_BYTES ≡ max_declared_name_bytes }
    ensures elements { MAX_ELEMENT_DEPTH ≡ max_element_depth }
    ensures depth { MAX_TEXT_DEPTH ≡ max_text_depth }
{}

/// The things of a project: the constants are those of the definitions.
pub fn limits_of_projects()
    ensures pous { MAX_POUS ≡ max_pous }
    ensures variables { MAX_VARIABLES ≡ max_variables }
    ensures elements { MAX_ELEMENTS ≡ max_elements }
    ensures connections { MAX_CONNECTIONS ≡ max_connections }
    ensures pin_connections { MAX_PIN_CONNECTIONS ≡ max_pin_connections }
    ensures pins { MAX_PINS ≡ max_pins }
{}

/// What a POU grows to, what a resource has, and how late an event is: the constants are those of the definitions.
pub fn limits_of_runs()
    ensures chain { MAX_INSTANCE_CHAIN ≡ max_instance_chain }
    ensures leaves { MAX_LEAVES ≡ max_leaves }
    ensures parts { MAX_PARTS ≡ max_parts }
    ensures text_leaves { MAX_TEXT_LEAVES ≡ max_text_leaves }
    ensures tasks { MAX_TASKS ≡ max_tasks }
    ensures instances { MAX_INSTANCES ≡ max_instances }
    ensures time { MAX_EVENT_TIME ≡ pos max_event_time }
{}

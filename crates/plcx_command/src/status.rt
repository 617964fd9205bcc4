ghost use Rattle.std.specs.Prelude.{◌≡◌};
ghost use Rattle.plcx_command.specs.Refused.{status_of};

/// How a call ends.
#[derive(Clone, Copy, Debug, PartialEq, Eq)]
pub enum Status {
    Done,
    Broken,
    Usage,
    ReadFault,
    WriteFault,
    NoMemory,
    TextBroken,
    EventsBroken,
    NoProgram,
    TasksBroken,
}

impl Status {
    /// The exit status of the program.
    pub fn number(self) -> u8
        ensures { result ≡ number_of self }
    {
        match self {
            Status::Done => 0,
            Status::Broken => 1,
            Status::Usage => 2,
            Status::ReadFault => 3,
            Status::WriteFault => 4,
            Status::NoMemory => 5,
            Status::TextBroken => 6,
            Status::EventsBroken => 7,
            Status::NoProgram => 8,
            Status::TasksBroken => 10,
        }
    }
}

ghost use Rattle.plcx_command.specs.Refused.{number_of};

/// Why nothing is written to the output.
#[derive(Clone, Copy, Debug, PartialEq, Eq)]
pub enum Refused {
    Broken,
    Usage,
    ReadFault,
    NoMemory,
    TextBroken,
    EventsBroken,
    NoProgram,
    TasksBroken,
}

impl Refused {
    /// The status of a refusal whose line went out.
    pub fn status(self) -> Status
        ensures { result ≡ status_of self }
    {
        match self {
            Refused::Broken => Status::Broken,
            Refused::Usage => Status::Usage,
            Refused::ReadFault => Status::ReadFault,
            Refused::NoMemory => Status::NoMemory,
            Refused::TextBroken => Status::TextBroken,
            Refused::EventsBroken => Status::EventsBroken,
            Refused::NoProgram => Status::NoProgram,
            Refused::TasksBroken => Status::TasksBroken,
        }
    }
}

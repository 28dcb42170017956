// How a command ends that isn't refused, and the statuses of the program.
ghost use Rattle.std.specs.Prelude.{◌≡◌};

/// How the program ends. Each has its number.
#[derive(Clone, Copy)]
pub enum Status {
    /// The command was carried out to its end.
    Done = 0,
    /// The words are no command.
    NoCommand = 2,
    /// The plan is too long, or no plan that can be run.
    PlanRefused = 3,
    /// The script is too long, or has a faulty line.
    ScriptRefused = 4,
    /// A journal stands where a new one was to be made, or what stands there is none that can be taken up.
    JournalRefused = 5,
    /// The start does not settle.
    Runaway = 6,
    /// A file could not be read.
    ReadFault = 7,
    /// The sink failed, or took nothing.
    SinkFault = 8,
    /// A call of the disk failed.
    DiskFault = 9,
    /// Memory ran out.
    NoMemory = 10,
    /// Lines are left, and each thread that has some stands at a wait that isn't met.
    Stalled = 11,
}

/// How a command ends that is not refused: all of its text is printed.
#[derive(Clone, Copy)]
pub enum End {
    /// It was carried out to its end.
    Done,
    /// Its script is stalled.
    Stalled,
}

impl End {
    ghost use Rattle.px_ending.specs.Statuses.{status_of};

    /// The status of the end.
    pub fn status(self) -> Status
        ensures { result ≡ status_of self }
    {
        match self {
            End::Done => Status::Done,
            End::Stalled => Status::Stalled,
        }
    }
}

impl Status {
    ghost use Rattle.px_ending.specs.Statuses.{number_of};

    /// The number that the process ends with.
    pub fn number(self) -> u8
        ensures { result ≡ number_of self }
    {
        self as u8
    }
}

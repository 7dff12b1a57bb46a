// How the program ends.
ghost use Rattle.std.specs.Prelude.{◌≡◌};
ghost use Rattle.pareas_core.specs.Statuses.{number_of};

/// What a call of the program comes to.
#[derive(Clone, Copy, PartialEq, Eq, Debug)]
pub enum Status {
    /// The command's result was written whole.
    Done,
    /// The source has a diagnostic, or the word is no sentence.
    Refused,
    /// The words are refused, or ask for help or the version.
    Usage,
    /// A read failed.
    ReadFault,
    /// A write failed.
    WriteFault,
    /// The source passes a limit.
    Limit,
    /// Out of memory.
    NoMemory,
    /// The machine is still running after its last step.
    Running,
    /// The machine has faulted.
    Machine,
    /// The grammar isn't LL(1), or not LLP with the look-back that its file asks for.
    Conflict,
    /// The file isn't an image that can be loaded.
    BadImage,
    /// The file isn't a grammar of the form that is read.
    BadGrammar,
    /// The text isn't a listing of the form that is assembled.
    BadAsm,
    /// The bytes aren't a batch of records.
    BadBatch,
}

impl Status {
    /// The exit status of the process.
    pub fn number(self) -> u8
        ensures { result ≡ number_of self }
    {
        match self {
            Status::Done => 0,
            Status::Refused => 1,
            Status::Usage => 2,
            Status::ReadFault => 3,
            Status::WriteFault => 4,
            Status::Limit => 5,
            Status::NoMemory => 6,
            Status::Running => 7,
            Status::Machine => 8,
            Status::Conflict => 9,
            Status::BadImage => 10,
            Status::BadGrammar => 11,
            Status::BadAsm => 12,
            Status::BadBatch => 13,
        }
    }
}

ghost use Rattle.std.specs.Prelude.{◌≡◌};
ghost use Rattle.cm_core.specs.Statuses.{code_of};

/// How a run ended.
#[derive(Clone, Copy, Debug, PartialEq, Eq)]
pub enum Status {
    /// The whole output is written and has no error line.
    Clean,
    /// The whole output is written and has an error line.
    Diagnosed,
    /// The words after the program's name have none of the known forms.
    Usage,
    /// The source tree failed a read.
    ReadFault,
    /// An output failed a write.
    WriteFault,
    NoMemory,
}

impl Status {
    /// The exit status of the process.
    pub fn code(&self) -> u8
        ensures { result ≡ code_of self.now }
    {
        match self {
            Status::Clean => 0,
            Status::Diagnosed => 1,
            Status::Usage => 2,
            Status::ReadFault => 3,
            Status::WriteFault => 4,
            Status::NoMemory => 5,
        }
    }
}

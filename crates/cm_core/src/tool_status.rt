ghost use Rattle.std.specs.Prelude.{◌≡◌};
ghost use Rattle.cm_core.specs.Statuses.{tool_code_of};

/// How a run of one of the tools ended.
#[derive(Clone, Copy, Debug, PartialEq, Eq)]
pub enum ToolStatus {
    /// The whole output is written and has no error line.
    Clean,
    /// The whole output is written and has an error line.
    Diagnosed,
    /// The words after the program's name have none of the known forms.
    Usage,
    /// The source tree failed a read.
    ReadFault,
    /// An output failed a write.
    WriteFault,
    NoMemory,
    /// The cache failed a call.
    CacheFault,
}

impl ToolStatus {
    /// The exit status of the process.
    pub fn code(&self) -> u8
        ensures { result ≡ tool_code_of self.now }
    {
        match self {
            ToolStatus::Clean => 0,
            ToolStatus::Diagnosed => 1,
            ToolStatus::Usage => 2,
            ToolStatus::ReadFault => 3,
            ToolStatus::WriteFault => 4,
            ToolStatus::NoMemory => 5,
            ToolStatus::CacheFault => 6,
        }
    }
}

ghost use Rattle.std.specs.Prelude.{◌≡◌};
ghost use Rattle.job_text.specs.Answers.{fault_at};

use c_lex::LexFault;
use cm_core::NoMemory;
use std::alloc::{AllocError, AllocFailed};

/// What is wrong with a line.
#[derive(Clone, Copy, Debug, PartialEq, Eq)]
pub enum JobKind {
    /// It has none of the forms of a line.
    Form,
    /// Its path is none below the root.
    Path,
    /// Its macro can't be defined.
    Macro,
    /// It is a unit past the most that a job has.
    Units,
}

/// Why a job file or a script isn't read.
#[derive(Clone, Copy, Debug, PartialEq, Eq)]
pub enum JobFault {
    /// The first bad line by its number, from 1, and what is wrong with it.
    Line(u64, JobKind),
    /// It isn't UTF-8: its longest front that is has so many bytes.
    Text(u64),
    NoMemory,
}

/// Why one line isn't read.
#[derive(Clone, Copy)]
pub(crate) enum LineFault {
    Bad(JobKind),
    NoMemory,
}

impl LineFault {
    /// As the fault of line `number`.
    pub(crate) fn at(self, number: u64) -> JobFault
        ensures { result ≡ fault_at number self }
    {
        match self {
            LineFault::Bad(kind) => JobFault::Line(number, kind),
            LineFault::NoMemory => JobFault::NoMemory,
        }
    }
}

impl From<NoMemory> for LineFault {
    ghost use Rattle.job_text.specs.declared.fault.LineFault.TheVariants.{NoMemory as OutOfMemory};

    ghost from_gives = { λ _ fault. fault ≡ OutOfMemory };

    fn from(_error: NoMemory) -> LineFault {
        LineFault::NoMemory
    }
}

impl<T: Drop> From<AllocFailed<T>> for LineFault {
    ghost use Rattle.job_text.specs.declared.fault.LineFault.TheVariants.{NoMemory as OutOfMemory};

    ghost from_gives = { λ _ fault. fault ≡ OutOfMemory };

    fn from(_error: AllocFailed<T>) -> LineFault {
        LineFault::NoMemory
    }
}

impl From<LexFault> for LineFault {
    ghost use Rattle.job_text.specs.Answers.{fault_from};

    ghost from_gives = { λ fault gives. gives ≡ fault_from fault };

    fn from(fault: LexFault) -> LineFault {
        match fault {
            LexFault::NoMemory => LineFault::NoMemory,
            LexFault::Unclosed(_) | LexFault::BadByte(_) | LexFault::LongName(_) => {
                LineFault::Bad(JobKind::Macro)
            }
        }
    }
}

impl From<AllocError> for JobFault {
    ghost use Rattle.job_text.specs.declared.fault.JobFault.TheVariants.{NoMemory as OutOfMemory};

    ghost from_gives = { λ _ fault. fault ≡ OutOfMemory };

    fn from(_error: AllocError) -> JobFault {
        JobFault::NoMemory
    }
}

ghost use Rattle.std.specs.Prelude.{◌≡◌, ℕ, ◌<◌, ◌≤◌, List as Seq, length, take, IfOk, OnOk, OnErr, Option as Maybe};
ghost use Rattle.cm_outside.specs.Faults.{HasCause};
ghost use Rattle.cm_outside.specs.Sinks.{and_then, TakesFront};

use std::alloc::AllocError;
use thiserror::Error;

/// Why a sink took nothing.
#[derive(Clone, Copy, Debug, Error, PartialEq, Eq)]
pub enum SinkFault {
    #[error("the bytes could not be written")]
    Failed,
    #[error("out of memory")]
    NoMemory,
}

impl From<AllocError> for SinkFault {
    ghost use Rattle.cm_outside.specs.declared.sink.SinkFault.TheVariants.{NoMemory};

    ghost from_gives = { λ _ e. e ≡ NoMemory };

    fn from(_error: AllocError) -> SinkFault {
        SinkFault::NoMemory
    }
}

/// Takes bytes in order.
pub trait Sink {
    // The bytes taken so far, where the sink tells them.
    ghost taken: { Self → Maybe (Seq ℕ) };

    // How often it failed.
    ghost faults: { Self → ℕ };

    /// Takes a front of the bytes and answers its length, at least one byte where there is one. A
    /// refused write takes none.
    fn write(&mut self, bytes: &[u8]) -> Result<usize, SinkFault>
        ensures within { IfOk result (λ n. n ≤ length bytes.now) }
        ensures some { IfOk result (λ n. 0 < length bytes.now → 0 < n) }
        ensures takes { IfOk result (λ n. taken self.new ≡ and_then (taken self.old) (take n bytes.now)) }
        ensures refused { OnErr result (taken self.new ≡ taken self.old) }
        ensures cause { HasCause (faults self.old) (faults self.new) result SinkFault.Failed };
}

/// Writes all of the bytes. A fault leaves a front of them taken.
pub fn write_all<S: Sink>(sink: &mut S, bytes: &[u8]) -> Result<(), SinkFault>
    ensures all { OnOk result (S.taken sink.new ≡ and_then (S.taken sink.old) bytes.now) }
    ensures front { TakesFront bytes.now (S.taken sink.old) (S.taken sink.new) }
    ensures cause { HasCause (S.faults sink.old) (S.faults sink.new) result SinkFault.Failed }
{
    let mut at = 0;
    while at < bytes.len() {
        at += sink.write(&bytes[at..])?;
    }
    Ok(())
}

//! Why a field could not be read.

use thiserror::Error;

/// What is wrong with the bytes, and the offset of the field where it is, counted from the first
/// byte that the reader was given.
#[derive(Clone, Copy, Debug, Error, PartialEq, Eq)]
pub enum WireFault {
    /// The field needs more bytes than there are.
    #[error("the field at byte {0} needs more bytes than there are")]
    Short(usize),
    /// The field is a tag above its limit, or a text that is not UTF-8.
    #[error("the field at byte {0} is out of range")]
    OutOfRange(usize),
    /// Bytes are left after the last field.
    #[error("bytes are left from byte {0} on")]
    NotCanonical(usize),
}

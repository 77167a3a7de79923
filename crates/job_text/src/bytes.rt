ghost use Rattle.std.specs.Prelude.{◌≡◌, ℕ, slice_index, IfOk, IfErr};
ghost use Rattle.std.specs.Str.{IsUtf8, IsValidUpTo};

use crate::fault::JobFault;

/// The byte number `at`, or 0 past the end.
pub(crate) fn byte_at(bytes: &[u8], at: usize) -> u8
    ensures { result ≡ slice_index bytes.now at }
{
    if at < bytes.len() { bytes[at] } else { 0 }
}

/// The bytes as a text.
pub(crate) fn text_of(bytes: &[u8]) -> Result<&str, JobFault>
    ensures text { IfOk result (λ text. (text.now ≡ bytes.now) × IsUtf8 bytes.now) }
    ensures fault { IfErr result (λ fault. (n : ℕ) × (fault ≡ JobFault.Text n) × IsValidUpTo bytes.now n) }
{
    match str::from_utf8(bytes) {
        Ok(text) => Ok(text),
        Err(error) => Err(JobFault::Text(error.valid_up_to() as u64)),
    }
}

//! The digest that seals a run of bytes.

ghost use Rattle.std.specs.Prelude.{◌≡◌, ◌↔◌, IsTrue};
ghost use Rattle.sha2.specs.Sha256.{sha256};

use sha2::{Digest, Sha256};

/// The SHA-256 digest of the bytes (FIPS 180-4).
pub fn seal(bytes: &[u8]) -> [u8; 32]
    ensures { result ≡ sha256 bytes.now }
{
    Sha256::digest(bytes)
}

/// Whether the digest that was kept is that of the bytes.
pub fn matches(bytes: &[u8], kept: &[u8; 32]) -> bool
    ensures { IsTrue result ↔ (sha256 bytes.now ≡ kept.now) }
{
    seal(bytes) == *kept
}

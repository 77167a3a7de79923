//! The head of a module file: `CMOD`, the version, the length of the file, the length of the index and
//! the seal.

ghost use Rattle.std.specs.Prelude.{◌≡◌, ◌+◌, ◌^◌, ◌<◌, ◌≤◌, ◌++◌, length, take, drop, OnOk, IsOk};
ghost use Rattle.std.specs.Str.{bytes_eq};
ghost use Rattle.sha2.specs.Sha256.{sha256};
ghost use Rattle.module_file.specs.ModuleFile.{head_front, index_len_of};

use crate::fault::FileFault;
use byteorder::{BigEndian, ByteOrder};
use cm_core::NoMemory;
use cm_wire::{put_u32, put_u64};
use sha2::{Digest, Sha256};

/// The length of a head in bytes.
const HEAD_LEN: usize = 56;

/// The first bytes of a module file.
const MAGIC: [u8; 4] = [b'C', b'M', b'O', b'D'];

const VERSION: u32 = 0;

/// The length of the index that a file's size and head state, after the checks of both.
#[tactic(auto, unfolding(crate::specs::ModuleFile::index_len_of))]
pub fn index_len_in(head: &[u8], size: u64) -> Result<u64, FileFault>
    ensures value { result ≡ index_len_of head.now size }
    ensures whole { IsOk result → length head.now ≡ 56 }
{
    if size < HEAD_LEN as u64 || head.len() != HEAD_LEN {
        return Err(FileFault::Damaged);
    }
    if &head[..4] != MAGIC.as_slice() {
        return Err(FileFault::Damaged);
    }
    let version = BigEndian::read_u32(&head[4..8]);
    if version != VERSION {
        return Err(FileFault::OtherVersion(version));
    }
    let total = BigEndian::read_u64(&head[8..16]);
    let len = BigEndian::read_u64(&head[16..24]);
    if total != size || len != size - HEAD_LEN as u64 {
        return Err(FileFault::Damaged);
    }
    Ok(len)
}

/// Puts the head of a file with this index.
pub fn put_head(out: &mut Vec<u8>, index: &[u8]) -> Result<(), NoMemory>
    ensures put { OnOk result (out.new.items ≡ out.old.items ++ (head_front (length index.now) ++ sha256 (head_front (length index.now) ++ index.now))) }
    ensures fits { OnOk result (56 + length index.now < 2 ^ 64) }
{
    let start = out.len();
    let len = index.len() as u64;
    let total = (HEAD_LEN as u64).checked_add(len).ok_or(NoMemory)?;
    out.extend_from_slice(&MAGIC)?;
    put_u32(out, VERSION)?;
    put_u64(out, total)?;
    put_u64(out, len)?;
    let digest = seal_of(&out[start..], index);
    out.extend_from_slice(&digest)?;
    Ok(())
}

/// Whether the seal of a head is that of what it says before and of the index.
pub fn is_sealed(head: &[u8], index: &[u8]) -> bool
    requires { 24 ≤ length head.now }
    ensures { result ≡ bytes_eq (sha256 (take 24 head.now ++ index.now)) (drop 24 head.now) }
{
    seal_of(&head[..24], index).as_slice() == &head[24..]
}

/// The digest of the front of a head and the index.
fn seal_of(front: &[u8], index: &[u8]) -> [u8; 32]
    ensures { result ≡ sha256 (front.now ++ index.now) }
{
    let mut hasher = Sha256::new();
    hasher.update(front);
    hasher.update(index);
    hasher.finalize()
}

//! Putting fields at the end of a buffer. NoMemory comes only where the buffer's capacity has no room
//! for the whole field, and leaves the bytes in it as they were.

ghost use Rattle.std.specs.Prelude.{◌≡◌, ◌+◌, ◌<◌, ◌≤◌, ◌++◌, length, OnOk, OnErr, vec_len, vec_capacity};
ghost use Rattle.cm_wire.specs.Spelling.{spell_u8, spell_u32, spell_u64, spell_bytes, spell_text, spell_digest};

use byteorder::{BigEndian, ByteOrder};
use cm_core::NoMemory;

/// Puts a byte.
#[tactic(auto, unfolding(crate::specs::Spelling::spell_u8))]
pub fn put_u8(out: &mut Vec<u8>, value: u8) -> Result<(), NoMemory>
    ensures put { OnOk result (out.new.items ≡ out.old.items ++ spell_u8 value) }
    ensures kept { OnErr result (out.new.items ≡ out.old.items) }
    ensures full { OnErr result (vec_capacity out.old < vec_len out.old + 1) }
    ensures capacity { vec_capacity out.old ≤ vec_capacity out.new }
{
    out.push(value)?;
    Ok(())
}

/// Puts a number in four bytes, the highest first.
#[tactic(auto, unfolding(crate::specs::Spelling::spell_u32))]
pub fn put_u32(out: &mut Vec<u8>, value: u32) -> Result<(), NoMemory>
    ensures put { OnOk result (out.new.items ≡ out.old.items ++ spell_u32 value) }
    ensures kept { OnErr result (out.new.items ≡ out.old.items) }
    ensures full { OnErr result (vec_capacity out.old < vec_len out.old + 4) }
    ensures capacity { vec_capacity out.old ≤ vec_capacity out.new }
{
    let mut spelled = [0; 4];
    BigEndian::write_u32(&mut spelled, value);
    out.extend_from_slice(&spelled)?;
    Ok(())
}

/// Puts a number in eight bytes, the highest first.
#[tactic(auto, unfolding(crate::specs::Spelling::spell_u64))]
pub fn put_u64(out: &mut Vec<u8>, value: u64) -> Result<(), NoMemory>
    ensures put { OnOk result (out.new.items ≡ out.old.items ++ spell_u64 value) }
    ensures kept { OnErr result (out.new.items ≡ out.old.items) }
    ensures full { OnErr result (vec_capacity out.old < vec_len out.old + 8) }
    ensures capacity { vec_capacity out.old ≤ vec_capacity out.new }
{
    let mut spelled = [0; 8];
    BigEndian::write_u64(&mut spelled, value);
    out.extend_from_slice(&spelled)?;
    Ok(())
}

/// Puts bytes behind their number.
#[tactic(auto, unfolding(crate::specs::Spelling::spell_bytes))]
pub fn put_bytes(out: &mut Vec<u8>, bytes: &[u8]) -> Result<(), NoMemory>
    ensures put { OnOk result (out.new.items ≡ out.old.items ++ spell_bytes bytes.now) }
    ensures kept { OnErr result (out.new.items ≡ out.old.items) }
    ensures full { OnErr result (vec_capacity out.old < vec_len out.old + (8 + length bytes.now)) }
    ensures capacity { vec_capacity out.old ≤ vec_capacity out.new }
{
    let before = out.len();
    put_u64(out, bytes.len() as u64)?;
    match out.extend_from_slice(bytes) {
        Ok(()) => Ok(()),
        Err(_) => {
            out.truncate(before);
            Err(NoMemory)
        }
    }
}

/// Puts the bytes of a text behind their number.
#[tactic(auto, unfolding(crate::specs::Spelling::spell_text))]
pub fn put_text(out: &mut Vec<u8>, text: &str) -> Result<(), NoMemory>
    ensures put { OnOk result (out.new.items ≡ out.old.items ++ spell_text text.now) }
    ensures kept { OnErr result (out.new.items ≡ out.old.items) }
    ensures full { OnErr result (vec_capacity out.old < vec_len out.old + (8 + length text.now)) }
    ensures capacity { vec_capacity out.old ≤ vec_capacity out.new }
{
    put_bytes(out, text.as_bytes())
}

/// Puts the 32 bytes of a digest, with no number before them.
#[tactic(auto, unfolding(crate::specs::Spelling::spell_digest))]
pub fn put_digest(out: &mut Vec<u8>, digest: &[u8; 32]) -> Result<(), NoMemory>
    ensures put { OnOk result (out.new.items ≡ out.old.items ++ spell_digest digest.now) }
    ensures kept { OnErr result (out.new.items ≡ out.old.items) }
    ensures full { OnErr result (vec_capacity out.old < vec_len out.old + 32) }
    ensures capacity { vec_capacity out.old ≤ vec_capacity out.new }
{
    out.extend_from_slice(digest)?;
    Ok(())
}

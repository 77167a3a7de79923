//! Reading fields from the front of bytes.

ghost use Rattle.std.specs.Prelude.{◌≡◌, ◌+◌, ◌<◌, ◌≤◌, ◌++◌, length, take, IfOk, IfErr, Ok, Err, IsUtf8};
ghost use Rattle.std.specs.Int.{w32, w64, from_be_bytes};
ghost use Rattle.cm_wire.specs.declared.fault.WireFault.TheVariants.{OutOfRange};
ghost use Rattle.cm_wire.specs.Spelling.{spell_u8, spell_u32, spell_u64, spell_bytes, spell_text, spell_digest};
ghost use Rattle.cm_wire.specs.Unread.{past};
ghost use Rattle.cm_wire.specs.Reading.{read_front, read_u8, read_u32, read_u64, read_tag, read_bytes, read_text, read_digest, read_end};

use crate::fault::WireFault;
use std::marker::Model;

/// Reads fields one after another from bytes, and takes no memory. A contract sees the offset of the
/// next byte and the bytes that are unread.
///
/// A call answers Short where fewer bytes are left than its field needs. A fault has the offset of
/// the field that was asked for, and leaves the reader before that field.
#[derive(Debug, Drop)]
pub struct Reader<'a> {
    at: usize,
    rest: &'a [u8],
}

impl<'a> Model for Reader<'a> {
    ghost use Rattle.std.specs.Prelude.{◌+◌, ◌<◌, ◌^◌, length};
    ghost use Rattle.cm_wire.specs.Unread.{Unread};

    ghost Value = { Unread };

    ghost view = { λ r. record { at = r.at; rest = r.rest.now } };

    ghost invariant = { λ r. r.at + length r.rest.now < 2 ^ 64 };
}

impl<'a> Reader<'a> {
    /// A reader before the first of the bytes.
    pub fn new(bytes: &'a [u8]) -> Reader<'a>
        ensures { result ≡ record { at = 0; rest = bytes.now } }
    {
        Reader { at: 0, rest: bytes }
    }

    /// The offset of the next byte, counted from the first.
    pub fn at(&self) -> usize
        ensures { result ≡ self.now.at }
    {
        self.at
    }

    /// Reads a byte.
    #[tactic(auto, unfolding(crate::specs::Reading::read_u8, crate::specs::Spelling::spell_u8))]
    pub fn u8(&mut self) -> Result<u8, WireFault>
        ensures read { IfOk result (λ n. read_u8 self.old ≡ Ok (n, self.new)) }
        ensures spelled { IfOk result (λ n. self.old.rest ≡ spell_u8 n ++ self.new.rest) }
        ensures fault { IfErr result (λ e. (read_u8 self.old ≡ Err e) × (self.new ≡ self.old)) }
    {
        let front = self.take(1)?;
        Ok(front[0])
    }

    /// Reads a number of four bytes, the highest first.
    #[tactic(auto, unfolding(crate::specs::Reading::read_u32))]
    pub fn u32(&mut self) -> Result<u32, WireFault>
        ensures read { IfOk result (λ n. read_u32 self.old ≡ Ok (n, self.new)) }
        ensures spelled { IfOk result (λ n. self.old.rest ≡ spell_u32 n ++ self.new.rest) }
        ensures fault { IfErr result (λ e. (read_u32 self.old ≡ Err e) × (self.new ≡ self.old)) }
    {
        let front = self.take(4)?;
        Ok(u32_of(front))
    }

    /// Reads a number of eight bytes, the highest first.
    #[tactic(auto, unfolding(crate::specs::Reading::read_u64))]
    pub fn u64(&mut self) -> Result<u64, WireFault>
        ensures read { IfOk result (λ n. read_u64 self.old ≡ Ok (n, self.new)) }
        ensures spelled { IfOk result (λ n. self.old.rest ≡ spell_u64 n ++ self.new.rest) }
        ensures fault { IfErr result (λ e. (read_u64 self.old ≡ Err e) × (self.new ≡ self.old)) }
    {
        let front = self.take(8)?;
        Ok(u64_of(front))
    }

    /// Reads a byte, and answers OutOfRange where it is above the limit.
    #[tactic(auto, unfolding(crate::specs::Reading::read_tag, crate::specs::Reading::read_u8, crate::specs::Spelling::spell_u8))]
    pub fn tag(&mut self, limit: u8) -> Result<u8, WireFault>
        ensures read { IfOk result (λ n. read_tag limit self.old ≡ Ok (n, self.new)) }
        ensures spelled { IfOk result (λ n. self.old.rest ≡ spell_u8 n ++ self.new.rest) }
        ensures limited { IfOk result (λ n. n ≤ limit) }
        ensures fault { IfErr result (λ e. (read_tag limit self.old ≡ Err e) × (self.new ≡ self.old)) }
    {
        let front = self.front(1)?;
        let tag = front[0];
        if tag > limit {
            return Err(WireFault::OutOfRange(self.at));
        }
        self.pass(1);
        Ok(tag)
    }

    /// Reads bytes behind their number, eight bytes long: a part of the bytes that the reader was given.
    pub fn bytes(&mut self) -> Result<&'a [u8], WireFault>
        ensures read { IfOk result (λ bs. read_bytes self.old ≡ Ok (bs.now, self.new)) }
        ensures spelled { IfOk result (λ bs. self.old.rest ≡ spell_bytes bs.now ++ self.new.rest) }
        ensures fault { IfErr result (λ e. (read_bytes self.old ≡ Err e) × (self.new ≡ self.old)) }
    {
        let bytes = self.bytes_ahead()?;
        self.pass(8 + bytes.len());
        Ok(bytes)
    }

    /// Reads a text, which is spelled as its bytes are, and answers OutOfRange where they are not UTF-8.
    #[tactic(auto, using(crate::proofs::Forms::text_of_bytes, crate::proofs::Forms::no_text, crate::proofs::Forms::short_text), unfolding(crate::specs::Spelling::spell_text))]
    pub fn text(&mut self) -> Result<&'a str, WireFault>
        ensures read { IfOk result (λ text. read_text self.old ≡ Ok (text.now, self.new)) }
        ensures spelled { IfOk result (λ text. self.old.rest ≡ spell_text text.now ++ self.new.rest) }
        ensures fault { IfErr result (λ e. (read_text self.old ≡ Err e) × (self.new ≡ self.old)) }
    {
        let bytes = self.bytes_ahead()?;
        let text = str::from_utf8(bytes).map_err(|_| WireFault::OutOfRange(self.at))?;
        self.pass(8 + bytes.len());
        Ok(text)
    }

    /// Reads the 32 bytes of a digest.
    #[tactic(auto, unfolding(crate::specs::Reading::read_digest, crate::specs::Spelling::spell_digest))]
    pub fn digest(&mut self) -> Result<&'a [u8; 32], WireFault>
        ensures read { IfOk result (λ digest. read_digest self.old ≡ Ok (digest.now, self.new)) }
        ensures spelled { IfOk result (λ digest. self.old.rest ≡ spell_digest digest.now ++ self.new.rest) }
        ensures fault { IfErr result (λ e. (read_digest self.old ≡ Err e) × (self.new ≡ self.old)) }
    {
        let front = self.take(32)?;
        Ok(<&[u8; 32]>::try_from(front).unwrap())
    }

    /// Answers NotCanonical where bytes are left, and passes none over.
    #[tactic(auto, unfolding(crate::specs::Reading::read_end))]
    pub fn end(&mut self) -> Result<(), WireFault>
        ensures ended { result ≡ read_end self.old }
        ensures kept { self.new ≡ self.old }
    {
        if !self.rest.is_empty() {
            return Err(WireFault::NotCanonical(self.at));
        }
        Ok(())
    }

    // The bytes that the number before them asks for, none of them passed over yet.
    #[tactic(auto, unfolding(crate::specs::Reading::read_bytes, crate::specs::Reading::read_u64, crate::specs::Reading::read_front, crate::specs::Spelling::spell_bytes))]
    fn bytes_ahead(&self) -> Result<&'a [u8], WireFault>
        ensures read { IfOk result (λ bs. read_bytes self.now ≡ Ok (bs.now, past (8 + length bs.now) self.now)) }
        ensures spelled { IfOk result (λ bs. take (8 + length bs.now) self.now.rest ≡ spell_bytes bs.now) }
        ensures within { IfOk result (λ bs. 8 + length bs.now ≤ length self.now.rest) }
        ensures fault { IfErr result (λ e. read_bytes self.now ≡ Err e) }
    {
        let count = u64_of(self.front(8)?);
        let ahead = &self.rest[8..];
        if count > ahead.len() as u64 {
            return Err(WireFault::Short(self.at));
        }
        Ok(&ahead[..count as usize])
    }

    // The next bytes, none of them passed over yet.
    #[tactic(auto, unfolding(crate::specs::Reading::read_front))]
    fn front(&self, count: usize) -> Result<&'a [u8], WireFault>
        ensures front { IfOk result (λ front. read_front self.now.at count self.now ≡ Ok (front.now, past count self.now)) }
        ensures within { IfOk result (λ front. (front.now ≡ take count self.now.rest) × (count ≤ length self.now.rest)) }
        ensures short { IfErr result (λ e. read_front self.now.at count self.now ≡ Err e) }
    {
        if self.rest.len() < count {
            return Err(WireFault::Short(self.at));
        }
        Ok(&self.rest[..count])
    }

    // Passes the next bytes over.
    fn pass(&mut self, count: usize)
        requires { count ≤ length self.old.rest }
        ensures after { self.new ≡ past count self.old }
        ensures parts { self.old.rest ≡ take count self.old.rest ++ self.new.rest }
    {
        self.at += count;
        self.rest = &self.rest[count..];
    }

    // The next bytes, which are passed over.
    fn take(&mut self, count: usize) -> Result<&'a [u8], WireFault>
        ensures taken { IfOk result (λ front. read_front self.old.at count self.old ≡ Ok (front.now, self.new)) }
        ensures parts { IfOk result (λ front. (self.old.rest ≡ front.now ++ self.new.rest) × (length front.now ≡ count)) }
        ensures short { IfErr result (λ e. (read_front self.old.at count self.old ≡ Err e) × (self.new ≡ self.old)) }
    {
        let front = self.front(count)?;
        self.pass(count);
        Ok(front)
    }
}

// The number that eight bytes spell.
#[tactic(auto, unfolding(crate::specs::Spelling::spell_u64))]
fn u64_of(bytes: &[u8]) -> u64
    requires { length bytes.now ≡ 8 }
    ensures value { result ≡ from_be_bytes w64 bytes.now }
    ensures spelled { spell_u64 result ≡ bytes.now }
{
    u64::from_be_bytes([
        bytes[0], bytes[1], bytes[2], bytes[3], bytes[4], bytes[5], bytes[6], bytes[7],
    ])
}

// The number that four bytes spell.
#[tactic(auto, unfolding(crate::specs::Spelling::spell_u32))]
fn u32_of(bytes: &[u8]) -> u32
    requires { length bytes.now ≡ 4 }
    ensures value { result ≡ from_be_bytes w32 bytes.now }
    ensures spelled { spell_u32 result ≡ bytes.now }
{
    u32::from_be_bytes([bytes[0], bytes[1], bytes[2], bytes[3]])
}

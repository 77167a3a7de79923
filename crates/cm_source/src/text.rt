ghost use Rattle.std.specs.Prelude.{◌≡◌, ◌+◌, ◌^◌, ◌<◌, ℕ, [], ◌∷◌, ◌++◌, length, IfOk, MatchResult};
ghost use Rattle.std.specs.Str.{IsUtf8, IsValidUpTo};
ghost use Rattle.cm_source.specs.Places.{start, after};
ghost use Rattle.cm_source.specs.LogicalText.{marks_of, place_at, text_of};
ghost use Rattle.cm_source.specs.Drafts.{IsDraftOf};
ghost use Rattle.cm_source.specs.Faults.{IsTextFault};

use crate::draft::Draft;
use crate::places::Places;
use crate::position::{Position, place_after};
use crate::step::first_step;
use simdutf8::compat::from_utf8;
use std::alloc::{AllocError, Global};
use std::marker::Model;

/// Why a file has no text.
#[derive(Clone, Copy, Debug, PartialEq, Eq)]
pub enum TextFault {
    /// The file isn't UTF-8: its longest front that is has so many bytes.
    NotUtf8(u64),
    NoMemory,
}

impl From<AllocError> for TextFault {
    ghost use Rattle.cm_source.specs.declared.text.TextFault.{TextFault};
    ghost use Rattle.cm_source.specs.declared.text.TextFault.TheVariants.{NoMemory};

    ghost from_gives = { λ _ fault. fault ≡ NoMemory };

    fn from(_error: AllocError) -> TextFault {
        TextFault::NoMemory
    }
}

/// A file's text after translation phases 1 and 2 (C11 5.1.1.2): trigraphs are replaced, each carriage
/// return before a line feed is dropped, lines that end in a backslash are joined with the next, and
/// the last line is ended. Each byte keeps its place in the file.
#[derive(Drop)]
pub struct Text {
    bytes: String,
    places: Places,
}

impl Model for Text {
    ghost use Rattle.std.specs.Prelude.{◌≡◌, ◌+◌, length, string_bytes};
    ghost use Rattle.cm_source.specs.LogicalText.{Logical};

    ghost Value = { Logical };

    ghost view = { λ t. record { bytes = string_bytes t.bytes; places = t.places } };

    ghost invariant = { λ t. length t.places ≡ length (string_bytes t.bytes) + 1 };
}

/// The draft of the whole file, and the place of its end.
fn draft_of(alloc: Global, file: &[u8]) -> Result<(Draft, Position), AllocError>
    requires { IsUtf8 file.now }
    ensures { IfOk result (λ made. IsDraftOf (marks_of file.now) made.0 × (made.1 ≡ after start file.now)
        × IsUtf8 made.0.bytes.items × (length made.0.places + 1 < 2 ^ 64)) }
{
    let mut draft = Draft::new(alloc);
    let mut place = Position::START;
    let mut rest = file;
    while !rest.is_empty() {
        let step = first_step(rest);
        draft.add(step, place)?;
        let (passed, more) = rest.split_at(step.length);
        place = place_after(place, passed);
        rest = more;
    }
    draft.end_last_line(place)?;
    Ok((draft, place))
}

fn check_utf8(bytes: &[u8]) -> Result<(), TextFault>
    ensures { MatchResult result (λ _. IsUtf8 bytes.now)
        (λ fault. (n : ℕ) × (fault ≡ TextFault.NotUtf8 n) × IsValidUpTo bytes.now n) }
{
    match from_utf8(bytes) {
        Ok(_) => Ok(()),
        Err(error) => Err(TextFault::NotUtf8(error.valid_up_to() as u64)),
    }
}

impl Text {
    /// The text of a file.
    pub fn read(alloc: Global, bytes: &[u8]) -> Result<Text, TextFault>
        ensures { MatchResult result (λ text. IsUtf8 bytes.now × (text ≡ text_of bytes.now))
            (IsTextFault bytes.now) }
    {
        check_utf8(bytes)?;
        let (draft, end) = draft_of(alloc, bytes)?;
        Ok(Text::from_draft(draft, end)?)
    }

    fn from_draft(draft: Draft, end: Position) -> Result<Text, AllocError>
        requires utf8 { IsUtf8 draft.bytes.items }
        requires room { length draft.places + 1 < 2 ^ 64 }
        requires even { length draft.places ≡ length draft.bytes.items }
        ensures { IfOk result (λ text. (text.bytes ≡ draft.bytes.items) × (text.places ≡ draft.places ++ end ∷ [])) }
    {
        let Draft { bytes, mut places } = draft;
        places.push(end)?;
        let bytes = String::from_utf8(bytes).unwrap();
        Ok(Text { bytes, places })
    }

    /// The bytes of the text. They are UTF-8, and end with a line feed unless there are none.
    pub fn bytes(&self) -> &[u8]
        ensures value { result.now ≡ self.now.bytes }
        ensures utf8 { IsUtf8 result.now }
    {
        self.bytes.as_bytes()
    }

    /// The text as a `&str`.
    pub fn as_str(&self) -> &str
        ensures { result.now ≡ self.now.bytes }
    {
        self.bytes.as_str()
    }

    /// Line and column in the file of the text's byte number `at`, from 0, or of the file's end where
    /// the text has no more bytes. Both count from 1, the column in bytes; a count past 2^32 - 1 is
    /// given as 2^32 - 1.
    pub fn place(&self, at: usize) -> (u32, u32)
        ensures { result ≡ ((place_at self.now at).line, (place_at self.now at).column) }
    {
        let place = self.places.get(at.min(self.bytes.len()));
        (place.line, place.column)
    }
}

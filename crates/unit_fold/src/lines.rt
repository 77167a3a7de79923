ghost use Rattle.std.specs.Prelude.{◌≡◌, ◌<◌, ◌≤◌, ◌-◌, [], ◌∷◌, length, drop, Some, None, MatchOption, IfOk, IfSome, Result as Outcome};
ghost use Rattle.std.specs.Result.{result_ok};
ghost use Rattle.cm_core.specs.Paths.{IsUnlessMemory};
ghost use Rattle.cm_core.specs.declared.path.PathFault.{PathFault as PathError};
ghost use Rattle.cm_outside.specs.Trees.{Path};
ghost use Rattle.unit_fold.specs.Names.{is_name as is_name_of, is_path_text as is_path_text_of};
ghost use Rattle.std.specs.Option.{option_copied};
ghost use Rattle.unit_fold.specs.Lines.{lines as lines_of, after_front as after_front_of, before_back as before_back_of, between as middle_of, path_after as path_after_of, first_word_len as first_word_len_of, when, read_line, GivesFront};

use crate::line_fault::LineFault;
use crate::names::{is_name, is_path_text, is_word_byte};
use cm_core::{NoMemory, PathFault, PathText};
use memchr::memchr;
use std::alloc::Global;

/// The first line of a text, without its line end, and the text that follows.
pub fn take_line(text: &[u8]) -> Option<(&[u8], &[u8])>
    ensures line { MatchOption result (text.now ≡ []) (λ parts. lines_of text.now ≡ parts.0.now ∷ lines_of parts.1.now) }
    ensures shorter { MatchOption result (text.now ≡ []) (λ parts. length parts.1.now < length text.now) }
    ensures rest { MatchOption result (text.now ≡ []) (λ parts. parts.1.now ≡ drop (length text.now - length parts.1.now) text.now) }
{
    if text.is_empty() {
        return None;
    }
    match memchr(b'\n', text) {
        Some(end) => Some((&text[..end], &text[end + 1..])),
        None => Some((text, &text[text.len()..])),
    }
}

/// What follows a front of a line.
pub fn after_front<'a>(line: &'a [u8], front: &[u8]) -> Option<&'a [u8]>
    ensures { option_copied result ≡ after_front_of front.now line.now }
{
    line.strip_prefix(front)
}

/// What stands before a back of a line.
fn before_back<'a>(line: &'a [u8], back: &[u8]) -> Option<&'a [u8]>
    ensures { option_copied result ≡ before_back_of back.now line.now }
{
    line.strip_suffix(back)
}

/// The middle of a line that is made of this front, a middle and this back.
pub fn between<'a>(line: &'a [u8], front: &[u8], back: &[u8]) -> Option<&'a [u8]>
    ensures { option_copied result ≡ middle_of front.now back.now line.now }
{
    before_back(after_front(line, front)?, back)
}

/// A text that may name a file.
pub fn path_text(text: &[u8]) -> Option<&str>
    ensures { option_copied result ≡ when (is_path_text_of text.now) text.now }
{
    if !is_path_text(text) {
        return None;
    }
    match str::from_utf8(text) {
        Ok(text) => Some(text),
        Err(_) => unreachable!(),
    }
}

/// A name that may be declared.
pub fn name_text(name: &[u8]) -> Option<&str>
    ensures name { option_copied result ≡ when (is_name_of name.now) name.now }
    ensures small { IfSome result (λ name. length name.now ≤ 4096) }
{
    if !is_name(name) {
        return None;
    }
    match str::from_utf8(name) {
        Ok(name) => Some(name),
        Err(_) => unreachable!(),
    }
}

/// The length of the first word of a text.
pub fn first_word_len(text: &[u8]) -> usize
    ensures word { result ≡ first_word_len_of text.now }
    ensures within { result ≤ length text.now }
{
    text.iter().take_while(|c| is_word_byte(**c)).count()
}

/// The path that a read or a join gives, where it is one.
pub fn path_or_none(path: Result<PathText, PathFault>) -> Result<Option<PathText>, NoMemory>
    ensures { (wanted : Outcome Path PathError) → IsUnlessMemory path wanted → IfOk result (λ p. p ≡ result_ok wanted) }
{
    match path {
        Ok(path) => Ok(Some(path)),
        Err(PathFault::NoMemory) => Err(NoMemory),
        Err(_) => Ok(None),
    }
}

/// The path that stands after a front of a line.
pub fn path_after(alloc: Global, line: &[u8], front: &[u8]) -> Result<Option<PathText>, NoMemory>
    ensures { IfOk result (λ p. p ≡ path_after_of front.now line.now) }
{
    let Some(text) = after_front(line, front) else {
        return Ok(None);
    };
    let Some(text) = path_text(text) else {
        return Ok(None);
    };
    path_or_none(PathText::read(alloc, text))
}

/// The lines of a text that are left.
#[derive(Drop)]
pub struct Lines<'a> {
    rest: &'a [u8],
}

impl<'a> Lines<'a> {
    pub fn new(text: &'a [u8]) -> Lines<'a>
        ensures { result.rest.now ≡ text.now }
    {
        Lines { rest: text }
    }

    pub fn next(&mut self) -> Option<&'a [u8]>
        ensures { MatchOption result ((self.old.rest.now ≡ []) × (self.new.rest.now ≡ [])) (λ line. lines_of self.old.rest.now ≡ line.now ∷ lines_of self.new.rest.now) }
    {
        let (line, rest) = take_line(self.rest)?;
        self.rest = rest;
        Some(line)
    }

    /// The path after this front of the next line, which is line `number`.
    pub fn path(&mut self, alloc: Global, number: u32, front: &[u8]) -> Result<PathText, LineFault>
        ensures { GivesFront (read_line number (path_after_of front.now) (lines_of self.old.rest.now)) (lines_of self.new.rest.now) result }
    {
        let Some(line) = self.next() else {
            return Err(LineFault::At(1));
        };
        match path_after(alloc, line, front)? {
            Some(path) => Ok(path),
            None => Err(LineFault::At(number)),
        }
    }
}

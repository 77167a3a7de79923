ghost use Rattle.std.specs.Prelude.{◌≡◌, ◌<◌, length, position, reverse, IfSome, MatchOption};
ghost use Rattle.std.specs.Char.{is_ascii_digit};
ghost use Rattle.std.specs.List.{list_all};
ghost use Rattle.std.specs.Option.{option_copied};
ghost use Rattle.std.specs.Str.{IsCharBoundary};
ghost use Rattle.job_text.specs.Answers.{Gives};
ghost use Rattle.job_text.specs.Fields.{after_mark, before_mark, field_of, is_blank as is_blank_of, is_digits as is_digits_of, is_padded as is_padded_of, is_passed_over as is_passed_over_of, keyword_of, number_of, path_field as path_field_of, trimmed, without_blanks};

use crate::bytes::byte_at;
use crate::fault::{JobKind, LineFault};
use cm_core::{PathFault, PathText};
use std::alloc::Global;

/// Whether the byte is a space or a tab.
fn is_blank(byte: u8) -> bool
    ensures { result ≡ is_blank_of byte }
{
    byte == b' ' || byte == b'\t'
}

/// The text without one blank at its start, where it has one.
fn strip_first_blank(text: &str) -> Option<&str>
    ensures { MatchOption result (without_blanks text.now ≡ text.now)
        (λ rest. (without_blanks text.now ≡ without_blanks rest.now) × (length rest.now < length text.now)) }
{
    match text.strip_prefix(' ') {
        Some(rest) => Some(rest),
        None => text.strip_prefix('\t'),
    }
}

/// The text without one blank at its end, where it has one.
fn strip_last_blank(text: &str) -> Option<&str>
    ensures { MatchOption result (without_blanks (reverse text.now) ≡ reverse text.now)
        (λ rest. (without_blanks (reverse text.now) ≡ without_blanks (reverse rest.now)) × (length rest.now < length text.now)) }
{
    match text.strip_suffix(' ') {
        Some(rest) => Some(rest),
        None => text.strip_suffix('\t'),
    }
}

/// The text from its first byte on that is no blank.
fn trim_start(text: &str) -> &str
    ensures { result.now ≡ without_blanks text.now }
{
    let mut rest = text;
    while let Some(more) = strip_first_blank(rest) {
        rest = more;
    }
    rest
}

/// The text up to its last byte that is no blank.
fn trim_end(text: &str) -> &str
    ensures { result.now ≡ reverse (without_blanks (reverse text.now)) }
{
    let mut rest = text;
    while let Some(more) = strip_last_blank(rest) {
        rest = more;
    }
    rest
}

/// The line without the blanks at its ends.
pub(crate) fn trim(line: &str) -> &str
    ensures { result.now ≡ trimmed line.now }
{
    trim_end(trim_start(line))
}

/// Whether the line is empty or a comment.
pub(crate) fn is_passed_over(line: &str) -> bool
    ensures { result ≡ is_passed_over_of line.now }
{
    line.is_empty() || byte_at(line.as_bytes(), 0) == b'#'
}

/// The place of the first blank.
fn first_blank(line: &[u8]) -> Option<usize>
    ensures place { result ≡ position is_blank_of line.now }
    ensures boundary { IfSome result (IsCharBoundary line.now) }
{
    line.iter().position(|byte| is_blank(*byte))
}

/// The keyword of a line, up to its first blank, and the field that follows after blanks.
pub(crate) fn cut_keyword(line: &str) -> (&str, &str)
    ensures keyword { result.0.now ≡ keyword_of line.now }
    ensures field { result.1.now ≡ field_of line.now }
{
    match first_blank(line.as_bytes()) {
        Some(end) => (&line[..end], trim_start(&line[end..])),
        None => (line, ""),
    }
}

/// The text before the first `mark`, and what follows it, where there is one.
pub(crate) fn cut_at(text: &str, mark: char) -> (&str, Option<&str>)
    requires { mark < 128 }
    ensures front { result.0.now ≡ before_mark mark text.now }
    ensures rest { option_copied result.1 ≡ after_mark mark text.now }
{
    match text.split_once(mark) {
        Some((front, rest)) => (front, Some(rest)),
        None => (text, None),
    }
}

/// The path that a field names.
pub(crate) fn path_field(alloc: Global, text: &str) -> Result<PathText, LineFault>
    ensures { Gives (path_field_of text.now) result }
{
    match PathText::read(alloc, text) {
        Ok(path) => Ok(path),
        Err(PathFault::NoMemory) => Err(LineFault::NoMemory),
        Err(_) => Err(LineFault::Bad(JobKind::Path)),
    }
}

fn has_digits_alone(text: &[u8]) -> bool
    ensures { result ≡ list_all is_ascii_digit text.now }
{
    text.iter().all(|byte| byte.is_ascii_digit())
}

fn is_digits(text: &[u8]) -> bool
    ensures { result ≡ is_digits_of text.now }
{
    !text.is_empty() && has_digits_alone(text)
}

/// Whether a zero stands before other digits.
fn is_padded(digits: &[u8]) -> bool
    ensures { result ≡ is_padded_of digits.now }
{
    digits.len() > 1 && byte_at(digits, 0) == b'0'
}

/// The number that a field spells: decimal digits, below 2^64.
pub(crate) fn number(text: &str) -> Option<u64>
    ensures { result ≡ number_of text.now }
{
    let digits = text.as_bytes();
    if !is_digits(digits) || is_padded(digits) {
        return None;
    }
    text.parse::<u64>().ok()
}

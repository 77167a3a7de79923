ghost use Rattle.std.specs.Prelude.{◌≡◌, ◌<◌, ◌≤◌, length, slice_index};
ghost use Rattle.cm_source.specs.LogicalText.{trigraph, trigraph_meaning};
ghost use Rattle.cm_source.specs.Steps.{IsFirst, IsLineEnd, IsStep};

/// A byte of the text before splices are deleted, and how many bytes of the file it stands for.
#[derive(Clone, Copy)]
pub(crate) struct First {
    byte: u8,
    length: usize,
}

/// What the next `length` bytes of a file give to its text: a byte or nothing.
#[derive(Clone, Copy)]
pub(crate) struct Step {
    pub(crate) byte: Option<u8>,
    pub(crate) length: usize,
}

/// The byte that `??` and `third` stand for, if they are a trigraph.
#[tactic(auto, unfolding(crate::specs::LogicalText::trigraph_meaning))]
fn trigraph_meaning(third: u8) -> Option<u8>
    ensures { result ≡ trigraph_meaning third }
{
    match third {
        b'=' => Some(b'#'),
        b'(' => Some(b'['),
        b'/' => Some(b'\\'),
        b')' => Some(b']'),
        b'\'' => Some(b'^'),
        b'<' => Some(b'{'),
        b'!' => Some(b'|'),
        b'>' => Some(b'}'),
        b'-' => Some(b'~'),
        _ => None,
    }
}

/// The byte number `at`, or 0 past the end.
fn byte_at(bytes: &[u8], at: usize) -> u8
    ensures { result ≡ slice_index bytes.now at }
{
    if at < bytes.len() { bytes[at] } else { 0 }
}

/// The byte that the first three bytes stand for, if they are a trigraph.
fn leading_trigraph(rest: &[u8]) -> Option<u8>
    ensures { result
        ≡ trigraph (slice_index rest.now 0) (slice_index rest.now 1) (slice_index rest.now 2) }
{
    if byte_at(rest, 0) == b'?' && byte_at(rest, 1) == b'?' {
        trigraph_meaning(byte_at(rest, 2))
    } else {
        None
    }
}

fn first_byte(rest: &[u8]) -> First
    requires { 0 < length rest.now }
    ensures { IsFirst rest.now result }
{
    match leading_trigraph(rest) {
        Some(byte) => First { byte, length: 3 },
        None => First {
            byte: rest[0],
            length: 1,
        },
    }
}

/// The length of the line end that the bytes begin with, 0 if there is none.
fn line_end_length(rest: &[u8]) -> usize
    ensures { IsLineEnd rest.now result }
{
    if byte_at(rest, 0) == b'\n' {
        return 1;
    }
    if byte_at(rest, 0) == b'\r' && byte_at(rest, 1) == b'\n' {
        return 2;
    }
    0
}

/// The first step through the bytes.
pub(crate) fn first_step(rest: &[u8]) -> Step
    requires { 0 < length rest.now }
    ensures { IsStep rest.now result }
{
    let first = first_byte(rest);
    let (_, after) = rest.split_at(first.length);
    if first.byte == b'\r' && byte_at(after, 0) == b'\n' {
        return Step {
            byte: None,
            length: first.length,
        };
    }
    let line_end = line_end_length(after);
    if first.byte == b'\\' && line_end > 0 {
        return Step {
            byte: None,
            length: first.length + line_end,
        };
    }
    Step {
        byte: Some(first.byte),
        length: first.length,
    }
}

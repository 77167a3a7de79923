ghost use Rattle.std.specs.Prelude.{◌≡◌};
ghost use Rattle.cm_source.specs.Places.{start, after, shifted};

/// A place in a file: line and column, both from 1, columns in bytes. A count past 2^32 - 1 is given
/// as 2^32 - 1.
#[derive(Clone, Copy, Debug, PartialEq, Eq)]
pub struct Position {
    pub line: u32,
    pub column: u32,
}

impl Position {
    /// The place of a file's first byte.
    pub(crate) const START: Position = Position { line: 1, column: 1 };
}

/// The place after the bytes `passed`, which begin at `place`.
pub(crate) fn place_after(place: Position, passed: &[u8]) -> Position
    ensures { result ≡ after place passed.now }
{
    let mut line = place.line;
    let mut column = place.column;
    for byte in passed {
        if *byte == b'\n' {
            line = line.saturating_add(1);
            column = 1;
        } else {
            column = column.saturating_add(1);
        }
    }
    Position { line, column }
}

/// The place `count` bytes after `place` in its line.
pub(crate) fn shifted_place(place: Position, count: usize) -> Position
    ensures { result ≡ shifted place count }
{
    let columns = u32::try_from(count).unwrap_or(u32::MAX);
    Position {
        line: place.line,
        column: place.column.saturating_add(columns),
    }
}

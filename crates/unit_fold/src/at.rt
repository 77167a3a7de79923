ghost use Rattle.std.specs.Prelude.{◌≡◌};
ghost use Rattle.unit_fold.specs.Tokens.{place_at};
ghost use Rattle.unit_fold.specs.Owners.{start};

use cm_core::Place;

/// A place in the file of an owner's text. Line and column count from 1, and columns count bytes.
#[derive(Clone, Copy, Debug, PartialEq, Eq)]
pub struct At {
    pub line: u32,
    pub column: u32,
}

impl At {
    /// The place of a file's first byte.
    pub(crate) fn start() -> At
        ensures { result ≡ start }
    {
        At { line: 1, column: 1 }
    }

    pub(crate) fn of(place: Place) -> At
        ensures { result ≡ place_at place }
    {
        At {
            line: place.line,
            column: place.col,
        }
    }
}

ghost use Rattle.c_lex.specs.Readings.{IsPlace};

use crate::at::At;
use cm_source::Text;

/// Where a fold stands still at an include.
#[derive(Drop)]
pub struct IncludeAt {
    /// The place of the `#`.
    pub at: At,
    /// The whole text that has the directive.
    pub text: Text,
    /// Where the text goes on behind the directive, in bytes from 0.
    pub next: usize,
    ghost within: { IsPlace text next },
}

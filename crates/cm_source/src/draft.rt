ghost use Rattle.std.specs.Prelude.{◌≡◌, ◌+◌, ◌^◌, ◌<◌, List, [], ◌∷◌, ◌++◌, length, IsTrue, ◌↔◌, OnOk};
ghost use Rattle.cm_source.specs.LogicalText.{Mark, ended};
ghost use Rattle.cm_source.specs.Steps.{given};
ghost use Rattle.cm_source.specs.Drafts.{IsDraftOf, IsOpen};

use crate::places::Places;
use crate::position::Position;
use crate::step::Step;
use std::alloc::{AllocError, Global};

/// The front of a text, with the places of its bytes.
#[derive(Drop)]
pub(crate) struct Draft {
    pub(crate) bytes: Vec<u8>,
    pub(crate) places: Places,
}

impl Draft {
    pub(crate) fn new(alloc: Global) -> Draft
        ensures { IsDraftOf [] result }
    {
        Draft {
            bytes: Vec::new(alloc),
            places: Places::new(alloc),
        }
    }

    fn push(&mut self, byte: u8, place: Position) -> Result<(), AllocError>
        requires { length self.old.places + 1 < 2 ^ 64 }
        ensures { (marks : List Mark) → IsDraftOf marks self.old
            → OnOk result (IsDraftOf (marks ++ record { byte = byte; place = place } ∷ []) self.new) }
    {
        self.bytes.push(byte)?;
        self.places.push(place)
    }

    /// Adds what the step at `place` gives.
    pub(crate) fn add(&mut self, step: Step, place: Position) -> Result<(), AllocError>
        requires { length self.old.places + 1 < 2 ^ 64 }
        ensures { (marks : List Mark) → IsDraftOf marks self.old
            → OnOk result (IsDraftOf (marks ++ given place step.byte) self.new) }
    {
        match step.byte {
            Some(byte) => self.push(byte, place),
            None => Ok(()),
        }
    }

    /// Gives the last line its line feed, at the place `end`, where it has none.
    pub(crate) fn end_last_line(&mut self, end: Position) -> Result<(), AllocError>
        requires { length self.old.places + 1 < 2 ^ 64 }
        ensures { (marks : List Mark) → IsDraftOf marks self.old
            → OnOk result (IsDraftOf (ended end marks) self.new) }
    {
        if has_open_line(&self.bytes) {
            self.push(b'\n', end)
        } else {
            Ok(())
        }
    }
}

/// Whether the bytes have a last line without its line feed.
fn has_open_line(bytes: &[u8]) -> bool
    ensures { IsTrue result ↔ IsOpen bytes.now }
{
    match bytes.last() {
        Some(byte) => *byte != b'\n',
        None => false,
    }
}

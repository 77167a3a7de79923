ghost use Rattle.std.specs.Prelude.{◌≡◌, ◌+◌, ◌^◌, ◌<◌, ◌≤◌, ℕ, [], ◌∷◌, ◌++◌, length, OnOk, OnErr, IsTrue, slice_index_or};
ghost use Rattle.cm_source.specs.Places.{start};
ghost use Rattle.cm_source.specs.Runs.{located, AllFromBelow};

use crate::position::{Position, shifted_place};
use std::alloc::{AllocError, Global};
use std::marker::Model;

/// Places in a row from number `from` on, up to the next run: `first`, and then each a column further.
#[derive(Clone, Copy)]
pub(crate) struct Run {
    from: usize,
    first: Position,
}

/// A list of places, kept as its runs, so that it costs one entry where a line begins or where bytes
/// of the file are left out, and none for each byte.
#[derive(Drop)]
pub(crate) struct Places {
    runs: Vec<Run>,
    count: usize,
}

impl Model for Places {
    ghost use Rattle.std.specs.Prelude.{List};
    ghost use Rattle.cm_source.specs.declared.position.Position.{Position};
    ghost use Rattle.cm_source.specs.Runs.{places_of, AreRuns};

    ghost Value = { List Position };

    ghost view = { λ p. places_of p.runs.items p.count };

    ghost invariant = { λ p. AreRuns p.runs.items p.count };
}

/// Whether the last of the runs, going on, has `place` as its place number `count`.
fn goes_on(runs: &[Run], count: usize, place: Position) -> bool
    requires { AllFromBelow runs.now count }
    ensures some { IsTrue result → 0 < length runs.now }
    ensures place { IsTrue result → located start runs.now count ≡ place }
{
    match runs.last() {
        Some(run) => shifted_place(run.first, count - run.from) == place,
        None => false,
    }
}

impl Places {
    pub(crate) fn new(alloc: Global) -> Places
        ensures { result ≡ [] }
    {
        Places {
            runs: Vec::new(alloc),
            count: 0,
        }
    }

    pub(crate) fn push(&mut self, place: Position) -> Result<(), AllocError>
        requires { length self.old + 1 < 2 ^ 64 }
        ensures ok { OnOk result (self.new ≡ self.old ++ place ∷ []) }
        ensures err { OnErr result (self.new ≡ self.old) }
    {
        if goes_on(&self.runs, self.count, place) {
            self.count += 1;
            return Ok(());
        }
        self.runs.push(Run {
            from: self.count,
            first: place,
        })?;
        self.count += 1;
        Ok(())
    }

    /// The place number `at`, from 0.
    pub(crate) fn get(&self, at: usize) -> Position
        requires { at < length self.now }
        ensures { result ≡ slice_index_or self.now at start }
    {
        let after = self.runs.partition_point(|run| run.from <= at);
        let run = self.runs[after - 1];
        shifted_place(run.first, at - run.from)
    }
}

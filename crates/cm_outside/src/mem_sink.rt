ghost use Rattle.std.specs.Prelude.{◌≡◌, ◌+◌, ◌-◌, ◌^◌, ◌≤◌, ◌<◌, ℕ, min, [], length, take, ◌++◌, IfOk, OnErr, Some, IsErrOf, ◌==◌};
ghost use Rattle.cm_outside.specs.Faults.{HasCause};
ghost use Rattle.cm_outside.specs.InMemory.{FailingSink, CountsFaults, FailsWhereTold, one_more};

use crate::{Sink, SinkFault};
use cm_core::List;
use std::alloc::Global;
use std::marker::Model;

/// A sink in memory, which takes a limited piece a call and fails where it is told to.
#[derive(Drop)]
pub struct MemSink {
    bytes: Vec<u8>,
    fails: List<u64>,
    piece: usize,
    calls: u64,
    faults: u64,
}

impl Model for MemSink {
    ghost Value = { FailingSink };

    ghost view = { λ s. record { bytes = s.bytes.items; fails = s.fails; piece = s.piece; calls = s.calls; faults = s.faults } };

    ghost invariant = { λ s. 1 ≤ s.piece };
}

impl MemSink {
    /// An empty sink that takes at most `piece` bytes a call. The calls whose numbers stand in
    /// `fails`, from 1, fail.
    pub fn new(alloc: Global, fails: List<u64>, piece: usize) -> MemSink
        requires { 1 ≤ piece }
        ensures { result ≡ record { bytes = []; fails = fails; piece = piece; calls = 0; faults = 0 } }
    {
        MemSink {
            bytes: Vec::new(alloc),
            fails,
            piece,
            calls: 0,
            faults: 0,
        }
    }

    /// The bytes taken so far.
    pub fn bytes(&self) -> &[u8]
        ensures { result.now ≡ self.now.bytes }
    {
        &self.bytes
    }

    /// How many calls of the trait there were; it stays at its last value.
    pub fn calls(&self) -> u64
        ensures { result ≡ self.now.calls }
    {
        self.calls
    }
}

impl Sink for MemSink {
    ghost taken = { λ s. Some s.bytes };

    ghost faults = { λ s. s.faults };

    fn write(&mut self, bytes: &[u8]) -> Result<usize, SinkFault>
        ensures within { IfOk result (λ n. n ≤ length bytes.now) }
        ensures some { IfOk result (λ n. 0 < length bytes.now → 0 < n) }
        ensures takes { IfOk result (λ n. self.new.bytes ≡ self.old.bytes ++ take n bytes.now) }
        ensures refused { OnErr result (self.new.bytes ≡ self.old.bytes) }
        ensures cause { HasCause self.old.faults self.new.faults result SinkFault.Failed }
        ensures piece { IfOk result (λ n. n ≡ min (length bytes.now) self.old.piece) }
        ensures fails { FailsWhereTold self.old.fails (one_more self.old.calls) result SinkFault.Failed }
        ensures faults { CountsFaults self.old.faults self.new.faults result SinkFault.Failed }
        ensures others { self.new ≡ record self.old { bytes = self.new.bytes; calls = one_more self.old.calls; faults = self.new.faults } }
    {
        self.calls = self.calls.saturating_add(1);
        if self.fails.items().contains(&self.calls) {
            self.faults = self.faults.saturating_add(1);
            return Err(SinkFault::Failed);
        }
        let taken = bytes.len().min(self.piece);
        self.bytes.extend_from_slice(&bytes[..taken])?;
        Ok(taken)
    }
}

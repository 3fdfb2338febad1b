//! A sink in memory.

ghost use Rattle.std.specs.Prelude.{◌≡◌, [], IfOk, IsTrue, true};
ghost use Rattle.suit_edge.specs.Faults.{EdgeCounts};
ghost use Rattle.suit_edge.specs.Sink.{Puts};
ghost use Rattle.suit_edge.specs.Calls.{uncalled};
ghost use Rattle.suit_edge.specs.MemorySink.{PutsExactly, SinkState};

use crate::calls::Calls;
use crate::{Edge, Sink};
use det_cbor::Bytes;
use std::alloc::{AllocError, Global};
use std::marker::Model;

/// A sink that keeps what is put. A put that fails adds nothing.
#[derive(Debug, Drop)]
pub struct MemorySink {
    put: Bytes,
    calls: Calls,
}

impl Model for MemorySink {
    ghost Value = { SinkState };

    ghost view = { λ s. record { put = s.put; calls = s.calls } };
}

impl MemorySink {
    /// An empty sink. The calls of `put` are counted from 0, and those whose numbers are in `fails`
    /// fail.
    pub fn new(alloc: Global, fails: &[u64]) -> Result<MemorySink, AllocError>
        ensures { IfOk result (λ sink. sink ≡ record { put = []; calls = uncalled fails.now }) }
    {
        Ok(MemorySink {
            put: Bytes::new(alloc),
            calls: Calls::new(alloc, fails)?,
        })
    }

    /// The bytes put so far.
    pub fn bytes(&self) -> &[u8]
        ensures { result.now ≡ self.now.put }
    {
        self.put.as_slice()
    }

    /// How many calls failed because memory ran out.
    pub fn starved(&self) -> u64
        ensures { result ≡ self.now.calls.starved }
    {
        self.calls.starved()
    }
}

impl Sink for MemorySink {
    ghost told = { true };

    ghost put_bytes = { λ s. s.put };

    ghost faults = { λ s. s.calls.faults };

    fn put(&mut self, piece: &[u8]) -> Edge
        ensures puts { IsTrue true → Puts result self.old.put self.new.put piece.now }
        ensures counts { EdgeCounts result self.old.calls.faults self.new.calls.faults }
        ensures exact { PutsExactly result self.old self.new piece.now }
    {
        if self.calls.next_fails() {
            return Edge::Failed;
        }
        if self.put.extend(piece).is_err() {
            self.calls.starve();
            return Edge::Failed;
        }
        Edge::Done
    }
}

//! A host in memory.

ghost use Rattle.std.specs.Prelude.{◌≡◌, ◌≢◌, ◌≤◌, ◌+◌, [], ◌∷◌, ◌++◌, ℕ, List, length, true, IfOk, IsTrue, OnOk, OnErr};
ghost use Rattle.suit_edge.specs.Faults.{EdgeCounts};
ghost use Rattle.suit_edge.specs.Host.{StartAsks, StartCounts, Starts, PullCounts, Pulls, count_of, Stores};
ghost use Rattle.suit_edge.specs.Calls.{Succeeds, CallFails};
ghost use Rattle.suit_edge.specs.MemoryHost.{
  HostState,
  file_in,
  with_file,
  empty_host,
  Begins,
  StartsExactly,
  PullsExactly,
  StoresExactly,
};

use crate::calls::Calls;
use crate::file_table::{FileTable, find, set};
use crate::rest::Rest;
use crate::{Edge, Host, Pulled, Started};
use det_cbor::{Bytes, Names, Text};
use std::alloc::{AllocError, Global};
use std::marker::Model;

/// A host that keeps its files in memory. A call that fails changes nothing but the counts of
/// calls.
#[derive(Debug, Drop)]
pub struct MemoryHost {
    alloc: Global,
    files: FileTable,
    rest: Rest,
    pulled: u64,
    asked: Names,
    calls: Calls,
}

impl Model for MemoryHost {
    ghost Value = { HostState };

    ghost view = { λ h.
        record {
          files = h.files.items;
          rest = h.rest;
          pulled = h.pulled;
          asked = h.asked;
          calls = h.calls;
        } };
}

impl MemoryHost {
    /// A host without files. The calls of `Host` are counted from 0, and those whose numbers are in
    /// `fails` fail.
    pub fn new(alloc: Global, fails: &[u64]) -> Result<MemoryHost, AllocError>
        ensures { IfOk result (λ host. host ≡ empty_host fails.now) }
    {
        Ok(MemoryHost {
            alloc,
            files: FileTable::new(alloc),
            rest: Rest::new(Bytes::new(alloc)),
            pulled: 0,
            asked: Names::new(alloc),
            calls: Calls::new(alloc, fails)?,
        })
    }

    /// Adds a file, or replaces the bytes of the file with this name. This is not a call of `Host`,
    /// and is not counted.
    pub fn add(&mut self, name: &str, bytes: &[u8]) -> Result<(), AllocError>
        ensures ok { OnOk result
            (self.new ≡ record self.old { files = with_file self.old.files name.now bytes.now }) }
        ensures err { OnErr result (self.new ≡ self.old) }
    {
        set(self.alloc, &mut self.files, name, bytes)
    }

    // Starts a file and records its name.
    fn begin(&mut self, name: &str) -> Result<Started, AllocError>
        ensures ok { IfOk result (λ started. Begins started self.old self.new name.now) }
        ensures err { OnErr result (self.new ≡ self.old) }
    {
        let (started, bytes) = match find(self.files.as_slice(), name) {
            None => (Started::Absent, Bytes::new(self.alloc)),
            Some(bytes) => (Started::Done, bytes.copy(self.alloc)?),
        };
        self.asked.push(Text::from_str(self.alloc, name)?)?;
        self.rest = Rest::new(bytes);
        Ok(started)
    }

    /// How many calls failed because memory ran out.
    pub fn starved(&self) -> u64
        ensures { result ≡ self.now.calls.starved }
    {
        self.calls.starved()
    }
}

impl Host for MemoryHost {
    ghost told = { true };

    ghost file = { λ h name. file_in h.files name };

    ghost rest = { λ h. h.rest };

    ghost pulled = { λ h. h.pulled };

    ghost asked = { λ h. h.asked };

    ghost faults = { λ h. h.calls.faults };

    fn start(&mut self, name: &str) -> Started
        ensures files { IsTrue true → self.new.files ≡ self.old.files }
        ensures pulled { IsTrue true → self.new.pulled ≡ self.old.pulled }
        ensures starts { IsTrue true
            → Starts result (file_in self.old.files name.now) self.new.rest }
        ensures asked { IsTrue true → StartAsks result name.now self.old.asked self.new.asked }
        ensures counts { StartCounts result self.old.calls.faults self.new.calls.faults }
        ensures exact { StartsExactly result self.old self.new name.now }
    {
        if self.calls.next_fails() {
            return Started::Failed;
        }
        match self.begin(name) {
            Ok(started) => started,
            Err(_) => {
                self.calls.starve();
                Started::Failed
            }
        }
    }

    /// If the count of bytes does not fit 64 bits, the call fails as if memory had run out.
    fn pull(&mut self, room: &mut [u8]) -> Pulled
        ensures fits { count_of result ≤ length room.old }
        ensures files { IsTrue true → self.new.files ≡ self.old.files }
        ensures pulled { IsTrue true → self.new.pulled ≡ self.old.pulled + count_of result }
        ensures pulls { IsTrue true → Pulls result self.old.rest self.new.rest room.old room.new }
        ensures asked { IsTrue true → self.new.asked ≡ self.old.asked }
        ensures counts { PullCounts result self.old.calls.faults self.new.calls.faults }
        ensures exact { PullsExactly result self.old self.new room.old room.new }
    {
        if self.calls.next_fails() {
            return Pulled::Failed;
        }
        let count = self.rest.len().min(room.len());
        match self.pulled.checked_add(count as u64) {
            Some(pulled) => {
                self.pulled = pulled;
                Pulled::Got(self.rest.pull(room))
            }
            None => {
                self.calls.starve();
                Pulled::Failed
            }
        }
    }

    #[tactic(auto, using(crate::proofs::FileTables::has_new_bytes, crate::proofs::FileTables::keeps_other_files))]
    fn store(&mut self, name: &str, bytes: &[u8]) -> Edge
        ensures stores { IsTrue true → Stores result (file_in self.new.files name.now) bytes.now }
        ensures others { IsTrue true →
            (other : List ℕ) → other ≢ name.now →
            file_in self.new.files other ≡ file_in self.old.files other }
        ensures rest { IsTrue true → self.new.rest ≡ self.old.rest }
        ensures pulled { IsTrue true → self.new.pulled ≡ self.old.pulled }
        ensures asked { IsTrue true → self.new.asked ≡ self.old.asked }
        ensures counts { EdgeCounts result self.old.calls.faults self.new.calls.faults }
        ensures exact { StoresExactly result self.old self.new name.now bytes.now }
    {
        if self.calls.next_fails() {
            return Edge::Failed;
        }
        if set(self.alloc, &mut self.files, name, bytes).is_err() {
            self.calls.starve();
            return Edge::Failed;
        }
        Edge::Done
    }
}

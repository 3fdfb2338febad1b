//! Files by name.

ghost use Rattle.std.specs.Prelude.{◌≡◌, ◌≢◌, ◌≤◌, ◌+◌, ℕ, Bool, IsTrue, List, [], Option, None, length};
ghost use Rattle.suit_edge.specs.Faults.{EdgeCounts};
ghost use Rattle.suit_edge.specs.Host.{StartAsks, StartCounts, Starts, PullCounts, Pulls, count_of, Stores};

use crate::Edge;

/// The outcome of starting a file.
#[derive(Clone, Copy, Debug, PartialEq, Eq)]
pub enum Started {
    /// The file is at its first byte.
    Done,
    /// No file has this name, and none is started.
    Absent,
    /// The call failed, and the host's count of faults rose.
    Failed,
}

/// The outcome of a pull.
#[derive(Clone, Copy, Debug, PartialEq, Eq)]
pub enum Pulled {
    /// How many bytes were read. Zero means the end of the file, unless the room is empty.
    Got(usize),
    /// The call failed, and the host's count of faults rose.
    Failed,
}

/// A store of named files. One file is read at a time.
pub trait Host {
    /// Whether the members below describe what the host holds. A host that describes nothing gives
    /// only its count of faults.
    ghost told: { Bool };

    /// The bytes of the file with this name, if there is one.
    ghost file: { Self → List ℕ → Option (List ℕ) } = { λ _ _. None };

    /// What is left to read of the file that was started last. Empty if none is started.
    ghost rest: { Self → List ℕ } = { λ _. [] };

    /// The number of bytes handed out so far.
    ghost pulled: { Self → ℕ } = { λ _. 0 };

    /// The names that were asked for, oldest first: those of files that were started or absent, and
    /// perhaps those of starts that failed.
    ghost asked: { Self → List (List ℕ) } = { λ _. [] };

    /// The count of faults, which never falls.
    ghost faults: { Self → ℕ };

    /// Starts a file at its first byte. After `Failed`, what a pull reads is not known until a
    /// start succeeds or finds the file absent.
    fn start(&mut self, name: &str) -> Started
        ensures files { IsTrue told → file self.new ≡ file self.old }
        ensures pulled { IsTrue told → pulled self.new ≡ pulled self.old }
        ensures starts { IsTrue told → Starts result (file self.old name.now) (rest self.new) }
        ensures asked { IsTrue told → StartAsks result name.now (asked self.old) (asked self.new) }
        ensures counts { StartCounts result (faults self.old) (faults self.new) };

    /// Reads the next bytes of the file into the front of `room`. After `Failed`, what another pull
    /// reads is not known until a start succeeds or finds the file absent.
    fn pull(&mut self, room: &mut [u8]) -> Pulled
        ensures fits { count_of result ≤ length room.old }
        ensures files { IsTrue told → file self.new ≡ file self.old }
        ensures pulled { IsTrue told → pulled self.new ≡ pulled self.old + count_of result }
        ensures pulls { IsTrue told
            → Pulls result (rest self.old) (rest self.new) room.old room.new }
        ensures asked { IsTrue told → asked self.new ≡ asked self.old }
        ensures counts { PullCounts result (faults self.old) (faults self.new) };

    /// Stores a file under this name, in place of any other. After `Failed`, the bytes under this
    /// name are not known.
    fn store(&mut self, name: &str, bytes: &[u8]) -> Edge
        ensures stores { IsTrue told → Stores result (file self.new name.now) bytes.now }
        ensures others { IsTrue told → (other : List ℕ) → other ≢ name.now
            → file self.new other ≡ file self.old other }
        ensures rest { IsTrue told → rest self.new ≡ rest self.old }
        ensures pulled { IsTrue told → pulled self.new ≡ pulled self.old }
        ensures asked { IsTrue told → asked self.new ≡ asked self.old }
        ensures counts { EdgeCounts result (faults self.old) (faults self.new) };
}

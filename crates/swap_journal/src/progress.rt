//! The progress of an exchange: two entries of a page, one of which is written while the other
//! stays valid.

ghost use Rattle.std.specs.Prelude.{◌≡◌, ◌<◌, ◌^◌};
ghost use Rattle.swap_journal.specs.Progress.{entry_gate, other_entry};

/// An entry of the page: a gate, and a number in 8 bytes.
#[derive(Clone, Copy, Debug, PartialEq, Eq)]
pub enum Entry {
    First,
    Second,
}

impl Entry {
    /// The place of the entry's gate, given that of the page.
    pub fn gate(self, page: u64) -> u64
        requires { entry_gate page self < 2 ^ 64 }
        ensures { result ≡ entry_gate page self }
    {
        match self {
            Entry::First => page + 64,
            Entry::Second => page + 80,
        }
    }

    /// The other entry.
    pub fn other(self) -> Entry
        ensures { result ≡ other_entry self }
    {
        match self {
            Entry::First => Entry::Second,
            Entry::Second => Entry::First,
        }
    }
}

/// How many copies have been made, and the entry that does not say so.
#[derive(Clone, Copy, Debug, PartialEq, Eq)]
pub struct Progress {
    pub made: u64,
    pub spare: Entry,
}

//! Two contents that are exchanged.

ghost use Rattle.std.specs.Prelude.{◌≡◌, ◌<◌, ◌≤◌, ◌+◌, ◌^◌};
ghost use Rattle.swap_journal.specs.Exchanges.{copies, copy_from, copy_size, copy_to, longest};

/// How many bytes are copied at once. The scratch has this size too.
pub const PIECE: u64 = 4096;

/// Two contents that are exchanged, and the scratch that their pieces go through. Places and
/// lengths are in bytes.
#[derive(Clone, Copy, Debug, PartialEq, Eq)]
pub struct Exchange {
    pub first: u64,
    pub second: u64,
    pub scratch: u64,
    pub first_length: u64,
    pub second_length: u64,
}

impl Exchange {
    // How many bytes are exchanged at each place: the length of the longer content.
    fn longest(&self) -> u64
        ensures { result ≡ longest self.now }
    {
        self.first_length.max(self.second_length)
    }

    /// The number of copies: three for each piece, the last of which may be short.
    pub fn copies(&self) -> u64
        ensures { result ≡ copies self.now }
    {
        3 * self.longest().div_ceil(PIECE)
    }

    // The place that a copy reads from.
    pub(crate) fn copy_from(&self, copy: u64) -> u64
        requires { copy_from self.now copy < 2 ^ 64 }
        ensures { result ≡ copy_from self.now copy }
    {
        match copy % 3 {
            0 => self.first + PIECE * (copy / 3),
            1 => self.second + PIECE * (copy / 3),
            _ => self.scratch,
        }
    }

    // The place that a copy writes to.
    pub(crate) fn copy_to(&self, copy: u64) -> u64
        requires { copy_to self.now copy < 2 ^ 64 }
        ensures { result ≡ copy_to self.now copy }
    {
        match copy % 3 {
            0 => self.scratch,
            1 => self.first + PIECE * (copy / 3),
            _ => self.second + PIECE * (copy / 3),
        }
    }

    // The number of bytes that a copy moves.
    pub(crate) fn copy_size(&self, copy: u64) -> u64
        requires { copy < copies self.now }
        ensures { result ≡ copy_size self.now copy }
    {
        (self.longest() - PIECE * (copy / 3)).min(PIECE)
    }
}

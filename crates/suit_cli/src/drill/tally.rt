//! What is counted of the rounds.

ghost use Rattle.std.specs.Prelude.{◌≡◌, ◌<◌, ◌+◌};
ghost use Rattle.suit_cli.specs.Drilling.{counted_round, is_wrong, no_rounds, rounds_counted, wrong_in};

use suit_edge::Launch;
use suit_params::{Digest, hash};

/// How the update of a round ended.
#[derive(Clone, Copy, Debug, PartialEq, Eq)]
pub(crate) enum RoundEnd {
    /// The envelope was installed.
    Installed,
    /// It was refused, or its procedure stopped.
    Stopped,
    /// The power was lost.
    Cut,
}

/// How many rounds ended so.
#[derive(Clone, Copy, Debug, PartialEq, Eq)]
pub(crate) struct Tally {
    pub(crate) installed: u64,
    pub(crate) stopped: u64,
    pub(crate) cut: u64,
}

impl Tally {
    /// No round.
    pub(crate) fn new() -> Tally
        ensures { result ≡ no_rounds }
    {
        Tally {
            installed: 0,
            stopped: 0,
            cut: 0,
        }
    }

    /// Counts a round.
    pub(crate) fn count(&mut self, end: RoundEnd)
        requires { rounds_counted self.old < 200 }
        ensures { self.new ≡ counted_round self.old end }
    {
        match end {
            RoundEnd::Installed => self.installed += 1,
            RoundEnd::Stopped => self.stopped += 1,
            RoundEnd::Cut => self.cut += 1,
        }
    }
}

// Whether a launch has no digest, or one that its bytes do not have.
fn is_wrong(launch: &Launch) -> bool
    ensures { result ≡ is_wrong launch.now }
{
    let Some(bytes) = &launch.digest else {
        return true;
    };
    match Digest::from_bytes(bytes.as_slice()) {
        None => true,
        Some(digest) => {
            let found = hash(digest.kind(), launch.bytes.as_slice());
            found.bytes() != digest.bytes()
        }
    }
}

/// How many launches are wrong.
pub(crate) fn wrong_launches(launches: &[Launch]) -> usize
    ensures { result ≡ wrong_in launches.now }
{
    let mut wrong: usize = 0;
    for launch in launches {
        if is_wrong(launch) {
            wrong += 1;
        }
    }
    wrong
}

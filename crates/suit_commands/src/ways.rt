//! The ways in which a part of a sequence may complete, and those in which a condition may end it.

ghost use Rattle.std.specs.Prelude.{◌≡◌};
ghost use Rattle.suit_commands.specs.Numbers.{start_ways};
ghost use Rattle.suit_commands.specs.WaysOnce.{counted, capped_ways, ways_then, ways_else, ways_repeated, no_branch};

use crate::capped::{plus, product};

/// In how many ways a part may complete, and in how many a condition may end it.
#[derive(Clone, Copy)]
pub(crate) struct Ways {
    pub on: u64,
    pub off: u64,
}

impl Ways {
    /// The ways of doing nothing: it completes in one way.
    pub(crate) fn start() -> Ways
        ensures { counted result ≡ start_ways }
    {
        Ways { on: 1, off: 0 }
    }

    /// The ways of a try each before its first sequence: nothing has completed.
    pub(crate) fn none_done() -> Ways
        ensures { counted result ≡ no_branch }
    {
        Ways { on: 0, off: 1 }
    }

    /// The ways of this part followed by the next.
    pub(crate) fn then(self, next: Ways) -> Ways
        ensures { counted result ≡ capped_ways (ways_then (counted self) (counted next)) }
    {
        Ways {
            on: product(self.on, next.on),
            off: plus(self.off, product(self.on, next.off)),
        }
    }

    /// The ways of this part, with the next one in its place if a condition ends it.
    pub(crate) fn or_else(self, next: Ways) -> Ways
        ensures { counted result ≡ capped_ways (ways_else (counted self) (counted next)) }
    {
        Ways {
            on: plus(self.on, product(self.off, next.on)),
            off: product(self.off, next.off),
        }
    }

    /// The ways of this part repeated `times` times, by repeated squaring.
    pub(crate) fn repeated(self, times: u64) -> Ways
        ensures { counted result ≡ capped_ways (ways_repeated times (counted self)) }
    {
        if times == 0 {
            return Ways::start();
        }
        let half = self.repeated(times / 2);
        let even = half.then(half);
        if times % 2 == 0 {
            return even;
        }
        even.then(self)
    }
}

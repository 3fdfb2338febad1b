//! Numbers that look random, and are the same whenever they are drawn.

ghost use Rattle.std.specs.Prelude.{◌≡◌};
ghost use Rattle.conformance.specs.Draws.{draw_of, next_state};

use std::marker::Model;

/// A source of numbers. Not fit for making keys.
#[derive(Debug, Drop)]
pub struct Draw {
    state: u64,
}

impl Model for Draw {
    ghost use Rattle.std.specs.Prelude.{ℕ};

    ghost Value = { ℕ };

    ghost view = { λ d. d.state };
}

impl Draw {
    /// A source that starts with this state.
    pub fn new(number: u64) -> Draw
        ensures { result ≡ number }
    {
        Draw { state: number }
    }

    /// Draws the next number, of 31 bits.
    pub fn next(&mut self) -> u64
        ensures state { self.new ≡ next_state self.old }
        ensures drawn { result ≡ draw_of self.new }
    {
        self.state = self
            .state
            .wrapping_mul(6_364_136_223_846_793_005)
            .wrapping_add(1_442_695_040_888_963_407);
        self.state >> 33
    }
}

//! Where the words of the command line come from.

ghost use Rattle.std.specs.Prelude.{◌≡◌, List, ℕ, Bool, IsTrue, slice_get};
ghost use Rattle.suit.specs.CommandLine.{FitsRoom, Finds};

use std::env::{Env, FillError};

/// The result of looking for a word.
#[derive(Clone, Copy, Debug, PartialEq, Eq)]
pub enum Found {
    /// The word has so many bytes, which stand at the front of the room.
    Word(usize),
    /// There are no more words.
    End,
    /// The word is longer than the room.
    TooLong,
}

/// A command line: the words behind the program's name, as bytes.
pub trait Source {
    /// Whether `words` tells the words.
    ghost told: { Bool };

    /// The words in their order.
    ghost words: { Self → List (List ℕ) };

    /// The word at an index, counted from 0.
    fn word(&self, index: usize, room: &mut [u8]) -> Found
        ensures fits { FitsRoom result room.new }
        ensures finds { IsTrue told → Finds result (slice_get (words self.now) index) room.new };
}

/// The command line that the program was started with. It tells nothing of its words.
#[derive(Drop)]
pub struct Started<'a, R> {
    rt: &'a R,
}

impl<'a, R> Started<'a, R> {
    /// The command line of this runtime.
    pub(crate) fn new(rt: &'a R) -> Started<'a, R>
        ensures { result.rt.now ≡ rt.now }
    {
        Started { rt }
    }
}

impl<R: Env> Source for Started<'_, R> {
    ghost use Rattle.std.specs.Prelude.{false, []};

    ghost told = { false };

    ghost words = { λ s. [] };

    fn word(&self, index: usize, room: &mut [u8]) -> Found
        ensures fits { FitsRoom result room.new }
        ensures finds { IsTrue false → Finds result (slice_get [] index) room.new }
    {
        let Some(number) = index.checked_add(1) else {
            return Found::End;
        };
        match self.rt.arg(number, room) {
            Ok(length) => Found::Word(length),
            Err(FillError::NotPresent) => Found::End,
            Err(FillError::TooLong) => Found::TooLong,
        }
    }
}

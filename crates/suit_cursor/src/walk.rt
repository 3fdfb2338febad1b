//! Walks through a sequence and the sequences inside it.

ghost use Rattle.std.specs.Prelude.{◌≡◌, ◌+◌, ◌<◌, ◌^◌, length, Result, Ok, Err, IfOk, IfErr};
ghost use Rattle.det_cbor.specs.HeadReading.{map_ok};
ghost use Rattle.suit_params.specs.declared.refusal.Refusal.{Refusal};
ghost use Rattle.suit_params.specs.Refusing.{RefusesWhole, SaysWhole};
ghost use Rattle.suit_commands.specs.Allowed.{levels_allowed, levels_inside};
ghost use Rattle.suit_commands.specs.Sequences.{SaysSequence};
ghost use Rattle.suit_commands.specs.SequenceFaults.{RefusesSequence};
ghost use Rattle.suit_commands.specs.SequenceReading.{whole_sequence};
ghost use Rattle.suit_commands.specs.Tree.{SequenceTree};
ghost use Rattle.suit_cursor.specs.Walking.{starting, at_first, Leaves};
ghost use Rattle.suit_cursor.specs.Within.{IsLevel};
ghost use Rattle.suit_cursor.specs.Views.{LendsView, Enters};

use crate::level::{Level, Within};
use crate::view::shown;
use crate::{LentSequence, View};
use arrayvec::ArrayVec;
use std::marker::Model;
use std::mem;
use suit_params::Refusal;

/// A walk through a sequence of commands (draft-ietf-suit-manifest-25, section 8.4.6) and the
/// sequences inside it, in bytes that were judged.
#[derive(Drop)]
pub struct Walk<'a> {
    here: Level<'a>,
    outer: ArrayVec<Level<'a>, 7>,
    count: u32,
}

impl<'a> Model for Walk<'a> {
    ghost use Rattle.suit_cursor.specs.Walking.{Standing, coded_standing};

    ghost Value = { Standing };

    ghost coded = { coded_standing };

    ghost use Rattle.suit_cursor.specs.Within.{standing_of, Stands};

    ghost view = { λ w. standing_of w.count w.here w.outer.items };

    ghost invariant = { λ w. Stands w.here w.outer.items };
}

/// Whether a branch was entered.
#[derive(Clone, Copy, Debug)]
pub enum Entered {
    Inside,
    /// The branch is null, or there is no branch with this number.
    Nothing,
}

impl<'a> Walk<'a> {
    // A walk that is before the first step.
    fn start(left: LentSequence<'a>, count: u32) -> Walk<'a>
        requires { IsLevel 0 (at_first left) }
        ensures { result ≡ starting count left.entry }
    {
        Walk {
            here: Level {
                left,
                within: Within::Nothing,
            },
            outer: ArrayVec::new(),
            count,
        }
    }

    /// Starts a walk before the first command of the sequence that the bytes spell, after judging
    /// them once as `decode_sequence` does. Component indices must be below `count`. `place` is
    /// where the bytes begin in the envelope; the places of commands and refusals are counted from
    /// the envelope's start. Allocates nothing.
    pub fn new(bytes: &'a [u8], place: u64, shared: bool, count: u32) -> Result<Walk<'a>, Refusal>
        requires place { place + length bytes.now < 2 ^ 64 }
        requires short { length bytes.now < 2 ^ 32 }
        ensures exact { result ≡ map_ok (starting count) (whole_sequence shared count levels_inside
            (record { left = bytes.now; place = place })) }
        ensures ok { IfOk result (λ walk. (walk ≡ starting count walk.here.left)
            × SaysWhole (SaysSequence shared count levels_allowed) place bytes.now walk.here.left) }
        ensures refused { IfErr result
            (RefusesWhole (RefusesSequence shared count levels_allowed) place bytes.now) }
        ensures every_sequence { (s : SequenceTree)
            → SaysWhole (SaysSequence shared count levels_allowed) place bytes.now s
            → result ≡ Ok (starting count s) }
        ensures every_refusal { (r : Refusal)
            → RefusesWhole (RefusesSequence shared count levels_allowed) place bytes.now r
            → result ≡ Err r }
    {
        let left = LentSequence::new(bytes, place, shared, count)?;
        Ok(Walk::start(left, count))
    }

    /// The next command of the sequence that was entered last, or `None` at its end.
    pub fn next(&mut self) -> Option<View<'a>>
        ensures { LendsView self.old self.new result }
    {
        match self.here.left.next() {
            Some(step) => {
                let place = step.place;
                let (act, within) = shown(step.command, self.count);
                self.here.within = within;
                Some(View { place, act })
            }
            None => {
                self.here.within = Within::Nothing;
                None
            }
        }
    }

    /// Enters the branch with this number of the command that was returned last in this sequence.
    /// The branch is not judged again.
    pub fn enter(&mut self, branch: u32) -> Entered
        ensures { Enters self.old self.new branch result }
    {
        match self.here.within.branch(branch) {
            Some(left) => {
                let inner = Level {
                    left,
                    within: Within::Nothing,
                };
                let outer = mem::replace(&mut self.here, inner);
                self.outer.push(outer);
                Entered::Inside
            }
            None => Entered::Nothing,
        }
    }

    /// Leaves the sequence that was entered last. The walk goes on after the command whose branch
    /// was entered, which counts as the one returned last. Does nothing in the outermost sequence.
    pub fn leave(&mut self)
        ensures { Leaves self.old self.new }
    {
        if let Some(outer) = self.outer.pop() {
            self.here = outer;
        }
    }
}

//! Borrowed sequences.

ghost use Rattle.std.specs.Prelude.{◌≡◌, ◌+◌, ◌<◌, ◌^◌, length, IfOk, IfErr, Ok, Err};
ghost use Rattle.suit_params.specs.declared.refusal.Refusal.{Refusal};
ghost use Rattle.suit_params.specs.Refusing.{RefusesWhole, SaysWhole};
ghost use Rattle.suit_commands.specs.Allowed.{levels_allowed, levels_inside};
ghost use Rattle.suit_commands.specs.Sequences.{SaysSequence};
ghost use Rattle.suit_commands.specs.SequenceFaults.{RefusesSequence};
ghost use Rattle.suit_commands.specs.SequenceReading.{whole_sequence};
ghost use Rattle.suit_commands.specs.Tree.{SequenceTree, NoSteps};
ghost use Rattle.suit_cursor.specs.Lending.{LendsStep};

use crate::Lent;
use crate::command::lend_command;
use crate::entering::enter;
use det_cbor::Cursor;
use std::marker::Model;
use suit_commands::{MAX_LEVELS, Rules, judge_sequence, read_code};
use suit_params::{Refusal, same_place};

/// The steps of a sequence that are left (draft-ietf-suit-manifest-25, section 8.4.6), borrowed
/// from bytes that were judged.
#[derive(Drop)]
pub struct LentSequence<'a> {
    pub(crate) cursor: Cursor<'a>,
    pub(crate) left: u64,
    pub(crate) rules: Rules,
}

impl<'a> Model for LentSequence<'a> {
    ghost use Rattle.suit_commands.specs.Tree.{SequenceTree};

    ghost Value = { SequenceTree };

    ghost use Rattle.suit_commands.specs.Codes.{coded_sequence};

    ghost coded = { coded_sequence };

    ghost use Rattle.suit_cursor.specs.LentParts.{lent_steps, AreSteps};

    ghost view = { λ s. lent_steps s.rules s.left s.cursor };

    ghost invariant = { λ s. AreSteps s.rules s.left s.cursor };
}

// Does the work of `LentSequence::new`.
fn judged<'a>(
    bytes: &'a [u8],
    place: u64,
    shared: bool,
    count: u32,
) -> Result<LentSequence<'a>, Refusal>
    requires { place + length bytes.now < 2 ^ 64 }
    ensures { result ≡ whole_sequence shared count levels_inside
        (record { left = bytes.now; place = place }) }
{
    judge_sequence(bytes, place, shared, count)?;
    let rules = Rules {
        levels: MAX_LEVELS - 1,
        shared,
        count,
    };
    Ok(enter(Cursor::new(bytes, place), rules))
}

impl<'a> LentSequence<'a> {
    // A sequence without steps.
    pub(crate) fn empty() -> LentSequence<'a>
        ensures { result ≡ NoSteps }
    {
        LentSequence {
            cursor: Cursor::new(&[], 0),
            left: 0,
            rules: Rules {
                levels: 0,
                shared: false,
                count: 0,
            },
        }
    }

    /// Borrows the sequence that the bytes spell, after judging them once as `decode_sequence`
    /// does. Component indices must be below `count`. `place` is where the bytes begin in the
    /// envelope; the places of commands and refusals are counted from the envelope's start.
    /// Allocates nothing.
    pub fn new(
        bytes: &'a [u8],
        place: u64,
        shared: bool,
        count: u32,
    ) -> Result<LentSequence<'a>, Refusal>
        requires { place + length bytes.now < 2 ^ 64 }
        ensures exact { result ≡ whole_sequence shared count levels_inside
            (record { left = bytes.now; place = place }) }
        ensures ok { IfOk result
            (λ s. SaysWhole (SaysSequence shared count levels_allowed) place bytes.now s) }
        ensures refused { IfErr result
            (RefusesWhole (RefusesSequence shared count levels_allowed) place bytes.now) }
        ensures every_sequence { (s : SequenceTree)
            → SaysWhole (SaysSequence shared count levels_allowed) place bytes.now s
            → result ≡ Ok s }
        ensures every_refusal { (r : Refusal)
            → RefusesWhole (RefusesSequence shared count levels_allowed) place bytes.now r
            → result ≡ Err r }
    {
        judged(bytes, place, shared, count)
    }

    /// A copy, which borrows the same steps.
    pub fn copy(&mut self) -> LentSequence<'a>
        ensures copied { result ≡ self.old }
        ensures same { self.new ≡ self.old }
    {
        LentSequence {
            cursor: same_place(&mut self.cursor),
            left: self.left,
            rules: self.rules,
        }
    }

    /// The next step, or `None` at the end.
    pub fn next(&mut self) -> Option<Lent<'a>>
        ensures { LendsStep self.old self.new result }
    {
        if self.left == 0 {
            return None;
        }
        let place = self.cursor.place();
        let code = read_code(&mut self.cursor, self.rules.shared).unwrap();
        let command = lend_command(&mut self.cursor, code, self.rules);
        self.left -= 1;
        Some(Lent { place, command })
    }
}

//! The sequences that a walk has entered.

ghost use Rattle.std.specs.Prelude.{◌≡◌};
ghost use Rattle.suit_cursor.specs.Walking.{branch_at};
ghost use Rattle.suit_cursor.specs.Within.{branches_in};

use crate::{LentBranches, LentSequence};

/// The sequences inside the command that was returned last.
#[derive(Drop)]
pub(crate) enum Within<'a> {
    /// No sequences, or no command was returned.
    Nothing,
    Tries(LentBranches<'a>),
    Run(LentSequence<'a>),
}

impl<'a> Within<'a> {
    /// Borrows the sequence of the branch with this number. The branches stay as they are.
    pub(crate) fn branch(&mut self, number: u32) -> Option<LentSequence<'a>>
        ensures found { result ≡ branch_at (branches_in self.old) number }
        ensures same { self.new ≡ self.old }
    {
        match self {
            Within::Nothing => None,
            Within::Tries(branches) => branches.copy().branch(number),
            Within::Run(inner) => {
                if number == 0 {
                    Some(inner.copy())
                } else {
                    None
                }
            }
        }
    }
}

/// A sequence that was entered: the steps that are left, and the sequences inside the last command.
#[derive(Drop)]
pub(crate) struct Level<'a> {
    pub(crate) left: LentSequence<'a>,
    pub(crate) within: Within<'a>,
}

impl<'a> Default for Level<'a> {
    fn default() -> Level<'a> {
        Level {
            left: LentSequence::empty(),
            within: Within::Nothing,
        }
    }
}

//! The codes of commands.

ghost use Rattle.std.specs.Prelude.{◌≡◌};
ghost use Rattle.det_cbor.specs.HeadReading.{map_ok};
ghost use Rattle.suit_commands.specs.CommandCodes.{numbered};
ghost use Rattle.suit_commands.specs.SequenceJudging.{known_code};
ghost use Rattle.suit_commands.specs.SequenceReading.{code_from};

use crate::{ActKind, TestKind};
use det_cbor::{Cursor, HeadKind};
use suit_params::{Refusal, Why, read_kind, refused};

/// The command that a code stands for (draft-ietf-suit-manifest-25, sections 8.4.9 and 8.4.10).
#[derive(Clone, Copy, Debug, PartialEq, Eq)]
pub enum CommandCode {
    Test(TestKind),
    Act(ActKind),
    Index,
    TryEach,
    Override,
    Run,
}

// The command with this number.
fn numbered(number: u64) -> Option<CommandCode>
    ensures { result ≡ numbered number }
{
    match number {
        1 => Some(CommandCode::Test(TestKind::Vendor)),
        2 => Some(CommandCode::Test(TestKind::Class)),
        3 => Some(CommandCode::Test(TestKind::ImageMatch)),
        5 => Some(CommandCode::Test(TestKind::Slot)),
        6 => Some(CommandCode::Test(TestKind::CheckContent)),
        12 => Some(CommandCode::Index),
        14 => Some(CommandCode::Test(TestKind::Abort)),
        15 => Some(CommandCode::TryEach),
        18 => Some(CommandCode::Act(ActKind::Write)),
        20 => Some(CommandCode::Override),
        21 => Some(CommandCode::Act(ActKind::Fetch)),
        22 => Some(CommandCode::Act(ActKind::Copy)),
        23 => Some(CommandCode::Act(ActKind::Invoke)),
        24 => Some(CommandCode::Test(TestKind::Device)),
        31 => Some(CommandCode::Act(ActKind::Swap)),
        32 => Some(CommandCode::Run),
        _ => None,
    }
}

// The command with this number, whose place is `place`. A directive that acts on contents is
// refused in the shared sequence.
fn known_code(place: u64, shared: bool, number: u64) -> Result<CommandCode, Refusal>
    ensures { result ≡ known_code place shared (numbered number) }
{
    match numbered(number) {
        Some(CommandCode::Act(_)) if shared => refused(place, Why::Unsupported),
        Some(code) => Ok(code),
        None => refused(place, Why::Unsupported),
    }
}

/// Reads the code of a command. `shared` says whether the command is in the shared sequence.
#[tactic(auto, unfolding(crate::specs::SequenceReading::code_from))]
pub fn read_code(cursor: &mut Cursor<'_>, shared: bool) -> Result<CommandCode, Refusal>
    ensures { map_ok (λ code. (code, cursor.new)) result ≡ code_from shared cursor.old }
{
    let place = cursor.place();
    let number = read_kind(cursor, HeadKind::Unsigned, Why::Unsupported)?;
    known_code(place, shared, number)
}

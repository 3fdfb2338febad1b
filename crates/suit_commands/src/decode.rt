//! Decoding a sequence of commands.

ghost use Rattle.std.specs.Prelude.{◌≡◌, ◌+◌, ◌<◌, ◌^◌, length, Result, Ok, Err, IfOk, IfErr};
ghost use Rattle.suit_params.specs.declared.refusal.Refusal.{Refusal};
ghost use Rattle.suit_params.specs.Refusing.{RefusesWhole, SaysWhole};
ghost use Rattle.suit_params.specs.Answering.{Gives, IsFaultBy, IsReadAs, IsRefusedAs};
ghost use Rattle.suit_commands.specs.Allowed.{levels_allowed, levels_inside};
ghost use Rattle.suit_commands.specs.Sequences.{SaysSequence};
ghost use Rattle.suit_commands.specs.SequenceFaults.{RefusesSequence};
ghost use Rattle.suit_commands.specs.SequenceReading.{whole_sequence};
ghost use Rattle.suit_commands.specs.Tree.{SequenceTree};

use crate::Sequence;
use crate::scope::Scope;
use crate::sequence_reading::read_array;
use det_cbor::Cursor;
use std::alloc::Global;
use suit_params::{Fault, only_item};

/// How many levels of sequences a member or the shared sequence may have, counting itself.
pub const MAX_LEVELS: u8 = 8;

// Reads the one item that the bytes must hold as a sequence.
fn whole_sequence(bytes: &[u8], place: u64, scope: Scope) -> Result<Sequence, Fault>
    requires { place + length bytes.now < 2 ^ 64 }
    ensures { Gives (λ s. s) result
        (whole_sequence scope.shared scope.count scope.levels
        (record { left = bytes.now; place = place })) }
{
    let item = only_item(Cursor::new(bytes, place))?;
    read_array(item, scope)
}

/// Decodes a sequence of commands (draft-ietf-suit-manifest-25, section 8.4.6). Component indices
/// must be below `count`. `place` is where the bytes begin in the envelope; the places of commands
/// and refusals are counted from the envelope's start.
///
/// The bytes are judged as one CBOR item first, and so is each byte string that holds a sequence
/// when it is entered. Directives that act on contents are refused in the shared sequence and in
/// the sequences inside it. Sequences nest at most eight levels deep. Allocates only for the tree.
pub fn decode_sequence(
    alloc: Global,
    bytes: &[u8],
    place: u64,
    shared: bool,
    count: u32,
) -> Result<Sequence, Fault>
    requires { place + length bytes.now < 2 ^ 64 }
    ensures exact { Gives (λ s. s) result
        (whole_sequence shared count levels_inside (record { left = bytes.now; place = place })) }
    ensures ok { IfOk result
        (λ s. SaysWhole (SaysSequence shared count levels_allowed) place bytes.now s) }
    ensures refused { IfErr result
        (IsFaultBy (RefusesWhole (RefusesSequence shared count levels_allowed) place bytes.now)) }
    ensures every_sequence { (s : SequenceTree)
        → SaysWhole (SaysSequence shared count levels_allowed) place bytes.now s
        → IsReadAs s result }
    ensures every_refusal { (r : Refusal)
        → RefusesWhole (RefusesSequence shared count levels_allowed) place bytes.now r
        → IsRefusedAs r result }
{
    let scope = Scope {
        alloc,
        levels: MAX_LEVELS - 1,
        shared,
        count,
    };
    whole_sequence(bytes, place, scope)
}

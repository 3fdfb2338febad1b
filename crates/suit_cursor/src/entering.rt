//! Entering sequences in bytes that were judged.

ghost use Rattle.std.specs.Prelude.{◌≡◌, IsOk, Ok};
ghost use Rattle.suit_commands.specs.Judged.{inner_by};
ghost use Rattle.suit_commands.specs.SequenceReading.{held_sequence, whole_sequence};

use crate::LentSequence;
use det_cbor::{Cursor, HeadKind};
use suit_commands::Rules;
use suit_params::{Why, next_content, read_kind, same_place};

/// Borrows the sequence that these bytes spell. Only the head of its array is read.
pub(crate) fn enter<'a>(mut content: Cursor<'a>, rules: Rules) -> LentSequence<'a>
    requires { IsOk (whole_sequence rules.shared rules.count rules.levels content) }
    ensures { whole_sequence rules.shared rules.count rules.levels content.entry ≡ Ok result }
{
    let mut item = same_place(&mut content);
    let elements = read_kind(&mut item, HeadKind::Array, Why::Shape).unwrap();
    LentSequence {
        cursor: item,
        left: elements / 2,
        rules,
    }
}

// Borrows the sequence in the content of a byte string.
fn enter_nested<'a>(place: u64, content: Cursor<'a>, rules: Rules) -> LentSequence<'a>
    requires { IsOk (inner_by rules place content) }
    ensures { inner_by rules place content.entry ≡ Ok result }
{
    let _ = place;
    let inside = Rules {
        levels: rules.levels - 1,
        shared: rules.shared,
        count: rules.count,
    };
    enter(content, inside)
}

/// Borrows the sequence in a byte string of `length` bytes, whose head is at `place`.
pub(crate) fn enter_held<'a>(
    cursor: &mut Cursor<'a>,
    place: u64,
    length: u64,
    rules: Rules,
) -> LentSequence<'a>
    requires { IsOk (held_sequence (inner_by rules) place length cursor.old) }
    ensures { held_sequence (inner_by rules) place length cursor.old ≡ Ok (result, cursor.new) }
{
    let content = next_content(cursor, length).unwrap();
    enter_nested(place, content, rules)
}

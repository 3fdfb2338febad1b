//! Trimmed envelopes.

ghost use Rattle.check_c.specs.Trimming.{AreTrimmed, HasNoRoom, trimmed_bytes};
ghost use Rattle.std.specs.Prelude.{◌≡◌, ◌≢◌, ◌⊎◌, ◌≤◌, drop, length};
ghost use Rattle.suit_answers.specs.Answers.{code_of};
ghost use Rattle.suit_answers.specs.declared.answer.Answer.TheVariants as answers;
ghost use Rattle.suit_envelope.specs.Envelopes.{EnvelopeSays};
ghost use Rattle.suit_envelope.specs.Said.{EnvelopeOf, RefusesBytes};
ghost use Rattle.suit_params.specs.declared.refusal.Refusal.{Refusal};

use std::alloc::Global;
use suit_answers::Answer;
use suit_envelope::{decode_envelope, trim};

// Does the work of `suit_trim`.
fn trim_into(alloc: Global, file: &[u8], room: &mut [u8], count: &mut u64) -> Answer
    ensures answers { (result ≡ answers.Done) ⊎ (result ≡ answers.Refused)
        ⊎ (result ≡ answers.NoMemory) ⊎ (result ≡ answers.TooLong) }
    ensures trims { result ≡ answers.Done → AreTrimmed file.now room.new count.new }
    ensures rest { result ≡ answers.Done → drop count.new room.new ≡ drop count.new room.old }
    ensures every { (said : EnvelopeSays) → EnvelopeOf file.now said
        → length (trimmed_bytes said) ≤ length room.old
        → (result ≡ answers.Done) ⊎ (result ≡ answers.NoMemory) }
    ensures refused { result ≡ answers.Refused → (r : Refusal) × RefusesBytes file.now r }
    ensures long { result ≡ answers.TooLong → HasNoRoom file.now room.old count.new }
    ensures stays { result ≢ answers.Done → room.new ≡ room.old }
    ensures no_count { (result ≡ answers.Refused) ⊎ (result ≡ answers.NoMemory)
        → count.new ≡ count.old }
{
    let Ok(envelope) = decode_envelope(file) else {
        return Answer::Refused;
    };
    let Ok(trimmed) = trim(alloc, &envelope) else {
        return Answer::NoMemory;
    };
    let bytes = trimmed.as_slice();
    *count = bytes.len() as u64;
    if room.len() < bytes.len() {
        return Answer::TooLong;
    }
    room[..bytes.len()].copy_from_slice(bytes);
    Answer::Done
}

/// Writes an envelope, trimmed to its wrapper and manifest, to the front of the room.
///
/// Returns 0 with the number of bytes in `count`; 3 if the bytes do not spell an envelope; 11 if memory runs out; and
/// 21 if the room has fewer than `count` bytes, in which case it is left as it was.
#[unsafe(no_mangle)]
pub extern "C" fn suit_trim(alloc: Global, file: &[u8], room: &mut [u8], count: &mut u64) -> i32
    ensures answers { (result ≡ code_of answers.Done) ⊎ (result ≡ code_of answers.Refused)
        ⊎ (result ≡ code_of answers.NoMemory) ⊎ (result ≡ code_of answers.TooLong) }
    ensures trims { result ≡ code_of answers.Done → AreTrimmed file.now room.new count.new }
    ensures rest { result ≡ code_of answers.Done
        → drop count.new room.new ≡ drop count.new room.old }
    ensures every { (said : EnvelopeSays) → EnvelopeOf file.now said
        → length (trimmed_bytes said) ≤ length room.old
        → (result ≡ code_of answers.Done) ⊎ (result ≡ code_of answers.NoMemory) }
    ensures refused { result ≡ code_of answers.Refused
        → (r : Refusal) × RefusesBytes file.now r }
    ensures long { result ≡ code_of answers.TooLong → HasNoRoom file.now room.old count.new }
    ensures stays { result ≢ code_of answers.Done → room.new ≡ room.old }
    ensures no_count { (result ≡ code_of answers.Refused) ⊎ (result ≡ code_of answers.NoMemory)
        → count.new ≡ count.old }
{
    trim_into(alloc, file, room, count).code()
}

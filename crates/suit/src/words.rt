//! The words of the command line.

ghost use Rattle.std.specs.Prelude.{IsTrue, IfOk, option_map, slice_get};
ghost use Rattle.suit.specs.CommandLine.{IsHandedOn, IsFound, AreHandedOn};

use crate::source::{Found, Source};
use det_cbor::{Names, Text};
use std::alloc::{AllocError, Global};
use std::str;

/// The length of the first buffer for a word, in bytes. It doubles for a longer word.
const ROOM: usize = 4096;

/// The words of the command line without the program's name. A word that is not UTF-8 is handed on as `-`, which no
/// command takes.
pub fn command_line<S: Source>(source: &S, alloc: Global) -> Result<Names, AllocError>
    ensures { IfOk result (λ names. IsTrue S.told → AreHandedOn (S.words source.now) names) }
{
    let mut words = Names::new(alloc);
    let mut room = vec![in alloc; 0u8; ROOM]?;
    for index in 0..usize::MAX {
        match word_at(source, alloc, index, &mut room)? {
            Some(word) => words.push(word)?,
            None => return Ok(words),
        }
    }
    Err(AllocError)
}

// The word at an index, or `None` past the last one.
fn word_at<S: Source>(
    source: &S,
    alloc: Global,
    index: usize,
    room: &mut Vec<u8>,
) -> Result<Option<Text>, AllocError>
    ensures { IfOk result
        (λ word. IsTrue S.told → IsFound (slice_get (S.words source.now) index) word) }
{
    for _ in 0..usize::BITS {
        match source.word(index, room.as_mut_slice()) {
            Found::Word(length) => return Ok(Some(text_of(alloc, &room[..length])?)),
            Found::End => return Ok(None),
            Found::TooLong => double(alloc, room)?,
        }
    }
    Err(AllocError)
}

// A buffer twice as long.
fn double(alloc: Global, room: &mut Vec<u8>) -> Result<(), AllocError> {
    let length = room.len().checked_mul(2).ok_or(AllocError)?;
    *room = vec![in alloc; 0u8; length]?;
    Ok(())
}

// The bytes of a word as text, or a dash where they are no UTF-8.
fn text_of(alloc: Global, bytes: &[u8]) -> Result<Text, AllocError>
    ensures { IfOk result (IsHandedOn bytes.now) }
{
    match str::from_utf8(bytes) {
        Ok(text) => Text::from_str(alloc, text),
        Err(_) => Text::from_str(alloc, "-"),
    }
}

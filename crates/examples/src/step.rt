//! The lines of a session.

use det_cbor::{Names, Text};
use std::alloc::{AllocError, Global};

/// A step of a session, by its line.
#[derive(Drop)]
pub(crate) enum Step {
    /// No words.
    Empty,
    /// `cd FOLDER`: goes on in a folder.
    Enter(Text),
    /// `suit` and words for it.
    Suit(Names),
    /// `cat FILE`: the file's bytes.
    Print(Text),
    /// `cmp FILE FILE`: whether two files are the same.
    Compare(Text, Text),
    /// `memory`: how much memory the session has held.
    Memory,
    /// Any other line.
    Unknown,
}

/// The step of a line, whose words stand apart by a blank.
pub(crate) fn step_of(alloc: Global, line: &str) -> Result<Step, AllocError> {
    let (command, rest) = line.split_once(' ').unwrap_or((line, ""));
    match command {
        "" => Ok(Step::Empty),
        "suit" => suit(alloc, rest),
        "cd" => Ok(Step::Enter(Text::from_str(alloc, rest)?)),
        "cat" => Ok(Step::Print(Text::from_str(alloc, rest)?)),
        "cmp" => comparison(alloc, rest),
        "memory" => Ok(Step::Memory),
        _ => Ok(Step::Unknown),
    }
}

// The words behind `suit`.
fn suit(alloc: Global, rest: &str) -> Result<Step, AllocError> {
    let mut words = Names::new(alloc);
    for word in rest.split_whitespace() {
        words.push(Text::from_str(alloc, word)?)?;
    }
    Ok(Step::Suit(words))
}

// The names behind `cmp`.
fn comparison(alloc: Global, rest: &str) -> Result<Step, AllocError> {
    let (one, other) = rest.split_once(' ').unwrap_or((rest, ""));
    let one = Text::from_str(alloc, one)?;
    Ok(Step::Compare(one, Text::from_str(alloc, other)?))
}

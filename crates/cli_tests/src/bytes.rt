//! Parts of texts, and bytes in hexadecimal.

use std::alloc::{AllocError, Global};

/// The text before the first such letter, and the text after it.
pub(crate) fn halves(text: &str, letter: char) -> (&str, &str) {
    text.split_once(letter).unwrap_or((text, ""))
}

/// Whether both are the same bytes.
pub(crate) fn are_same(one: &[u8], other: &[u8]) -> bool {
    one == other
}

// The bytes of hexadecimal digits. Wrong digits end a test, as running out of memory does.
fn bytes_of(alloc: Global, digits: &str) -> Result<Vec<u8>, AllocError> {
    match hex::decode(alloc, digits) {
        Ok(bytes) => Ok(bytes),
        Err(_) => Err(AllocError),
    }
}

// Adds a piece so many times.
fn push_times(bytes: &mut Vec<u8>, piece: &[u8], times: u32) -> Result<(), AllocError> {
    if let [byte] = piece {
        return bytes.resize(bytes.len() + times as usize, *byte);
    }
    for _ in 0..times {
        bytes.extend_from_slice(piece)?;
    }
    Ok(())
}

// Adds a piece, as often as it says.
fn push_piece(alloc: Global, bytes: &mut Vec<u8>, piece: &str) -> Result<(), AllocError> {
    let (digits, times) = piece.split_once('*').unwrap_or((piece, "1"));
    let once = bytes_of(alloc, digits)?;
    match times.parse::<u32>() {
        Ok(times) => push_times(bytes, once.as_slice(), times),
        Err(_) => Err(AllocError),
    }
}

/// The bytes of pieces between blanks, as `d86b 00*16 a0`: a piece may be repeated.
pub(crate) fn pieces_of(alloc: Global, pieces: &str) -> Result<Vec<u8>, AllocError> {
    let mut bytes = Vec::new(alloc);
    for piece in pieces.split(' ') {
        push_piece(alloc, &mut bytes, piece)?;
    }
    Ok(bytes)
}

fn joined(alloc: Global, front: &[u8], middle: &[u8], back: &[u8]) -> Result<Vec<u8>, AllocError> {
    let mut joined = front.to_vec(alloc)?;
    joined.extend_from_slice(middle)?;
    joined.extend_from_slice(back)?;
    Ok(joined)
}

// The bytes with these pieces in the place of so many bytes.
fn replaced(
    alloc: Global,
    bytes: &[u8],
    place: usize,
    count: usize,
    pieces: &str,
) -> Result<Vec<u8>, AllocError> {
    let front = bytes.get(..place).unwrap_or(b"");
    let back = bytes.get(place.saturating_add(count)..).unwrap_or(b"");
    let middle = pieces_of(alloc, pieces)?;
    joined(alloc, front, middle.as_slice(), back)
}

// The bytes after a change: its place, how many bytes it takes out, and the pieces that it puts there.
fn changed_once(alloc: Global, bytes: &[u8], change: &str) -> Result<Vec<u8>, AllocError> {
    let (place, rest) = halves(change, ' ');
    let (count, pieces) = halves(rest, ' ');
    match (place.parse::<u32>(), count.parse::<u32>()) {
        (Ok(place), Ok(count)) => replaced(alloc, bytes, place as usize, count as usize, pieces),
        _ => Err(AllocError),
    }
}

/// The bytes after some changes, one a line, such as `50 1 02`.
pub(crate) fn changed(alloc: Global, bytes: &[u8], changes: &str) -> Result<Vec<u8>, AllocError> {
    let mut changed = bytes.to_vec(alloc)?;
    for change in changes.split('\n') {
        changed = changed_once(alloc, changed.as_slice(), change)?;
    }
    Ok(changed)
}

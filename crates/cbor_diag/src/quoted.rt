//! Reading quoted strings.

ghost use Rattle.std.specs.Prelude.{◌≡◌, option_map};
ghost use Rattle.cbor_diag.specs.Answers.{Gives};
ghost use Rattle.cbor_diag.specs.Reading.{quote_of, piece_at, quoted_at};

use crate::NotationFault;
use crate::piece::{after, character, hex_byte};
use det_cbor::Bytes;
use std::alloc::Global;

/// The kinds of quoted strings.
#[derive(Clone, Copy)]
pub(crate) enum Quoted {
    Bytes,
    Text,
}

fn closing(quoted: Quoted) -> &'static [u8]
    ensures { result.now ≡ quote_of quoted }
{
    match quoted {
        Quoted::Bytes => b"'",
        Quoted::Text => b"\"",
    }
}

fn piece(quoted: Quoted, text: &[u8]) -> Option<(u8, &[u8])>
    ensures { option_map (λ r. (r.0, r.1.now)) result ≡ piece_at quoted text.now }
{
    match quoted {
        Quoted::Bytes => hex_byte(text),
        Quoted::Text => character(text),
    }
}

/// Reads the bytes up to the closing quote, and returns what follows it.
pub(crate) fn read_quoted(
    alloc: Global,
    quoted: Quoted,
    text: &[u8],
) -> Result<(Bytes, &[u8]), NotationFault>
    ensures { Gives (λ r. (r.0, r.1.now)) result
        (quoted_at quoted text.now) }
{
    let mut bytes = Bytes::new(alloc);
    let mut rest = text;
    for _ in 0..text.len() {
        if let Some(end) = after(rest, closing(quoted)) {
            return Ok((bytes, end));
        }
        let Some((byte, later)) = piece(quoted, rest) else {
            return Err(NotationFault::NoNotation);
        };
        bytes.push(byte)?;
        rest = later;
    }
    Err(NotationFault::NoNotation)
}

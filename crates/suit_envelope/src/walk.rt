//! Going through the blocks of an envelope.

ghost use Rattle.std.specs.Prelude.{◌≡◌, ℕ, List, drop, option_map};
ghost use Rattle.std.specs.List.{slice_get};
ghost use Rattle.suit_params.specs.declared.digest.Digest.{Digest};
ghost use Rattle.suit_envelope.specs.WrapperParts.{WrapperSays};

use crate::Envelope;
use crate::authenticity::first_string;
use crate::wrapper_parts::count;
use det_cbor::Cursor;
use std::marker::Model;
use suit_params::{bytes_left, read_content};

/// The authentication blocks of an envelope that are still to come, in their order. Going through
/// all of them reads the wrapper once.
#[derive(Debug, Drop)]
pub struct BlockWalk<'a> {
    rest: Cursor<'a>,
    left: u64,
}

impl<'a> Model for BlockWalk<'a> {
    ghost use Rattle.std.specs.Prelude.{ℕ, List};
    ghost use Rattle.suit_envelope.specs.Walk.{walked_from};

    ghost Value = { List (List ℕ) };

    ghost view = { λ b. walked_from b.left b.rest };
}

impl<'a> BlockWalk<'a> {
    /// Starts before the first authentication block of the envelope.
    pub fn new(envelope: &Envelope<'a>) -> BlockWalk<'a>
        ensures { (digest : Digest) (blocks : List (List ℕ))
            → WrapperSays envelope.now.wrapper.now digest blocks → result ≡ blocks }
    {
        match first_string(envelope.wrapper) {
            Ok((_, rest)) => BlockWalk {
                rest,
                left: count(envelope.wrapper),
            },
            Err(_) => BlockWalk {
                rest: Cursor::new(&[], 0),
                left: 0,
            },
        }
    }

    /// The next block, or `None` after the last one.
    pub fn next_block(&mut self) -> Option<&'a [u8]>
        ensures first { option_map (λ b. b.now) result ≡ slice_get self.old 0 }
        ensures rest { self.new ≡ drop 1 self.old }
    {
        if self.left == 0 {
            return None;
        }
        match read_content(&mut self.rest) {
            Ok(content) => {
                self.left -= 1;
                Some(bytes_left(content))
            }
            Err(_) => {
                self.left = 0;
                None
            }
        }
    }
}

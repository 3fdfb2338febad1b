//! The integrated payloads of an envelope to be made.

ghost use Rattle.std.specs.Prelude.{◌≡◌, [], None, OnOk, OnErr};
ghost use Rattle.suit_envelope.specs.PayloadOrder.{AreAscending, put_payload};

use crate::PayloadBytes;
use crate::payload_order::place_of;
use det_cbor::Text;
use std::alloc::{AllocError, Global};
use std::marker::Model;

/// Integrated payloads, each with its key, which is a text in the envelope
/// (draft-ietf-suit-manifest-25, section 8.2). The keys ascend in the order of their spellings.
#[derive(Debug, Drop)]
pub struct PayloadList<'a> {
    held: Vec<(Text, PayloadBytes<'a>)>,
}

impl<'a> Model for PayloadList<'a> {
    ghost use Rattle.std.specs.Prelude.{List, ℕ, None};
    ghost use Rattle.suit_envelope.specs.PayloadOrder.{AreAscending};

    ghost Value = { List (List ℕ × List ℕ) };

    ghost view = { λ p. p.held.items };

    ghost invariant = { λ p. AreAscending None p.held.items };
}

impl<'a> PayloadList<'a> {
    /// An empty list; allocates nothing until it grows.
    pub fn new(alloc: Global) -> PayloadList<'a>
        ensures { result ≡ [] }
    {
        PayloadList {
            held: Vec::new(alloc),
        }
    }

    /// Puts a payload at its place, so that the keys still ascend in the order of their spellings.
    /// Replaces a payload with the same key.
    #[tactic(auto, using(crate::proofs::PayloadPlaces::put_ascends))]
    pub fn put(&mut self, key: Text, payload: PayloadBytes<'a>) -> Result<(), AllocError>
        ensures ok { OnOk result (self.new ≡ put_payload (key, payload.entry) self.old) }
        ensures err { OnErr result (self.new ≡ self.old) }
        ensures ascends { AreAscending None self.old → AreAscending None self.new }
    {
        match place_of(self.held.as_slice(), key.as_str()) {
            Ok(at) => self.held[at] = (key, payload),
            Err(at) => self.held.insert(at, (key, payload))?,
        }
        Ok(())
    }

    /// Borrows the payloads.
    pub fn as_slice(&self) -> &[(Text, PayloadBytes<'a>)]
        ensures { result.now ≡ self.now }
    {
        self.held.as_slice()
    }
}

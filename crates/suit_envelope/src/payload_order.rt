//! The order of integrated payloads in an envelope's map.

ghost use Rattle.std.specs.Prelude.{◌≡◌, None};
ghost use Rattle.suit_envelope.specs.PayloadOrder.{key_order, AreAscending, IsPlaceOf};

use crate::PayloadBytes;
use det_cbor::Text;
use std::cmp::Ordering;

// Compares the spellings of two texts bytewise: the shorter text comes first.
#[tactic(auto, using(crate::proofs::PayloadPlaces::by_bytes, crate::proofs::PayloadPlaces::by_length))]
fn key_order(left: &str, right: &str) -> Ordering
    ensures { result ≡ key_order left.now right.now }
{
    match left.len().cmp(&right.len()) {
        Ordering::Equal => left.cmp(right),
        decided => decided,
    }
}

/// The index of a key among payloads whose keys ascend, or else the index to insert it at.
pub(crate) fn place_of(list: &[(Text, PayloadBytes<'_>)], key: &str) -> Result<usize, usize>
    requires { AreAscending None list.now }
    ensures { IsPlaceOf list.now key.now result }
{
    let mut low = 0;
    let mut high = list.len();
    while low < high {
        let middle = low + (high - low) / 2;
        match key_order(key, list[middle].0.as_str()) {
            Ordering::Less => high = middle,
            Ordering::Equal => return Ok(middle),
            Ordering::Greater => low = middle + 1,
        }
    }
    Err(low)
}

//! Skipping one whole item, which is judged as when it is read.

ghost use Rattle.std.specs.Prelude.{◌≡◌, ◌≤◌, ◌+◌, ◌++◌, ℕ, take, length, None, Ok, Err, IfOk, IfErr};
ghost use Rattle.det_cbor.specs.declared.reason.Reason.{Reason};
ghost use Rattle.det_cbor.specs.DataItem.{DataItem};
ghost use Rattle.det_cbor.specs.Faults.{Faulty};
ghost use Rattle.det_cbor.specs.HeadReading.{map_ok};
ghost use Rattle.det_cbor.specs.ItemSkipping.{skips_by, pair_skips_by, skip_at, item_split};
ghost use Rattle.det_cbor.specs.OneReading.{IsItem, StartsWithItem};

use crate::parts::{first_head, order, part_levels, read_before, string_in, text_in};
use crate::reason::Stop;
use crate::validity::MAX_LEVELS;
use crate::{CborRefusal, HeadKind};

/// Skips the first item, which may nest at most `levels` deep, and returns the bytes after it.
#[cycle(skip)]
#[tactic(auto, using(crate::proofs::Skipping::skip_at_is))]
pub(crate) fn skip_item(bytes: &[u8], levels: u8) -> Result<&[u8], Stop>
    ensures { map_ok (λ rest. rest.now) result ≡ skip_at levels bytes.now }
{
    let (head, rest) = first_head(bytes)?;
    match head.kind {
        HeadKind::Unsigned | HeadKind::Negative | HeadKind::Bool | HeadKind::Null => Ok(rest),
        HeadKind::Bytes => {
            let (_, rest) = string_in(bytes, head.value, rest)?;
            Ok(rest)
        }
        HeadKind::Text => {
            let (_, rest) = text_in(bytes, head.value, rest)?;
            Ok(rest)
        }
        HeadKind::Array => skip_items(head.value, rest, part_levels(bytes, levels)?),
        HeadKind::Map => skip_pairs(head.value, rest, part_levels(bytes, levels)?),
        HeadKind::Tag => skip_item(rest, part_levels(bytes, levels)?),
    }
}

#[cycle(skip)]
fn skip_items(count: u64, bytes: &[u8], levels: u8) -> Result<&[u8], Stop>
    ensures { map_ok (λ rest. rest.now) result ≡ skips_by (skip_at levels) count bytes.now }
{
    let mut rest = bytes;
    for _ in 0..count {
        rest = skip_item(rest, levels)?;
    }
    Ok(rest)
}

#[cycle(skip)]
fn skip_pairs(count: u64, bytes: &[u8], levels: u8) -> Result<&[u8], Stop>
    ensures { map_ok (λ rest. rest.now) result
        ≡ pair_skips_by (skip_at levels) None count bytes.now }
{
    let mut rest = bytes;
    let mut before = None;
    for _ in 0..count {
        let after = skip_item(rest, levels)?;
        let key = read_before(rest, after);
        order(rest, before, key)?;
        before = Some(key);
        rest = skip_item(after, levels)?;
    }
    Ok(rest)
}

// Splits the first item off. A refusal counts its place from the first byte.
#[tactic(auto, unfolding(crate::specs::ItemSkipping::item_split))]
fn split(bytes: &[u8]) -> Result<(&[u8], &[u8]), CborRefusal>
    ensures { map_ok (λ f. (f.0.now, f.1.now)) result ≡ item_split bytes.now }
{
    match skip_item(bytes, MAX_LEVELS) {
        Ok(rest) => Ok(bytes.split_at(bytes.len().saturating_sub(rest.len()))),
        Err(stop) => {
            let place = bytes.len().saturating_sub(stop.left) as u64;
            Err(CborRefusal {
                place,
                reason: stop.reason,
            })
        }
    }
}

/// Splits the first item off. A refusal counts its place from the first byte.
pub(crate) fn split_item(bytes: &[u8]) -> Result<(&[u8], &[u8]), CborRefusal>
    ensures exact { map_ok (λ f. (f.0.now, f.1.now)) result ≡ item_split bytes.now }
    ensures parts { IfOk result (λ f. bytes.now ≡ f.0.now ++ f.1.now) }
    ensures length { IfOk result (λ f. length bytes.now ≡ length f.0.now + length f.1.now) }
    ensures item { IfOk result (λ f. IsItem f.0.now) }
    ensures fault { IfErr result (λ e. Faulty 0 bytes.now e.place e.reason) }
    ensures within { IfErr result (λ e. e.place ≤ length bytes.now) }
    ensures every_item { (x : DataItem) (used : ℕ) → StartsWithItem bytes.now x used
        → map_ok (λ f. f.0.now) result ≡ Ok (take used bytes.now) }
    ensures every_fault { (at : ℕ) (reason : Reason) → Faulty 0 bytes.now at reason
        → map_ok (λ f. f.0.now) result ≡ Err (record { place = at; reason = reason }) }
{
    split(bytes)
}

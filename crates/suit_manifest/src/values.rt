//! Reading the values in a manifest's map, from items that were judged before.

ghost use Rattle.std.specs.Prelude.{◌≡◌};
ghost use Rattle.det_cbor.specs.HeadReading.{map_ok};
ghost use Rattle.suit_params.specs.Answering.{Gives};
ghost use Rattle.suit_manifest.specs.MapReading.{may};
ghost use Rattle.suit_manifest.specs.ManifestReading.{number_at, version_at, text_at, apart_at, here_at, severed_at, text_apart_at, text_here_at, text_member_at, severed_in, text_in};

use crate::common::read_sequence;
use crate::{Member, TextMember};
use det_cbor::{Cursor, HeadKind, Reason, Text, as_text};
use std::alloc::Global;
use suit_params::{
    Fault, Refusal, Why, copy_left, digest_of, only_item, read_bytes, read_content, read_head,
    refused, same_place,
};

/// Reads an unsigned number, from an item that was judged before.
#[tactic(auto, unfolding(crate::specs::ManifestReading::number_at))]
pub fn read_number(mut item: Cursor<'_>) -> Result<u64, Refusal>
    ensures { result ≡ number_at item.entry }
{
    let place = item.place();
    let head = read_head(&mut item)?;
    match head.kind {
        HeadKind::Unsigned => Ok(head.value),
        _ => refused(place, Why::Shape),
    }
}

/// Reads the version, which must be 1, from an item that was judged before.
pub fn read_version(item: Cursor<'_>) -> Result<u64, Refusal>
    ensures { result ≡ version_at item.entry }
{
    let place = item.place();
    let version = read_number(item)?;
    if version == 1 {
        Ok(version)
    } else {
        refused(place, Why::Version(version))
    }
}

/// Reads a text, from an item that was judged before. Allocates nothing.
#[tactic(auto, unfolding(crate::specs::ManifestReading::text_at))]
pub fn read_text<'a>(mut item: Cursor<'a>) -> Result<&'a str, Refusal>
    ensures { map_ok (λ t. t.now) result ≡ text_at item.entry }
{
    let place = item.place();
    let head = read_head(&mut item)?;
    match head.kind {
        HeadKind::Text => match as_text(read_bytes(&mut item, head.value)?) {
            Some(text) => Ok(text),
            None => refused(place, Why::Cbor(Reason::BadText)),
        },
        _ => refused(place, Why::Shape),
    }
}

/// Reads and copies a text, if there is one.
pub(crate) fn read_reference(alloc: Global, item: Option<Cursor<'_>>) -> Result<Option<Text>, Fault>
    ensures { Gives (λ t. t) result (may text_at item.entry) }
{
    match item {
        Some(item) => Ok(Some(Text::from_str(alloc, read_text(item)?)?)),
        None => Ok(None),
    }
}

fn read_apart(item: Cursor<'_>) -> Result<Member, Refusal>
    ensures { result ≡ apart_at item.entry }
{
    Ok(Member::Apart(digest_of(item)?))
}

fn read_here(alloc: Global, item: Cursor<'_>, count: u32) -> Result<Member, Fault>
    ensures { Gives (λ m. m) result (here_at count item.entry) }
{
    Ok(Member::Here(read_sequence(alloc, item, false, count)?))
}

// Reads a digest, or a byte string that holds a sequence.
#[tactic(auto, unfolding(crate::specs::ManifestReading::severed_at))]
fn read_severed(alloc: Global, mut item: Cursor<'_>, count: u32) -> Result<Member, Fault>
    ensures { Gives (λ m. m) result (severed_at count item.entry) }
{
    let mut ahead = same_place(&mut item);
    let head = read_head(&mut ahead)?;
    match head.kind {
        HeadKind::Array => Ok(read_apart(item)?),
        _ => read_here(alloc, item, count),
    }
}

/// Reads a severable member, if there is one.
pub(crate) fn read_member(
    alloc: Global,
    item: Option<Cursor<'_>>,
    count: u32,
) -> Result<Member, Fault>
    ensures { Gives (λ m. m) result (severed_in count item.entry) }
{
    match item {
        Some(item) => read_severed(alloc, item, count),
        None => Ok(Member::Empty),
    }
}

fn read_text_apart(item: Cursor<'_>) -> Result<TextMember, Refusal>
    ensures { result ≡ text_apart_at item.entry }
{
    Ok(TextMember::Apart(digest_of(item)?))
}

fn read_text_here(alloc: Global, mut item: Cursor<'_>) -> Result<TextMember, Fault>
    ensures { Gives (λ m. m) result (text_here_at item.entry) }
{
    let mut content = read_content(&mut item)?;
    let again = same_place(&mut content);
    only_item(again)?;
    Ok(TextMember::Here(copy_left(alloc, content)?))
}

// Reads a digest, or a byte string that holds one item.
#[tactic(auto, unfolding(crate::specs::ManifestReading::text_member_at))]
fn read_text_item(alloc: Global, mut item: Cursor<'_>) -> Result<TextMember, Fault>
    ensures { Gives (λ m. m) result (text_member_at item.entry) }
{
    let mut ahead = same_place(&mut item);
    let head = read_head(&mut ahead)?;
    match head.kind {
        HeadKind::Array => Ok(read_text_apart(item)?),
        _ => read_text_here(alloc, item),
    }
}

/// Reads the text, if there is one.
pub(crate) fn read_text_member(alloc: Global, item: Option<Cursor<'_>>) -> Result<TextMember, Fault>
    ensures { Gives (λ m. m) result (text_in item.entry) }
{
    match item {
        Some(item) => read_text_item(alloc, item),
        None => Ok(TextMember::Empty),
    }
}

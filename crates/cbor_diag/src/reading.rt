//! Reading diagnostic notation. The reader accepts a little more than notations, so what it reads
//! is written again and compared.

ghost use Rattle.std.specs.Prelude.{◌≡◌, ◌<◌, ℕ, List, length, option_map, IfOk};
ghost use Rattle.det_cbor.specs.DataItem.{DataItem};
ghost use Rattle.det_cbor.specs.ItemTree.{tree_of};
ghost use Rattle.cbor_diag.specs.Answers.{Gives, IsReadAs, Notates};
ghost use Rattle.cbor_diag.specs.Reading.{negative_at, bytes_at, text_at, word_at, items_by, pairs_by, numbered_at, marked_at, item_at, reader_at};

use crate::number::read_number;
use crate::piece::{after, past};
use crate::quoted::{Quoted, read_quoted};
use crate::{NotationFault, notation};
use det_cbor::{Inner, Item, Items, Pairs, Text, valid};
use std::alloc::Global;

// How deep the arrays, maps and tags of a valid item may nest.
const MAX_LEVELS: u8 = 16;

fn read_negative(text: &[u8]) -> Option<(Item, &[u8])>
    ensures { option_map (λ r. (tree_of r.0, r.1.now)) result ≡ negative_at text.now }
{
    let (number, rest) = read_number(text)?;
    let number = u64::try_from(number.checked_sub(1)?).ok()?;
    Some((Item::Negative(number), rest))
}

fn read_word(text: &[u8]) -> Option<(Item, &[u8])>
    ensures { option_map (λ r. (tree_of r.0, r.1.now)) result ≡ word_at text.now }
{
    if let Some(rest) = after(text, b"true") {
        return Some((Item::Bool(true), rest));
    }
    if let Some(rest) = after(text, b"false") {
        return Some((Item::Bool(false), rest));
    }
    let rest = after(text, b"null")?;
    Some((Item::Null, rest))
}

fn read_bytes(alloc: Global, text: &[u8]) -> Result<(Item, &[u8]), NotationFault>
    ensures { Gives (λ r. (tree_of r.0, r.1.now)) result (bytes_at text.now) }
{
    let (bytes, rest) = read_quoted(alloc, Quoted::Bytes, text)?;
    Ok((Item::Bytes(bytes), rest))
}

#[tactic(auto, using(crate::proofs::Steps::good_utf8, crate::proofs::Steps::bad_utf8))]
fn read_text(alloc: Global, text: &[u8]) -> Result<(Item, &[u8]), NotationFault>
    ensures { Gives (λ r. (tree_of r.0, r.1.now)) result (text_at text.now) }
{
    let (bytes, rest) = read_quoted(alloc, Quoted::Text, text)?;
    match String::from_utf8(bytes.into_vec()) {
        Ok(text) => Ok((Item::Text(Text::from_string(text)), rest)),
        Err(_) => Err(NotationFault::NoNotation),
    }
}

// The levels that are left for the parts of an item.
fn part_levels(levels: u8) -> Result<u8, NotationFault>
    ensures reader { Gives item_at result (reader_at levels) }
    ensures fewer { IfOk result (λ left. left < levels) }
{
    levels.checked_sub(1).ok_or(NotationFault::NoNotation)
}

fn found<'a>(read: Option<(Item, &'a [u8])>) -> Result<(Item, &'a [u8]), NotationFault>
    ensures { Gives {Y = DataItem × List ℕ} (λ r. (tree_of r.0, r.1.now)) result
        (option_map (λ r. (tree_of r.0, r.1.now)) read.entry) }
{
    read.ok_or(NotationFault::NoNotation)
}

#[cycle(read)]
#[tactic(auto, using(crate::proofs::Steps::item_at_is))]
fn read_item(alloc: Global, text: &[u8], levels: u8) -> Result<(Item, &[u8]), NotationFault>
    ensures { Gives (λ r. (tree_of r.0, r.1.now)) result (item_at levels text.now) }
{
    match text {
        [] => Err(NotationFault::NoNotation),
        [first, ..] if first.is_ascii_digit() => read_numbered(alloc, text, levels),
        _ => read_marked(alloc, text, levels),
    }
}

// Reads an item that does not begin with a digit.
#[cycle(read)]
fn read_marked(alloc: Global, text: &[u8], levels: u8) -> Result<(Item, &[u8]), NotationFault>
    ensures { Gives (λ r. (tree_of r.0, r.1.now)) result (marked_at (reader_at levels) text.now) }
{
    if let Some(rest) = after(text, b"-") {
        return found(read_negative(rest));
    }
    if let Some(rest) = after(text, b"h'") {
        return read_bytes(alloc, rest);
    }
    if let Some(rest) = after(text, b"\"") {
        return read_text(alloc, rest);
    }
    if let Some(rest) = after(text, b"[") {
        let (items, rest) = read_items(alloc, rest, part_levels(levels)?)?;
        return Ok((Item::Array(items), rest));
    }
    if let Some(rest) = after(text, b"{") {
        let (pairs, rest) = read_pairs(alloc, rest, part_levels(levels)?)?;
        return Ok((Item::Map(pairs), rest));
    }
    found(read_word(text))
}

// Reads an unsigned integer, or a tag and its item.
#[cycle(read)]
fn read_numbered(alloc: Global, text: &[u8], levels: u8) -> Result<(Item, &[u8]), NotationFault>
    ensures { Gives (λ r. (tree_of r.0, r.1.now)) result (numbered_at (reader_at levels) text.now) }
{
    let Some((number, rest)) = read_number(text) else {
        return Err(NotationFault::NoNotation);
    };
    let Ok(number) = u64::try_from(number) else {
        return Err(NotationFault::NoNotation);
    };
    let Some(inner) = after(rest, b"(") else {
        return Ok((Item::Unsigned(number), rest));
    };
    let (item, rest) = read_item(alloc, inner, part_levels(levels)?)?;
    let Some(rest) = after(rest, b")") else {
        return Err(NotationFault::NoNotation);
    };
    Ok((Item::Tagged(number, Inner::new(alloc, item)?), rest))
}

#[cycle(read)]
fn read_items(alloc: Global, text: &[u8], levels: u8) -> Result<(Items, &[u8]), NotationFault>
    ensures { Gives (λ r. (r.0, r.1.now)) result
        (items_by (item_at levels) (length text.now) text.now) }
{
    let mut items = Items::new(alloc);
    let mut rest = text;
    for _ in 0..text.len() {
        if let Some(end) = after(rest, b"]") {
            return Ok((items, end));
        }
        let (item, later) = read_item(alloc, rest, levels)?;
        items.push(item)?;
        rest = past(later, b", ");
    }
    Err(NotationFault::NoNotation)
}

#[cycle(read)]
fn read_pairs(alloc: Global, text: &[u8], levels: u8) -> Result<(Pairs, &[u8]), NotationFault>
    ensures { Gives (λ r. (r.0, r.1.now)) result
        (pairs_by (item_at levels) (length text.now) text.now) }
{
    let mut pairs = Pairs::new(alloc);
    let mut rest = text;
    for _ in 0..text.len() {
        if let Some(end) = after(rest, b"}") {
            return Ok((pairs, end));
        }
        let (key, after_key) = read_item(alloc, rest, levels)?;
        let (value, later) = read_item(alloc, past(after_key, b": "), levels)?;
        pairs.push(key, value)?;
        rest = past(later, b", ");
    }
    Err(NotationFault::NoNotation)
}

// Returns the item if it is valid and the text is its notation.
fn checked(alloc: Global, text: &str, item: Item) -> Result<Item, NotationFault>
    ensures same { IfOk result (λ same. tree_of same ≡ tree_of item) }
    ensures notates { IfOk result (λ same. Notates (tree_of same) text.now) }
    ensures only { Notates (tree_of item) text.now → IsReadAs (tree_of item) result }
{
    if !valid(&item) {
        return Err(NotationFault::NoNotation);
    }
    let again = notation(alloc, &item)?;
    if again.as_str() != text {
        return Err(NotationFault::NoNotation);
    }
    Ok(item)
}

/// Reads the item whose notation the text is. Allocates for the item, and once more for its
/// notation.
pub fn read_notation(alloc: Global, text: &str) -> Result<Item, NotationFault>
    ensures item { IfOk result (λ item. Notates (tree_of item) text.now) }
    ensures every_item { (x : DataItem) → Notates x text.now → IsReadAs x result }
{
    let (item, _) = read_item(alloc, text.as_bytes(), MAX_LEVELS)?;
    checked(alloc, text, item)
}

//! Writing an item in diagnostic notation.

ghost use Rattle.std.specs.Prelude.{◌≡◌, [], ◌∷◌, ◌++◌, IfOk, OnOk, string_bytes, encode_utf8, decimal, suc, codes};
ghost use Rattle.hex.specs.Hex.{encode_lower};
ghost use Rattle.det_cbor.specs.DataItem.{IsValid};
ghost use Rattle.det_cbor.specs.DataLists.{items_of, pairs_of};
ghost use Rattle.det_cbor.specs.ItemTree.{tree_of, trees_of, pair_trees_of};
ghost use Rattle.cbor_diag.specs.Notation.{notation_of, items_notation, later_items, pairs_notation, later_pairs, bytes_notation, text_notation, escaped};

use det_cbor::{Item, Text};
use itoa::Buffer;
use std::alloc::{AllocError, Global};

/// Writes an item in diagnostic notation (RFC 8949, section 8).
pub fn notation(alloc: Global, item: &Item) -> Result<Text, AllocError>
    requires { IsValid (tree_of item.now) }
    ensures { IfOk result (λ text. text ≡ notation_of (tree_of item.now)) }
{
    let mut out = String::new(alloc);
    push_item(alloc, &mut out, item)?;
    Ok(Text::from_string(out))
}

fn push_number(out: &mut String, number: u128) -> Result<(), AllocError>
    ensures { OnOk result (string_bytes out.new ≡ string_bytes out.old ++ decimal number) }
{
    let mut buffer = Buffer::new();
    out.push_str(buffer.format(number))
}

// Writes the integer -1 - number.
fn push_negative(out: &mut String, number: u64) -> Result<(), AllocError>
    ensures { OnOk result
        (string_bytes out.new ≡ string_bytes out.old ++ 45 ∷ decimal (suc number)) }
{
    out.push_str("-")?;
    push_number(out, u128::from(number) + 1)
}

fn push_bytes(alloc: Global, out: &mut String, bytes: &[u8]) -> Result<(), AllocError>
    ensures { OnOk result
        (string_bytes out.new ≡ string_bytes out.old ++ bytes_notation bytes.now) }
{
    let digits = hex::encode(alloc, bytes)?;
    out.push_str("h'")?;
    out.push_str(digits.as_str())?;
    out.push_str("'")
}

fn push_escape(alloc: Global, out: &mut String, byte: u8) -> Result<(), AllocError>
    ensures { OnOk result (string_bytes out.new
        ≡ string_bytes out.old ++ (codes "\\u00" ++ encode_lower (byte ∷ []))) }
{
    let digits = hex::encode(alloc, &[byte])?;
    out.push_str("\\u00")?;
    out.push_str(digits.as_str())
}

#[tactic(auto, using(crate::proofs::Escapes::escaped_plain))]
fn push_character(alloc: Global, out: &mut String, character: char) -> Result<(), AllocError>
    ensures { OnOk result (string_bytes out.new
        ≡ string_bytes out.old ++ escaped (encode_utf8 character)) }
{
    match character {
        '"' => out.push_str("\\\""),
        '\\' => out.push_str("\\\\"),
        '\0'..='\u{1f}' | '\u{7f}' => push_escape(alloc, out, character as u8),
        _ => out.push(character),
    }
}

fn push_escaped(alloc: Global, out: &mut String, text: &str) -> Result<(), AllocError>
    ensures { OnOk result (string_bytes out.new ≡ string_bytes out.old ++ escaped text.now) }
{
    for character in text.chars() {
        push_character(alloc, out, character)?;
    }
    Ok(())
}

fn push_text(alloc: Global, out: &mut String, text: &str) -> Result<(), AllocError>
    ensures { OnOk result (string_bytes out.new ≡ string_bytes out.old ++ text_notation text.now) }
{
    out.push_str("\"")?;
    push_escaped(alloc, out, text)?;
    out.push_str("\"")
}

// Recurses as deep as the item nests, which is at most 16 levels for a valid item.
#[cycle(push)]
fn push_item(alloc: Global, out: &mut String, item: &Item) -> Result<(), AllocError>
    ensures { OnOk result (string_bytes out.new
        ≡ string_bytes out.old ++ notation_of (tree_of item.now)) }
{
    match item {
        Item::Unsigned(number) => push_number(out, u128::from(*number)),
        Item::Negative(number) => push_negative(out, *number),
        Item::Bytes(bytes) => push_bytes(alloc, out, bytes.as_slice()),
        Item::Text(text) => push_text(alloc, out, text.as_str()),
        Item::Array(items) => {
            out.push_str("[")?;
            push_items(alloc, out, items.as_slice())?;
            out.push_str("]")
        }
        Item::Map(pairs) => {
            out.push_str("{")?;
            push_pairs(alloc, out, pairs.as_slice())?;
            out.push_str("}")
        }
        Item::Tagged(tag, inner) => {
            push_number(out, u128::from(*tag))?;
            out.push_str("(")?;
            push_item(alloc, out, inner.as_item())?;
            out.push_str(")")
        }
        Item::Bool(truth) => out.push_str(if *truth { "true" } else { "false" }),
        Item::Null => out.push_str("null"),
    }
}

#[cycle(push)]
fn push_items(alloc: Global, out: &mut String, items: &[Item]) -> Result<(), AllocError>
    ensures { OnOk result (string_bytes out.new
        ≡ string_bytes out.old ++ items_notation (items_of (trees_of items.now))) }
{
    let Some((first, later)) = items.split_first() else {
        return Ok(());
    };
    push_item(alloc, out, first)?;
    for item in later {
        out.push_str(", ")?;
        push_item(alloc, out, item)?;
    }
    Ok(())
}

#[cycle(push)]
fn push_pair(alloc: Global, out: &mut String, pair: &(Item, Item)) -> Result<(), AllocError>
    ensures { OnOk result (string_bytes out.new ≡ string_bytes out.old
        ++ (notation_of (tree_of pair.now.0) ++ (codes ": " ++ notation_of (tree_of pair.now.1)))) }
{
    let (key, value) = pair;
    push_item(alloc, out, key)?;
    out.push_str(": ")?;
    push_item(alloc, out, value)
}

#[cycle(push)]
fn push_pairs(alloc: Global, out: &mut String, pairs: &[(Item, Item)]) -> Result<(), AllocError>
    ensures { OnOk result (string_bytes out.new
        ≡ string_bytes out.old ++ pairs_notation (pairs_of (pair_trees_of pairs.now))) }
{
    let Some((first, later)) = pairs.split_first() else {
        return Ok(());
    };
    push_pair(alloc, out, first)?;
    for pair in later {
        out.push_str(", ")?;
        push_pair(alloc, out, pair)?;
    }
    Ok(())
}

//! The severed members.

ghost use Rattle.std.specs.Prelude.{◌≡◌, IfOk, OnOk, option_map};
ghost use Rattle.serde_json.specs.Data.{Items};
ghost use Rattle.serde_json.specs.View.{view, items_view};
ghost use Rattle.describe.specs.Growing.{joined};
ghost use Rattle.describe.specs.SeverData.{pair_data, entry_data, entry_if, severed_names, sever_data};

use author::Severed;
use serde_json::Value;
use std::alloc::{AllocError, Global};
use suit_params::DigestKind;

// Writes an array of two texts.
fn pair_value(alloc: Global, name: &str, algorithm: &str) -> Result<Value, AllocError>
    ensures { IfOk result (λ v. view v ≡ pair_data name.now algorithm.now) }
{
    let mut pair = Vec::new(alloc);
    pair.push(Value::try_from_str(alloc, name)?)?;
    pair.push(Value::try_from_str(alloc, algorithm)?)?;
    Ok(Value::from(pair))
}

// Writes a name, for SHA-256, or else a name and a hash function.
fn entry_value(alloc: Global, name: &str, kind: DigestKind) -> Result<Value, AllocError>
    ensures { IfOk result (λ v. view v ≡ entry_data name.now kind) }
{
    match kind {
        DigestKind::Sha256 => Value::try_from_str(alloc, name),
        DigestKind::Sha384 => pair_value(alloc, name, "sha384"),
        DigestKind::Sha512 => pair_value(alloc, name, "sha512"),
    }
}

// Adds an entry for a member, if it is severed.
fn push_entry(
    alloc: Global,
    entries: &mut Vec<Value>,
    severed: bool,
    name: &str,
    kind: DigestKind,
) -> Result<(), AllocError>
    ensures { (more : Items) → OnOk result (joined (items_view entries.new.items) more
        ≡ joined (items_view entries.old.items) (entry_if severed name.now kind more)) }
{
    if severed {
        entries.push(entry_value(alloc, name, kind)?)?;
    }
    Ok(())
}

fn severed_names(alloc: Global, severed: Severed) -> Result<Vec<Value>, AllocError>
    ensures { IfOk result (λ entries. items_view entries.items ≡ severed_names severed) }
{
    let mut entries = Vec::new(alloc);
    push_entry(
        alloc,
        &mut entries,
        severed.payload_fetch,
        "payload-fetch",
        severed.kinds.payload_fetch,
    )?;
    push_entry(
        alloc,
        &mut entries,
        severed.install,
        "install",
        severed.kinds.install,
    )?;
    push_entry(
        alloc,
        &mut entries,
        severed.text,
        "text",
        severed.kinds.text,
    )?;
    Ok(entries)
}

/// Writes an array of the severed members, or nothing if there are none.
pub(crate) fn sever_value(alloc: Global, severed: Severed) -> Result<Option<Value>, AllocError>
    ensures { IfOk result (λ v. option_map view v ≡ sever_data (severed_names severed)) }
{
    let entries = severed_names(alloc, severed)?;
    if entries.is_empty() {
        Ok(None)
    } else {
        Ok(Some(Value::from(entries)))
    }
}

//! Descriptions of envelopes.

ghost use Rattle.std.specs.Prelude.{◌≡◌, ℕ, List, IfOk, OnOk, option_map};
ghost use Rattle.serde_json.specs.Data.{string};
ghost use Rattle.serde_json.specs.View.{view, members_view};
ghost use Rattle.suit_envelope.specs.Payloads.{HasPayloads};
ghost use Rattle.suit_envelope.specs.Said.{said_by};
ghost use Rattle.describe.specs.Describing.{with_field, with_fields, head_fields, sequence_fields, severable_fields, payload_fields, described_by};

use crate::identifiers::identifiers;
use crate::members::{
    apart_text, is_severed, member_kind, member_value, sequence_if, text_kind, text_value,
};
use crate::payloads::payloads_value;
use crate::severing::sever_value;
use author::{MemberKinds, Severed};
use det_cbor::Text;
use serde_json::{Map, Value, put};
use std::alloc::{AllocError, Global};
use suit_envelope::{Envelope, all_payloads};
use suit_manifest::{Manifest, Members};

type Object = Map<String, Value>;

// Adds a field, if it is there.
fn put_field(
    object: &mut Object,
    alloc: Global,
    key: &str,
    value: Option<Value>,
) -> Result<(), AllocError>
    ensures { OnOk result (members_view object.new.entries
        ≡ with_field key.now (option_map view value) (members_view object.old.entries)) }
{
    match value {
        Some(value) => put(object, alloc, key, value),
        None => Ok(()),
    }
}

fn reference_value(alloc: Global, reference: &Option<Text>) -> Result<Option<Value>, AllocError>
    ensures { IfOk result
        (λ v. option_map view v ≡ option_map (λ text. string text) reference.now) }
{
    match reference {
        Some(text) => Ok(Some(Value::try_from_str(alloc, text.as_str())?)),
        None => Ok(None),
    }
}

fn put_heads(object: &mut Object, alloc: Global, manifest: &Manifest) -> Result<(), AllocError>
    ensures { OnOk result (members_view object.new.entries
        ≡ with_fields (head_fields manifest.now) (members_view object.old.entries)) }
{
    put_field(
        object,
        alloc,
        "sequence",
        Some(Value::from(manifest.sequence)),
    )?;
    let components = identifiers(alloc, &manifest.components)?;
    put_field(object, alloc, "components", Some(components))?;
    let reference = reference_value(alloc, &manifest.reference)?;
    put_field(object, alloc, "reference", reference)
}

fn put_sequences(object: &mut Object, alloc: Global, manifest: &Manifest) -> Result<(), AllocError>
    ensures { OnOk result (members_view object.new.entries
        ≡ with_fields (sequence_fields manifest.now) (members_view object.old.entries)) }
{
    let shared = sequence_if(alloc, &manifest.shared)?;
    put_field(object, alloc, "shared", shared)?;
    let validate = sequence_if(alloc, &manifest.validate)?;
    put_field(object, alloc, "validate", validate)?;
    let load = sequence_if(alloc, &manifest.load)?;
    put_field(object, alloc, "load", load)?;
    let invoke = sequence_if(alloc, &manifest.invoke)?;
    put_field(object, alloc, "invoke", invoke)
}

// Adds the members that may be severed, and the entries of those that are.
fn put_severable(
    object: &mut Object,
    alloc: Global,
    envelope: &Envelope<'_>,
    manifest: &Manifest,
    members: &Members,
) -> Result<(), AllocError>
    ensures { OnOk result (members_view object.new.entries
        ≡ with_fields (severable_fields (said_by envelope.now) manifest.now members.now)
        (members_view object.old.entries)) }
{
    let payload_fetch = member_value(alloc, &manifest.payload_fetch, &members.payload_fetch)?;
    put_field(object, alloc, "payload-fetch", payload_fetch)?;
    let install = member_value(alloc, &manifest.install, &members.install)?;
    put_field(object, alloc, "install", install)?;
    let apart = apart_text(envelope, &manifest.text);
    let text = text_value(alloc, &manifest.text, apart)?;
    put_field(object, alloc, "text", text)?;
    let severed = Severed {
        payload_fetch: is_severed(&manifest.payload_fetch, &members.payload_fetch),
        install: is_severed(&manifest.install, &members.install),
        text: apart.is_some(),
        kinds: MemberKinds {
            payload_fetch: member_kind(&manifest.payload_fetch, &members.payload_fetch),
            install: member_kind(&manifest.install, &members.install),
            text: text_kind(&manifest.text, apart),
        },
    };
    let sever = sever_value(alloc, severed)?;
    put_field(object, alloc, "sever", sever)
}

fn put_payloads(
    object: &mut Object,
    alloc: Global,
    envelope: &Envelope<'_>,
) -> Result<(), AllocError>
    ensures { (payloads : List (List ℕ × List ℕ)) → HasPayloads envelope.now.whole.now payloads
        → OnOk result (members_view object.new.entries
        ≡ with_fields (payload_fields payloads) (members_view object.old.entries)) }
{
    let payloads = all_payloads(alloc, envelope)?;
    let value = payloads_value(alloc, payloads.as_slice())?;
    put_field(object, alloc, "payloads", value)
}

/// Describes an envelope, its manifest, and those severed members that are given.
///
/// A member that is in the manifest or among these is written with its content. The severed ones are listed under
/// `sever`, with their hash function if that is not SHA-256. A severed member that is not among these is written by its
/// digest, and so is a text that the envelope does not hold with that digest, or that is not one item. Digests and
/// other bytes are in lower-case hexadecimal digits, sizes are numbers, and identifiers are hyphenated UUIDs. No file
/// and no key is named.
///
/// The payloads are those of `envelope.whole`. If these bytes do not spell an envelope, nothing is promised.
pub fn describe(
    alloc: Global,
    envelope: &Envelope<'_>,
    manifest: &Manifest,
    members: &Members,
) -> Result<Value, AllocError>
    ensures { IfOk result
        (λ v. (payloads : List (List ℕ × List ℕ)) → HasPayloads envelope.now.whole.now payloads
        → view v ≡ described_by (said_by envelope.now) payloads manifest.now members.now) }
{
    let mut object = Map::new(alloc);
    put_heads(&mut object, alloc, manifest)?;
    put_sequences(&mut object, alloc, manifest)?;
    put_severable(&mut object, alloc, envelope, manifest, members)?;
    put_payloads(&mut object, alloc, envelope)?;
    Ok(Value::from(object))
}

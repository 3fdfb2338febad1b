//! The lines of a path.

ghost use Rattle.std.specs.Prelude.{◌≡◌, ◌++◌, IfOk, OnOk, string_bytes};
ghost use Rattle.suit_cli.specs.Lines.{digest_text, size_text, identifier_text, outcome_text, identity_texts, identity_line, set_line, tried_line, image_line, number_line, event_line, identity_lines, event_lines, path_lines};

use det_cbor::Text;
use path_model::{BadPath, Event, Identity};
use std::alloc::{AllocError, Global};
use suit_params::Digest;
use uuid::Uuid;

fn digest_text(alloc: Global, digest: Option<Digest>) -> Result<String, AllocError>
    ensures { IfOk result (λ t. string_bytes t ≡ digest_text digest) }
{
    match digest {
        None => String::from_str(alloc, "none"),
        Some(digest) => hex::encode(alloc, digest.bytes()),
    }
}

fn size_text(alloc: Global, size: Option<u64>) -> Result<String, AllocError>
    ensures { IfOk result (λ t. string_bytes t ≡ size_text size) }
{
    match size {
        None => String::from_str(alloc, "none"),
        Some(size) => format!(in alloc; "{size}"),
    }
}

fn identifier_text(alloc: Global, identifier: Option<[u8; 16]>) -> Result<String, AllocError>
    ensures { IfOk result (λ t. string_bytes t ≡ identifier_text identifier) }
{
    match identifier {
        None => String::from_str(alloc, "none"),
        Some(bytes) => {
            let mut buffer = Uuid::encode_buffer();
            let text = Uuid::from_bytes(bytes)
                .hyphenated()
                .encode_lower(&mut buffer);
            String::from_str(alloc, text)
        }
    }
}

fn outcome_text(passed: bool) -> &'static str
    ensures { result.now ≡ outcome_text passed }
{
    if passed { "pass" } else { "fail" }
}

fn identity_line(alloc: Global, component: usize, identity: &Identity) -> Result<String, AllocError>
    ensures { IfOk result (λ t. string_bytes t ≡ identity_line component identity.now) }
{
    let vendor = identifier_text(alloc, identity.vendor)?;
    let class = identifier_text(alloc, identity.class)?;
    let device = identifier_text(alloc, identity.device)?;
    identity_texts(
        alloc,
        component,
        vendor.as_str(),
        class.as_str(),
        device.as_str(),
        identity.slot,
    )
}

fn identity_texts(
    alloc: Global,
    component: usize,
    vendor: &str,
    class: &str,
    device: &str,
    slot: u64,
) -> Result<String, AllocError>
    ensures { IfOk result (λ t. string_bytes t ≡
        identity_texts component vendor.now class.now device.now slot) }
{
    format!(in alloc;
        "identity {component} vendor {vendor} class {class} device {device} slot {slot}\n"
    )
}

fn set_line(alloc: Global, component: u32, key: u8) -> Result<String, AllocError>
    ensures { IfOk result (λ t. string_bytes t ≡ set_line component key) }
{
    format!(in alloc; "set {component} {key}\n")
}

fn tried_line(alloc: Global, component: u32, code: u8, outcome: &str) -> Result<String, AllocError>
    ensures { IfOk result (λ t. string_bytes t ≡ tried_line component code outcome.now) }
{
    format!(in alloc; "tried {component} {code} {outcome}\n")
}

// A line of a word, a component, a digest and a size.
fn image_line(
    alloc: Global,
    word: &str,
    component: u32,
    digest: Option<Digest>,
    size: Option<u64>,
) -> Result<String, AllocError>
    ensures { IfOk result (λ t. string_bytes t ≡
        image_line word.now component (digest_text digest) (size_text size)) }
{
    let digest = digest_text(alloc, digest)?;
    let size = size_text(alloc, size)?;
    image_texts(alloc, word, component, digest.as_str(), size.as_str())
}

fn image_texts(
    alloc: Global,
    word: &str,
    component: u32,
    digest: &str,
    size: &str,
) -> Result<String, AllocError>
    ensures { IfOk result
        (λ t. string_bytes t ≡ image_line word.now component digest.now size.now) }
{
    format!(in alloc; "{word} {component} {digest} {size}\n")
}

/// A word and a number.
pub(crate) fn number_line(alloc: Global, word: &str, number: u64) -> Result<String, AllocError>
    ensures { IfOk result (λ t. string_bytes t ≡ number_line word.now number) }
{
    format!(in alloc; "{word} {number}\n")
}

fn event_line(alloc: Global, event: &Event) -> Result<String, AllocError>
    ensures { IfOk result (λ t. string_bytes t ≡ event_line event.now) }
{
    match event {
        Event::Set { component, param } => set_line(alloc, *component, param.key().number()),
        Event::Tried {
            component,
            kind,
            passed,
        } => tried_line(alloc, *component, kind.number(), outcome_text(*passed)),
        Event::Matched {
            component,
            digest,
            size,
        } => image_line(alloc, "matched", *component, Some(*digest), *size),
        Event::Missed { component } => number_line(alloc, "missed", u64::from(*component)),
        Event::Wrote { component } => number_line(alloc, "wrote", u64::from(*component)),
        Event::Invoked {
            component,
            digest,
            size,
            passed: _,
        } => image_line(alloc, "invoked", *component, *digest, *size),
        Event::Failed { place } => number_line(alloc, "failed", *place),
    }
}

/// Adds a line for each component of a path, and then one for each of its events.
pub(crate) fn push_path(alloc: Global, text: &mut Text, path: &BadPath) -> Result<(), AllocError>
    ensures { OnOk result (text.new ≡ text.old ++ path_lines path.now) }
{
    push_identities(alloc, text, path.identities.as_slice())?;
    push_events(alloc, text, path.events.as_slice())
}

fn push_identities(
    alloc: Global,
    text: &mut Text,
    identities: &[Identity],
) -> Result<(), AllocError>
    ensures { OnOk result (text.new ≡ text.old ++ identity_lines 0 identities.now) }
{
    for (component, identity) in identities.iter().enumerate() {
        let line = identity_line(alloc, component, identity)?;
        text.push_str(line.as_str())?;
    }
    Ok(())
}

fn push_events(alloc: Global, text: &mut Text, events: &[Event]) -> Result<(), AllocError>
    ensures { OnOk result (text.new ≡ text.old ++ event_lines events.now) }
{
    for event in events {
        let line = event_line(alloc, event)?;
        text.push_str(line.as_str())?;
    }
    Ok(())
}

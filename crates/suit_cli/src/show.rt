//! The command `show` with a key: what an envelope holds, and whether it is authentic.

ghost use Rattle.std.specs.Prelude.{◌≡◌, IfOk, OnOk, string_bytes};
ghost use Rattle.suit_envelope.specs.Said.{said_by};
ghost use Rattle.suit_envelope.specs.WrapperParts.{HasWrapper};
ghost use Rattle.suit_cli.specs.Texts.{tagged_line, block_line, authenticity_line};
ghost use Rattle.suit_cli.specs.Shown.{HasKind, kind_text, AddsBlocks, IsShown, authenticity_outcome};
ghost use Rattle.suit_cli.specs.Outside.{Flashed};
ghost use Rattle.suit_cli.specs.Stages.{ending_of};
ghost use Rattle.suit_cli.specs.Commands.{shows_manifest, shows_file, shows};

use crate::accept::opened_in;
use crate::input::{LONGEST_FILE, read, read_key};
use crate::member_lines::push_members;
use crate::outside::SeenHost;
use crate::reply::{Outcome, Reply, Stop};
use det_cbor::Text;
use hmac_mac0::{MacVerdict, verify};
use std::alloc::{AllocError, Global};
use suit_edge::Host;
use suit_envelope::{Authenticity, BlockWalk, Envelope, authentic, blocks};
use suit_manifest::Manifest;

fn tagged_line(tagged: bool) -> &'static str
    ensures { result.now ≡ tagged_line tagged }
{
    if tagged {
        "tagged yes\n"
    } else {
        "tagged no\n"
    }
}

pub(crate) fn authenticity_line(authenticity: Authenticity<'_>) -> &'static str
    ensures { result.now ≡ authenticity_line authenticity.entry }
{
    match authenticity {
        Authenticity::Yes => "authentic\n",
        Authenticity::DigestDiffers { .. } => "not authentic: digest differs\n",
        Authenticity::NoMac => "not authentic: no mac\n",
        Authenticity::MacDiffers { .. } => "not authentic: mac differs\n",
    }
}

fn outcome_of(authenticity: Authenticity<'_>) -> Outcome
    ensures { result ≡ authenticity_outcome authenticity.entry }
{
    match authenticity {
        Authenticity::Yes => Outcome::Done,
        _ => Outcome::NotAuthentic,
    }
}

fn block_line(alloc: Global, number: u64, kind: &str) -> Result<String, AllocError>
    ensures { IfOk result (λ t. string_bytes t ≡ block_line number kind.now) }
{
    format!(in alloc; "block {number} {kind}\n")
}

// Whether a block is a COSE_Mac0 block, under any key.
fn is_mac(block: &[u8]) -> bool
    ensures { HasKind block.now result }
{
    match verify(block, &[], &[]) {
        MacVerdict::OtherKind => false,
        MacVerdict::Verified | MacVerdict::Differs { .. } => true,
    }
}

fn kind_text(is_mac: bool) -> &'static str
    ensures { result.now ≡ kind_text is_mac }
{
    if is_mac { "mac0" } else { "other" }
}

// Adds a line for each block.
fn push_blocks(alloc: Global, text: &mut Text, envelope: &Envelope<'_>) -> Result<(), AllocError>
    requires { HasWrapper envelope.now.wrapper.now }
    ensures { OnOk result (AddsBlocks envelope.now.wrapper.now text.old text.new) }
{
    let mut rest = BlockWalk::new(envelope);
    for number in 0..blocks(envelope) {
        let Some(block) = rest.next_block() else {
            unreachable!()
        };
        let line = block_line(alloc, number, kind_text(is_mac(block)))?;
        text.push_str(line.as_str())?;
    }
    Ok(())
}

// The lines that show an envelope under a key.
fn show_lines(
    alloc: Global,
    envelope: &Envelope<'_>,
    manifest: &Manifest,
    key: &[u8],
) -> Result<Reply, AllocError>
    requires { HasWrapper envelope.now.wrapper.now }
    ensures { IfOk result (IsShown (said_by envelope.now) manifest.now key.now) }
{
    let mut text = Text::from_str(alloc, tagged_line(envelope.tagged))?;
    push_blocks(alloc, &mut text, envelope)?;
    push_members(alloc, &mut text, envelope, manifest)?;
    let authenticity = authentic(envelope, key);
    text.push_str(authenticity_line(authenticity))?;
    Ok(Reply {
        outcome: outcome_of(authenticity),
        text,
    })
}

// Reads the key, and shows a manifest under it.
fn show_manifest<H: Host>(
    alloc: Global,
    envelope: &Envelope<'_>,
    manifest: &Manifest,
    key_name: &str,
    host: &mut H,
) -> Result<Reply, Stop>
    requires { HasWrapper envelope.now.wrapper.now }
    ensures { (flash : Flashed) → shows_manifest key_name.now (said_by envelope.now) manifest.now
        (⟦<H as SeenHost>⟧.seen host.old flash) (⟦<H as SeenHost>⟧.seen host.new flash)
        (ending_of result) }
{
    let key = read_key(alloc, key_name, host)?;
    Ok(show_lines(alloc, envelope, manifest, key.as_slice())?)
}

// The lines that show a file's bytes.
fn show_file<H: Host>(
    alloc: Global,
    bytes: &[u8],
    key_name: &str,
    host: &mut H,
) -> Result<Reply, Stop>
    ensures { (flash : Flashed) → shows_file bytes.now key_name.now
        (⟦<H as SeenHost>⟧.seen host.old flash) (⟦<H as SeenHost>⟧.seen host.new flash)
        (ending_of result) }
{
    let file = opened_in(alloc, bytes)?;
    show_manifest(alloc, &file.envelope, &file.manifest, key_name, host)
}

/// The reply to `show NAME KEY`. The key is read after the manifest was accepted.
pub(crate) fn show<H: Host>(
    alloc: Global,
    name: &str,
    key_name: &str,
    host: &mut H,
) -> Result<Reply, Stop>
    ensures { (flash : Flashed) → shows name.now key_name.now
        (⟦<H as SeenHost>⟧.seen host.old flash) (⟦<H as SeenHost>⟧.seen host.new flash)
        (ending_of result) }
{
    let bytes = read(alloc, name, LONGEST_FILE, host)?;
    show_file(alloc, bytes.as_slice(), key_name, host)
}

//! The files of the sessions: devices, keys, images, and descriptions of updates; and the flash.

ghost use Rattle.std.specs.Prelude.{◌≡◌, IfOk, length};

use std::alloc::{AllocError, Global};
use suit_edge::{MemoryDisk, MemoryHost};

/// A name and what the file holds, in two lines; an empty line between two files. Behind a device of two slots are one of
/// one slot, and one whose slot is wide.
const FILES: &str = r#"d
{"components":[{"capacity":1024,"id":["00"],"kind":"flash","slots":[49152,50184]}]}

one
{"components":[{"capacity":1024,"id":["00"],"kind":"flash","slots":[49152]}]}

wide
{"components":[{"capacity":10240,"id":["00"],"kind":"flash","slots":[49152]}]}

k
a key

other
another key

abc.img
abc

abd.img
abd

unknown.json
{"sequence":1,"components":[["00"],["01"]]}

no-uri.json
{"sequence":1,"components":[["00"]],"install":[["fetch",15]]}

no-content.json
{"sequence":1,"components":[["00"]],"install":[["write",15]]}

itself.json
{"sequence":1,"components":[["00"]],"install":[["set",{"source":0}],["copy",15]]}

1-at-once.json
{"sequence":1,"components":[["00"]],"shared":[["set",{"digest":{"file":"abc.img"},"size":{"file":"abc.img"}}]],"validate":[["match",15]],"invoke":[["invoke",15]],"install":[["set",{"uri":"img"}],["fetch",15],["match",15],["invoke",15]]}

2-at-once.json
{"sequence":2,"components":[["00"]],"shared":[["set",{"digest":{"file":"abd.img"},"size":{"file":"abd.img"}}]],"validate":[["match",15]],"invoke":[["invoke",15]],"install":[["set",{"uri":"img"}],["fetch",15],["match",15],["invoke",15]]}"#;

/// Descriptions of updates: a name, the sequence number, the image, and a further member, if any.
const UPDATES: &str = r#"0.json 0 abc.img
1.json 1 abc.img
2.json 2 abd.img
2-abc.json 2 abc.img
last.json 18446744073709551615 abc.img
1-other.json 1 abc.img ,"reference":"other"
1-severed.json 1 abc.img ,"sever":["install"]
1-sha512.json 1 abc.img ,"algorithm":"sha512"
1-empty.json 1 empty.img
1-large.json 1 large.img
1-long.json 1 long.img
2-full.json 2 full.img
3-large.json 3 large.img"#;

const NUMBER: &str = r#"{"sequence":"#;

const DIGEST: &str = r#","components":[["00"]],"shared":[["set",{"digest":{"file":""#;

const SIZE: &str = r#""},"size":{"file":""#;

const MEMBERS: &str =
    r#""}}]],"validate":[["match",15]],"invoke":[["invoke",15]],"install":[["set",{"uri":"img"}],["fetch",15]]"#;

// The description of an update.
fn described(alloc: Global, number: &str, image: &str, more: &str) -> Result<String, AllocError> {
    let pieces = [
        NUMBER, number, DIGEST, image, SIZE, image, MEMBERS, more, "}",
    ];
    let mut text = String::new(alloc);
    for piece in &pieces {
        text.push_str(piece)?;
    }
    Ok(text)
}

// Adds the description of an update.
fn add_update(alloc: Global, row: &str, host: &mut MemoryHost) -> Result<(), AllocError> {
    let mut words = row.split(' ');
    let name = words.next().unwrap_or("");
    let number = words.next().unwrap_or("");
    let image = words.next().unwrap_or("");
    let more = words.next().unwrap_or("");
    let text = described(alloc, number, image, more)?;
    host.add(name, text.as_bytes())
}

// Adds the files that are not text.
fn add_images(host: &mut MemoryHost) -> Result<(), AllocError> {
    host.add("empty.img", b"")?;
    host.add("full.img", &[b'f'; 1024])?;
    host.add("large.img", &[b'l'; 1025])?;
    host.add("long.img", &[b'l'; 10000])
}

// Adds the files of a text.
fn add_files(text: &str, host: &mut MemoryHost) -> Result<(), AllocError> {
    for file in text.split("\n\n") {
        if let Some((name, bytes)) = file.split_once('\n') {
            host.add(name, bytes.as_bytes())?;
        }
    }
    Ok(())
}

// Adds descriptions of updates.
fn add_updates(alloc: Global, rows: &str, host: &mut MemoryHost) -> Result<(), AllocError> {
    for row in rows.split('\n') {
        add_update(alloc, row, host)?;
    }
    Ok(())
}

fn add_all(alloc: Global, host: &mut MemoryHost) -> Result<(), AllocError> {
    add_files(FILES, host)?;
    add_images(host)?;
    add_updates(alloc, UPDATES, host)
}

/// A host with the files, where these calls fail.
pub(crate) fn with_files(alloc: Global, fails: &[u64]) -> Result<MemoryHost, AllocError> {
    let mut host = MemoryHost::new(alloc, fails)?;
    add_all(alloc, &mut host)?;
    Ok(host)
}

// A flash of so many zero bytes, where these calls fail. The size is a parameter, so that the prover counts no zeros.
fn zeros(alloc: Global, size: usize, fails: &[u64]) -> Result<MemoryDisk, AllocError>
    ensures { IfOk result (λ flash. length flash.first ≡ size) }
{
    MemoryDisk::new(alloc, size, fails)
}

/// A flash of 65,536 zero bytes, where these calls fail.
pub(crate) fn blank(alloc: Global, fails: &[u64]) -> Result<MemoryDisk, AllocError>
    ensures { IfOk result (λ flash. length flash.first ≡ 65536) }
{
    zeros(alloc, 65_536, fails)
}

/// A flash of 327,680 zero bytes, which has room for layout version 2.
pub(crate) fn blank_large(alloc: Global) -> Result<MemoryDisk, AllocError>
    ensures { IfOk result (λ flash. length flash.first ≡ 327680) }
{
    zeros(alloc, 327_680, &[])
}

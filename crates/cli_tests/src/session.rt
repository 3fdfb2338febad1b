//! Sessions: steps on the same objects, one after another, and how each is to end.
//!
//! A step is a few lines. The first says what to do:
//!
//! - `text NAME` stores a file of the lines that follow, and `file NAME` one of bytes in hexadecimal;
//! - `change NAME OTHER` stores a changed copy of another file; `50 1 02` puts 02 in place of 1 byte at 50;
//! - `holds NAME` passes if the file has exactly these bytes, and `lacks NAME` if there is none;
//! - `flash PLACE` writes bytes to the flash, and `stands PLACE` passes if it reads these;
//! - any other line is a command; its status and its output follow.

ghost use Rattle.std.specs.Prelude.{◌≡◌, ◌≤◌};

use crate::bytes::{are_same, halves};
use crate::laws::run_by_laws;
use crate::steps::{file_goes, stands, writes};
use det_cbor::{Bytes, Names, Text};
use sha2::{Digest, Sha256};
use std::alloc::{AllocError, Global};
use suit_edge::{Disk, Host, Launch, Launcher, Launches, MemorySink, Sink};

/// A flash is formatted, and an update is made.
pub(crate) const BEGUN: &str = "run init d k
0
ready

make 1.json k 1.suit
0
made 175";

/// The output of `run status` after the first update. A row names these lines `FIRST UPDATE`.
const FIRST_UPDATE: &str = "sequence 1
generation 1
bank 0
digest 2ede1de95a655c3dae8ceff0cb6a7dab3112f7110678df0ef8653bf63c795c99
component 0 slot 1 length 3";

/// The answer to wrong words. A row names the line `USAGE`.
const USAGE: &str =
    "usage: suit make DESCRIPTION KEY OUT | show FILE [KEY] | check FILE | run init DEVICE KEY | run update FILE [URI=NAME]... | run boot | run status | run migrate BASE | drill NUMBER | diag FILE";

/// A command, and how it is to end.
#[derive(Clone, Copy)]
struct Row<'a> {
    command: &'a str,
    status: u32,
    /// The output without its last line feed; none if the sink is to fail.
    lines: Option<&'a str>,
}

// The lines that a row names, or its own.
fn named(lines: &str) -> &str {
    match lines {
        "FIRST UPDATE" => FIRST_UPDATE,
        "USAGE" => USAGE,
        _ => lines,
    }
}

// The row of this text: the command, the status, and what is put.
fn row_of(text: &str) -> Option<Row<'_>> {
    let (command, rest) = text.split_once('\n')?;
    match rest.split_once('\n') {
        Some((digits, lines)) => row_with(command, digits, Some(named(lines))),
        None => row_with(command, rest, None),
    }
}

fn row_with<'a>(command: &'a str, digits: &str, lines: Option<&'a str>) -> Option<Row<'a>> {
    match digits.parse::<u32>() {
        Ok(status) => Some(Row {
            command,
            status,
            lines,
        }),
        Err(_) => None,
    }
}

// The words of a command.
fn words_of(alloc: Global, command: &str) -> Result<Names, AllocError> {
    let mut words = Names::new(alloc);
    for word in command.split(' ') {
        words.push(Text::from_str(alloc, word)?)?;
    }
    Ok(words)
}

/// The status of a run of this command.
pub(crate) fn status_of<H: Host, D: Disk, L: Launcher, K: Sink>(
    alloc: Global,
    host: &mut H,
    flash: &mut D,
    launcher: &mut L,
    command: &str,
    sink: &mut K,
) -> Result<u8, AllocError>
    requires { 49152 ≤ D.extent flash.old }
    ensures { D.extent flash.new ≡ D.extent flash.old }
{
    let words = words_of(alloc, command)?;
    Ok(run_by_laws(alloc, &words, host, flash, launcher, sink).0)
}

// Whether this is the output.
fn are_put(put: &[u8], lines: Option<&str>) -> bool {
    match (put.strip_suffix(b"\n"), lines) {
        (Some(text), Some(lines)) => are_same(text, lines.as_bytes()),
        (None, None) => put.is_empty(),
        _ => false,
    }
}

// Whether a run of the row's command ends so.
fn ends_so<H: Host, D: Disk, L: Launcher>(
    alloc: Global,
    host: &mut H,
    flash: &mut D,
    launcher: &mut L,
    row: &Row<'_>,
) -> Result<bool, AllocError>
    requires { 49152 ≤ D.extent flash.old }
    ensures { D.extent flash.new ≡ D.extent flash.old }
{
    let fails: &[u64] = if row.lines.is_some() { &[] } else { &[0] };
    let mut sink = MemorySink::new(alloc, fails)?;
    let status = status_of(alloc, host, flash, launcher, row.command, &mut sink)?;
    Ok(status as u32 == row.status && are_put(sink.bytes(), row.lines))
}

// Whether a step passes.
fn goes<H: Host, D: Disk, L: Launcher>(
    alloc: Global,
    host: &mut H,
    flash: &mut D,
    launcher: &mut L,
    text: &str,
) -> Result<bool, AllocError>
    requires { 49152 ≤ D.extent flash.old }
    ensures { D.extent flash.new ≡ D.extent flash.old }
{
    let (first, rest) = halves(text, '\n');
    let (step, name) = halves(first, ' ');
    match step {
        "flash" => return writes(alloc, flash, name, rest),
        "stands" => return stands(alloc, flash, name, rest),
        _ => {}
    }
    if let Some(is_done) = file_goes(alloc, host, step, name, rest)? {
        return Ok(is_done);
    }
    match row_of(text) {
        Some(row) => ends_so(alloc, host, flash, launcher, &row),
        None => Ok(false),
    }
}

// Whether each step of a session passes. An empty line stands between two steps.
fn goes_so<H: Host, D: Disk, L: Launcher>(
    alloc: Global,
    host: &mut H,
    flash: &mut D,
    launcher: &mut L,
    session: &str,
) -> Result<bool, AllocError>
    requires { 49152 ≤ D.extent flash.old }
    ensures { D.extent flash.new ≡ D.extent flash.old }
{
    for text in session.split("\n\n") {
        if !goes(alloc, host, flash, launcher, text)? {
            return Ok(false);
        }
    }
    Ok(true)
}

/// Whether one session passes, and then another.
pub(crate) fn goes_after<H: Host, D: Disk, L: Launcher>(
    alloc: Global,
    host: &mut H,
    flash: &mut D,
    launcher: &mut L,
    sessions: (&str, &str),
) -> Result<bool, AllocError>
    requires { 49152 ≤ D.extent flash.old }
    ensures { D.extent flash.new ≡ D.extent flash.old }
{
    Ok(
        goes_so(alloc, host, flash, launcher, sessions.0)?
            && goes_so(alloc, host, flash, launcher, sessions.1)?,
    )
}

// Whether this is the SHA-256 of the image.
fn is_digest_of(digest: &Option<Bytes>, image: &[u8]) -> bool {
    match digest {
        Some(digest) => are_same(digest.as_slice(), Sha256::digest(image).as_slice()),
        None => false,
    }
}

// Whether this image was launched, with its digest and size and without arguments.
fn is_launched(launch: &Launch, image: &[u8]) -> bool {
    launch.component == 0
        && are_same(launch.bytes.as_slice(), image)
        && is_digest_of(&launch.digest, image)
        && matches!(launch.size, Some(size) if size == image.len() as u64)
        && launch.args.is_none()
}

/// Whether exactly these images were launched, as component 0.
pub(crate) fn are_launched(launches: &Launches, images: &[&[u8]]) -> bool {
    let found = launches.as_slice();
    if found.len() != images.len() {
        return false;
    }
    for k in 0..images.len() {
        if !is_launched(&found[k], images[k]) {
            return false;
        }
    }
    true
}

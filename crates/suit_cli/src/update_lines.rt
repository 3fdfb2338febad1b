//! The lines of an update. They are written into reserved room, so memory cannot run out.

ghost use Rattle.std.specs.Prelude.{◌≡◌, ◌≤◌, ◌+◌, ◌++◌, length};
ghost use Rattle.std.specs.Fmt.{decimal};
ghost use Rattle.std.specs.String.{string_capacity, string_len};
ghost use Rattle.suit_cli.specs.Updating.{rollback_line, update_line, update_status};

use crate::boot_lines::{cause_status, cause_text, numbered, plain, push, stopped};
use det_cbor::Text;
use itoa::Buffer;
use update_proc::UpdateEnd;

/// The room for any of these lines, in bytes.
pub(crate) const UPDATE_ROOM: usize = 80;

// The line of a number below the recorded one.
fn rollback(mut line: String, recorded: u64, offered: u64) -> Text
    requires empty { string_len line ≡ 0 }
    requires room { 80 ≤ string_capacity line }
    ensures { result ≡ rollback_line recorded offered }
{
    let mut first = Buffer::new();
    let mut second = Buffer::new();
    push(&mut line, "rollback: recorded ");
    push(&mut line, first.format(recorded));
    push(&mut line, ", offered ");
    push(&mut line, second.format(offered));
    push(&mut line, "\n");
    Text::from_string(line)
}

// A line of a number between two texts.
fn around(mut line: String, before: &str, number: u64, behind: &str) -> Text
    requires empty { string_len line ≡ 0 }
    requires room { 80 ≤ string_capacity line }
    requires fits { length before.now + length behind.now ≤ 60 }
    ensures { result ≡ before.now ++ (decimal number ++ behind.now) }
{
    let mut buffer = Buffer::new();
    push(&mut line, before);
    push(&mut line, buffer.format(number));
    push(&mut line, behind);
    Text::from_string(line)
}

/// The line of an update of a manifest with this number, in this room.
pub(crate) fn update_line(line: String, number: u64, end: &UpdateEnd) -> Text
    requires empty { string_len line ≡ 0 }
    requires room { 80 ≤ string_capacity line }
    ensures { result ≡ update_line number end.now }
{
    match end {
        UpdateEnd::Installed(_) => numbered(line, "installed", number),
        UpdateEnd::Lower { recorded, offered } => rollback(line, *recorded, *offered),
        UpdateEnd::OtherDigest { .. } => {
            around(line, "rollback: number ", number, " has another manifest\n")
        }
        UpdateEnd::Worn => plain(line, "record worn\n"),
        UpdateEnd::Condition { place } => stopped(line, *place, "condition failed"),
        UpdateEnd::Stopped { place, cause } => stopped(line, *place, cause_text(*cause)),
        UpdateEnd::FlashFault => plain(line, "flash fault\n"),
        UpdateEnd::NoMemory => plain(line, "out of memory\n"),
    }
}

/// The status of an update.
pub(crate) fn update_status(end: &UpdateEnd) -> u8
    ensures { result ≡ update_status end.now }
{
    match end {
        UpdateEnd::Installed(_) => 0,
        UpdateEnd::Lower { .. } | UpdateEnd::OtherDigest { .. } => 5,
        UpdateEnd::Worn => 19,
        UpdateEnd::Condition { .. } => 6,
        UpdateEnd::Stopped { cause, .. } => cause_status(*cause),
        UpdateEnd::FlashFault => 8,
        UpdateEnd::NoMemory => 11,
    }
}

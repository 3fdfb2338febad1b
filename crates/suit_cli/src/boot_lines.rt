//! The lines of a boot. They are written into reserved room, so memory cannot run out.

ghost use Rattle.std.specs.Prelude.{◌≡◌, ◌≤◌, ◌+◌, ◌++◌, length, string_bytes};
ghost use Rattle.std.specs.String.{string_capacity, string_len};
ghost use Rattle.suit_cli.specs.Booting.{boot_line, boot_status, lacking_line};
ghost use Rattle.suit_cli.specs.Launching.{cause_status, cause_text, stopped_line};
ghost use Rattle.suit_cli.specs.Lines.{number_line};

use crate::why::{REFUSAL_ROOM, refusal_line};
use det_cbor::Text;
use invoke_proc::{BootEnd, Lacking};
use itoa::Buffer;
use path_model::Cause;

/// The room for any of these lines, in bytes. The line of a refusal is the longest.
pub(crate) const BOOT_ROOM: usize = REFUSAL_ROOM;

/// Appends a text that fits.
pub(crate) fn push(line: &mut String, text: &str)
    requires { string_len line.old + length text.now ≤ string_capacity line.old }
    ensures text { string_bytes line.new ≡ string_bytes line.old ++ text.now }
    ensures len { string_len line.new ≡ string_len line.old + length text.now }
    ensures capacity { string_capacity line.old ≤ string_capacity line.new }
{
    match line.push_str(text) {
        Ok(()) => {}
        Err(_) => {}
    }
}

/// A line of this text.
pub(crate) fn plain(mut line: String, text: &str) -> Text
    requires empty { string_len line ≡ 0 }
    requires room { 64 ≤ string_capacity line }
    requires fits { length text.now ≤ 64 }
    ensures { result ≡ text.now }
{
    push(&mut line, text);
    Text::from_string(line)
}

/// A line of a word and a number.
pub(crate) fn numbered(mut line: String, word: &str, number: u64) -> Text
    requires empty { string_len line ≡ 0 }
    requires room { 64 ≤ string_capacity line }
    requires fits { length word.now ≤ 40 }
    ensures { result ≡ number_line word.now number }
{
    let mut buffer = Buffer::new();
    push(&mut line, word);
    push(&mut line, " ");
    push(&mut line, buffer.format(number));
    push(&mut line, "\n");
    Text::from_string(line)
}

/// The line of a stop: the place in the envelope, and why.
pub(crate) fn stopped(mut line: String, place: u64, why: &str) -> Text
    requires empty { string_len line ≡ 0 }
    requires room { 64 ≤ string_capacity line }
    requires fits { length why.now ≤ 20 }
    ensures { result ≡ stopped_line place why.now }
{
    let mut buffer = Buffer::new();
    push(&mut line, "stopped at ");
    push(&mut line, buffer.format(place));
    push(&mut line, ": ");
    push(&mut line, why);
    push(&mut line, "\n");
    Text::from_string(line)
}

/// Why a directive failed.
pub(crate) fn cause_text(cause: Cause) -> &'static str
    ensures text { result.now ≡ cause_text cause }
    ensures fits { length result.now ≤ 20 }
{
    match cause {
        Cause::Missing => "missing",
        Cause::SelfCopy => "same component",
        Cause::TooLarge => "too large",
        Cause::Absent => "absent",
        Cause::HostFault => "host fault",
        Cause::FlashFault => "flash fault",
        Cause::LaunchFault => "launch fault",
    }
}

/// The status of a stop.
pub(crate) fn cause_status(cause: Cause) -> u8
    ensures { result ≡ cause_status cause }
{
    match cause {
        Cause::Missing | Cause::SelfCopy | Cause::TooLarge | Cause::Absent => 6,
        Cause::HostFault => 7,
        Cause::FlashFault => 8,
        Cause::LaunchFault => 10,
    }
}

fn lacking_line(line: String, lacking: Lacking) -> Text
    requires empty { string_len line ≡ 0 }
    requires room { 64 ≤ string_capacity line }
    ensures { result ≡ lacking_line lacking }
{
    match lacking {
        Lacking::DigestDiffers => plain(line, "not authentic: digest differs\n"),
        Lacking::NoMac => plain(line, "not authentic: no mac\n"),
        Lacking::MacDiffers => plain(line, "not authentic: mac differs\n"),
    }
}

/// The line of a boot that ended so, in this room.
pub(crate) fn boot_line(line: String, end: BootEnd) -> Text
    requires empty { string_len line ≡ 0 }
    requires room { 100 ≤ string_capacity line }
    ensures { result ≡ boot_line end }
{
    match end {
        BootEnd::Ended => plain(line, "ended\n"),
        BootEnd::NothingInstalled => plain(line, "nothing installed\n"),
        BootEnd::BadBank(refusal) => refusal_line(line, refusal),
        BootEnd::NotAuthentic(lacking) => lacking_line(line, lacking),
        BootEnd::UnknownComponent(component) => {
            numbered(line, "unknown component", u64::from(component))
        }
        BootEnd::Condition { place } => stopped(line, place, "condition failed"),
        BootEnd::Stopped { place, cause } => stopped(line, place, cause_text(cause)),
        BootEnd::FlashFault => plain(line, "flash fault\n"),
    }
}

/// The status of a boot.
pub(crate) fn boot_status(end: &BootEnd) -> u8
    ensures { result ≡ boot_status end.now }
{
    match end {
        BootEnd::Ended => 0,
        BootEnd::NothingInstalled => 15,
        BootEnd::BadBank(_) => 3,
        BootEnd::NotAuthentic(_) => 4,
        BootEnd::UnknownComponent(_) => 18,
        BootEnd::Condition { .. } => 6,
        BootEnd::Stopped { cause, .. } => cause_status(*cause),
        BootEnd::FlashFault => 8,
    }
}

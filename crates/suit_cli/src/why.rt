//! Why input is refused, in a line. It is written into reserved room, so memory cannot run out.

ghost use Rattle.std.specs.Prelude.{◌≡◌, ◌≤◌, ◌+◌, ◌++◌, length, string_bytes};
ghost use Rattle.std.specs.Fmt.{decimal};
ghost use Rattle.std.specs.String.{string_capacity, string_len};
ghost use Rattle.suit_params.specs.declared.refusal.Why.TheVariants as whys;
ghost use Rattle.suit_cli.specs.Texts.{index_text, numbered, refusal_line, why_text};

use crate::boot_lines::push;
use det_cbor::{Reason, Text};
use itoa::Buffer;
use suit_params::{Refusal, Why};

/// The room for the line of a refusal, in bytes.
pub(crate) const REFUSAL_ROOM: usize = 100;

// Appends a number.
fn push_number(line: &mut String, number: u64)
    requires { string_len line.old + 20 ≤ string_capacity line.old }
    ensures text { string_bytes line.new ≡ string_bytes line.old ++ decimal number }
    ensures len { string_len line.new ≤ string_len line.old + 20 }
    ensures capacity { string_capacity line.old ≤ string_capacity line.new }
{
    let mut buffer = Buffer::new();
    push(line, buffer.format(number));
}

// Appends a word and a number.
fn push_numbered(line: &mut String, word: &str, number: u64)
    requires { string_len line.old + (length word.now + 21) ≤ string_capacity line.old }
    ensures text { string_bytes line.new ≡ string_bytes line.old ++ numbered word.now number }
    ensures len { string_len line.new ≤ string_len line.old + (length word.now + 21) }
    ensures capacity { string_capacity line.old ≤ string_capacity line.new }
{
    push(line, word);
    push(line, " ");
    push_number(line, number);
}

// Appends an index, and how many there are.
fn push_index(line: &mut String, index: u64, count: u64)
    requires { string_len line.old + 66 ≤ string_capacity line.old }
    ensures text { string_bytes line.new ≡ string_bytes line.old ++ index_text index count }
    ensures len { string_len line.new ≤ string_len line.old + 66 }
    ensures capacity { string_capacity line.old ≤ string_capacity line.new }
{
    push(line, "index ");
    push_number(line, index);
    push(line, " of ");
    push_number(line, count);
}

// Appends which two components are alike.
fn push_alike(line: &mut String, first: u64, second: u64)
    requires { string_len line.old + 66 ≤ string_capacity line.old }
    ensures text { string_bytes line.new
        ≡ string_bytes line.old ++ why_text (whys.TwoAlike first second) }
    ensures len { string_len line.new ≤ string_len line.old + 66 }
    ensures capacity { string_capacity line.old ≤ string_capacity line.new }
{
    push_numbered(line, "components", first);
    push_numbered(line, " and", second);
    push(line, " are alike");
}

// Appends how many components there are.
fn push_count(line: &mut String, count: u64)
    requires { string_len line.old + 66 ≤ string_capacity line.old }
    ensures text { string_bytes line.new
        ≡ string_bytes line.old ++ why_text (whys.TooMany count) }
    ensures len { string_len line.new ≤ string_len line.old + 66 }
    ensures capacity { string_capacity line.old ≤ string_capacity line.new }
{
    push_number(line, count);
    push(line, " components");
}

// Appends the reason of a refusal, in words.
fn push_why(line: &mut String, why: Why)
    requires { string_len line.old + 66 ≤ string_capacity line.old }
    ensures text { string_bytes line.new ≡ string_bytes line.old ++ why_text why }
    ensures len { string_len line.new ≤ string_len line.old + 66 }
    ensures capacity { string_capacity line.old ≤ string_capacity line.new }
{
    match why {
        Why::Cbor(Reason::Truncated) => push(line, "truncated"),
        Why::Cbor(Reason::Indefinite) => push(line, "indefinite"),
        Why::Cbor(Reason::Kind) => push(line, "kind"),
        Why::Cbor(Reason::NotShortest) => push(line, "not shortest"),
        Why::Cbor(Reason::TooDeep) => push(line, "too deep"),
        Why::Cbor(Reason::BadText) => push(line, "bad text"),
        Why::Cbor(Reason::Repeated) => push(line, "repeated"),
        Why::Cbor(Reason::Order) => push(line, "order"),
        Why::Trailing => push(line, "trailing"),
        Why::Shape => push(line, "shape"),
        Why::UnknownKey => push(line, "unknown key"),
        Why::Missing(key) => push_numbered(line, "missing", key),
        Why::Algorithm => push(line, "algorithm"),
        Why::Version(version) => push_numbered(line, "version", version),
        Why::TooMany(count) => push_count(line, count),
        Why::LongIdentifier => push(line, "long identifier"),
        Why::TwoAlike(first, second) => push_alike(line, first, second),
        Why::UnknownParam => push(line, "unknown parameter"),
        Why::BadParam => push(line, "bad parameter"),
        Why::Unsupported => push(line, "unsupported"),
        Why::BadArgument => push(line, "bad argument"),
        Why::BadIndex(index, count) => push_index(line, index, count),
        Why::Nested => push(line, "nested"),
    }
}

/// The line of a refusal: its place in the file, and what is wrong there.
pub(crate) fn refusal_line(mut line: String, refusal: Refusal) -> Text
    requires empty { string_len line ≡ 0 }
    requires room { 100 ≤ string_capacity line }
    ensures { result ≡ refusal_line refusal }
{
    push(&mut line, "refused at ");
    push_number(&mut line, refusal.place);
    push(&mut line, ": ");
    push_why(&mut line, refusal.why);
    push(&mut line, "\n");
    Text::from_string(line)
}

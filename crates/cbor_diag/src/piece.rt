//! Reading the marks of a notation, and the bytes of a string one at a time.

ghost use Rattle.std.specs.Prelude.{◌≡◌, option_map};
ghost use Rattle.hex.specs.Hex.{hex_digit_value};
ghost use Rattle.cbor_diag.specs.Reading.{after as after_mark, past as past_mark, hex_byte as hex_byte_at, character as character_at};

/// What follows a mark, if it is at the front.
pub(crate) fn after<'a>(text: &'a [u8], mark: &[u8]) -> Option<&'a [u8]>
    ensures { option_map (λ r. r.now) result ≡ after_mark mark.now text.now }
{
    text.strip_prefix(mark)
}

/// What follows a mark, if it is at the front, or else the whole text.
pub(crate) fn past<'a>(text: &'a [u8], mark: &[u8]) -> &'a [u8]
    ensures { result.now ≡ past_mark mark.now text.now }
{
    after(text, mark).unwrap_or(text)
}

fn hex_digit(byte: u8) -> Option<u8>
    ensures { result ≡ hex_digit_value byte }
{
    match byte {
        b'0'..=b'9' => Some(byte - b'0'),
        b'a'..=b'f' => Some(byte - b'a' + 10),
        b'A'..=b'F' => Some(byte - b'A' + 10),
        _ => None,
    }
}

/// Reads a byte from the two hexadecimal digits at the front.
pub(crate) fn hex_byte(text: &[u8]) -> Option<(u8, &[u8])>
    ensures { option_map (λ r. (r.0, r.1.now)) result ≡ hex_byte_at text.now }
{
    let [high, low, rest @ ..] = text else {
        return None;
    };
    let byte = hex_digit(*high)? * 16 + hex_digit(*low)?;
    Some((byte, rest))
}

/// Reads the next byte of a text's content, which may be escaped.
pub(crate) fn character(text: &[u8]) -> Option<(u8, &[u8])>
    ensures { option_map (λ r. (r.0, r.1.now)) result ≡ character_at text.now }
{
    if let Some(digits) = after(text, b"\\u00") {
        return hex_byte(digits);
    }
    match text {
        [b'\\', byte, rest @ ..] => Some((*byte, rest)),
        [byte, rest @ ..] => Some((*byte, rest)),
        [] => None,
    }
}

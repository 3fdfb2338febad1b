//! Reading a number.

ghost use Rattle.std.specs.Prelude.{◌≡◌, option_map};
ghost use Rattle.cbor_diag.specs.Reading.{number_at};

// The largest number in a notation: that of the integer -1 - (2^64 - 1).
const MOST: u128 = 1 << 64;

/// Reads the digits at the front as a number, and returns what follows them. No digits give 0. A
/// number far above `MOST` is refused.
pub(crate) fn read_number(text: &[u8]) -> Option<(u128, &[u8])>
    ensures { option_map (λ r. (r.0, r.1.now)) result ≡ number_at 0 text.now }
{
    let mut number: u128 = 0;
    for place in 0..text.len() {
        let byte = text[place];
        if !byte.is_ascii_digit() {
            return Some((number, &text[place..]));
        }
        if number > MOST {
            return None;
        }
        number = number * 10 + u128::from(byte - b'0');
    }
    Some((number, &text[text.len()..]))
}

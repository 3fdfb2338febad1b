//! Numbers as words.

ghost use Rattle.std.specs.Prelude.{◌≡◌};
ghost use Rattle.command_words.specs.Numbers.{is_short, number_of};

// Whether there is no leading zero. A single `0` has none.
fn is_short(word: &str) -> bool
    ensures { result ≡ is_short word.now }
{
    word.len() == 1 || !word.starts_with('0')
}

/// The number below 2^64 that the word spells: decimal digits without a sign or a leading zero.
pub(crate) fn number_of(word: &str) -> Option<u64>
    ensures { result ≡ number_of word.now }
{
    if word.starts_with('+') || !is_short(word) {
        return None;
    }
    match word.parse::<u64>() {
        Ok(number) => Some(number),
        Err(_) => None,
    }
}

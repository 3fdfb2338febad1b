//! Single words.

ghost use Rattle.std.specs.Prelude.{◌≡◌};
ghost use Rattle.std.specs.List.{list_all};
ghost use Rattle.command_words.specs.Tasks.{texts};
ghost use Rattle.command_words.specs.Words.{is_plain};

// Whether the word can be in a command: none of those begins with a dash.
fn is_plain(word: &str) -> bool
    ensures { result ≡ is_plain word.now }
{
    !word.starts_with('-')
}

pub(crate) fn are_plain(words: &[&str]) -> bool
    ensures { result ≡ list_all is_plain (texts words.now) }
{
    words.iter().all(|word| is_plain(word))
}

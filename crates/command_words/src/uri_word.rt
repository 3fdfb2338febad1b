//! A word that names the file for a URI.

ghost use Rattle.std.specs.Prelude.{◌≡◌, option_map};
ghost use Rattle.command_words.specs.UriWords.{answer_said, cut};

/// A URI, and the name of the file that answers it. Both may be empty.
#[derive(Clone, Copy, Debug, PartialEq, Eq)]
pub struct UriWord<'a> {
    /// The URI.
    pub uri: &'a str,
    /// The name of the file, which contains no `=`.
    pub name: &'a str,
}

/// Cuts a word at its last `=`, or returns `None` if it has none.
pub(crate) fn cut(word: &str) -> Option<UriWord<'_>>
    ensures { option_map answer_said result ≡ cut word.now }
{
    let (uri, name) = word.rsplit_once('=')?;
    Some(UriWord { uri, name })
}

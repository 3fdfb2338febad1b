//! The words of the command line, and the files that they name for URIs.

ghost use Rattle.std.specs.Prelude.{◌≡◌, IfOk, map};
ghost use Rattle.command_words.specs.Tasks.{texts};
ghost use Rattle.command_words.specs.UriWords.{answer_said};
ghost use Rattle.suit_cli.specs.Words.{pairs_of};

use command_words::UriWord;
use det_cbor::{Names, Text};
use std::alloc::{AllocError, Global};
use step_machine::Uris;

/// The words, borrowed.
pub(crate) fn lent<'a>(alloc: Global, words: &'a Names) -> Result<Vec<&'a str>, AllocError>
    ensures { IfOk result (λ lent. texts lent.items ≡ words.entry.now) }
{
    let mut lent = Vec::new(alloc);
    for word in words.as_slice() {
        lent.push(word.as_str())?;
    }
    Ok(lent)
}

/// The file names by URI, in the order of the words.
pub(crate) fn uris_named(alloc: Global, words: &[UriWord<'_>]) -> Result<Uris, AllocError>
    ensures { IfOk result (λ uris. uris ≡ pairs_of (map answer_said words.now)) }
{
    let mut uris = Uris::new(alloc);
    for word in words {
        let uri = Text::from_str(alloc, word.uri)?;
        uris.push((uri, Text::from_str(alloc, word.name)?))?;
    }
    Ok(uris)
}

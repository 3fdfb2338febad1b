//! The words that name the files for URIs.

ghost use Rattle.std.specs.Prelude.{◌≡◌, [], ◌∷◌, ◌++◌, map, IfOk, OnOk, filter_map};
ghost use Rattle.std.specs.List.{list_any};
ghost use Rattle.command_words.specs.Tasks.{texts};
ghost use Rattle.command_words.specs.UriWords.{answer_said, are_answers, cut, is_last, names};

use crate::uri_word::{UriWord, cut};
use std::alloc::{AllocError, Global};
use std::marker::Model;

/// URIs and the names of the files that answer them, in the order of their words. No URI occurs
/// twice.
#[derive(Debug, Drop)]
pub struct UriWords<'a> {
    held: Vec<UriWord<'a>>,
}

impl<'a> Model for UriWords<'a> {
    ghost use Rattle.std.specs.Prelude.{List, map};
    ghost use Rattle.command_words.specs.Tasks.{Answer};
    ghost use Rattle.command_words.specs.UriWords.{answer_said};

    ghost Value = { List Answer };

    ghost view = { λ u. map answer_said u.held.items };
}

impl<'a> UriWords<'a> {
    pub(crate) fn new(alloc: Global) -> UriWords<'a>
        ensures { result ≡ [] }
    {
        UriWords {
            held: Vec::new(alloc),
        }
    }

    // Adds what a word says, or nothing if it has no `=`.
    fn push(&mut self, word: &'a str) -> Result<(), AllocError>
        ensures { OnOk result (self.new ≡ self.old ++ filter_map cut (word.entry.now ∷ [])) }
    {
        match cut(word) {
            Some(uri) => Ok(self.held.push(uri)?),
            None => Ok(()),
        }
    }

    /// Borrows the words, each cut in two.
    pub fn as_slice(&self) -> &[UriWord<'a>]
        ensures { map answer_said result.now ≡ self.now }
    {
        self.held.as_slice()
    }

    /// Cuts the words in two, leaving out those without a `=`.
    pub(crate) fn cut(alloc: Global, words: &[&'a str]) -> Result<UriWords<'a>, AllocError>
        ensures { IfOk result (λ uris. uris ≡ filter_map cut (texts words.now)) }
    {
        let mut uris = UriWords::new(alloc);
        for word in words {
            uris.push(*word)?;
        }
        Ok(uris)
    }
}

fn names(uri: &str, word: &str) -> bool
    ensures { result ≡ names uri.now word.now }
{
    match cut(word) {
        Some(answer) => answer.uri == uri,
        None => false,
    }
}

fn are_named(uri: &str, words: &[&str]) -> bool
    ensures { result ≡ list_any (names uri.now) (texts words.now) }
{
    words.iter().any(|word| names(uri, word))
}

fn is_last(word: &str, later: &[&str]) -> bool
    ensures { result ≡ is_last word.now (texts later.now) }
{
    match cut(word) {
        Some(answer) => !are_named(answer.uri, later),
        None => false,
    }
}

/// Whether each word has a `=`, and no two of them name the same URI.
pub(crate) fn are_answers(words: &[&str]) -> bool
    ensures { result ≡ are_answers (texts words.now) }
{
    match words {
        [] => true,
        [word, later @ ..] => is_last(word, later) && are_answers(later),
    }
}

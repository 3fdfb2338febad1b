//! Laws of the words, as contracts of a call that does nothing.

ghost use Rattle.command_words.specs.Spelled.{WordLaws};

/// Does nothing. Its contract is the law of the words: the table reads each command from the words
/// that spell it, and from no others.
pub fn word_laws()
    ensures { WordLaws }
{}

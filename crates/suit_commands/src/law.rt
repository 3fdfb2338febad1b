//! Laws of all sequences of commands, whichever function reads or writes them.

ghost use Rattle.suit_commands.specs.SequenceLaws.{SequenceLaws};

/// Does nothing. Its contract has the laws. At each number of levels, a valid item says exactly one
/// sequence or has exactly one refusal, and never both; the same holds of any bytes. What is said
/// is a sequence of the grammar, which has at most eight levels and may have eight. The item that
/// says a sequence is the one that it is written as, with its places; so bytes that were decoded
/// are encoded again as they were. Sequences that differ only in their places are written alike.
pub fn sequence_laws()
    ensures { SequenceLaws }
{}

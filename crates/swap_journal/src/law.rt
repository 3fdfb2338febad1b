//! Laws of exchanges, whichever function makes them.

ghost use Rattle.swap_journal.specs.CopyLaws.{CopyLaws};

/// Does nothing. Its contract is the law of copies: a copy, whether it is made or torn by a power
/// loss, leaves the contents that are recovered as they are.
pub fn copy_laws()
    ensures { CopyLaws }
{}

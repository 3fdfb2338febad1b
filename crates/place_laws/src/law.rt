//! Laws on the places of commands: where these matter, and where they do not.

ghost use Rattle.place_laws.specs.Moving.{ManifestMoves, WholeMoves};
ghost use Rattle.place_laws.specs.Judging.{ProcedureMoves, SafeMoves, BadPathMoves, NumbersMove, GrammarMoves};
ghost use Rattle.place_laws.specs.Installing.{InstalledAnywhere};

use suit_envelope::envelope_laws;

/// Does nothing. Its contract has the laws: if an item says a manifest at one place, it says the same one at each other
/// place, but for the places of its commands (`moved`, `whole`). Procedures that differ only in their places are both
/// safe or neither, have bad paths that differ only in places, have the same width, and the grammar allows both or
/// neither.
pub fn place_laws()
    ensures moved { ManifestMoves }
    ensures whole { WholeMoves }
    ensures procedure { ProcedureMoves }
    ensures safe { SafeMoves }
    ensures bad_path { BadPathMoves }
    ensures numbers { NumbersMove }
    ensures grammar { GrammarMoves }
{}

/// Does nothing. Its contract has the law: a manifest that was judged at its place in an envelope may be recorded with
/// the trimmed envelope, where it is at another place.
pub fn installation_laws()
    ensures { InstalledAnywhere }
{
    envelope_laws();
}

//! Laws of a manifest's procedures.

ghost use Rattle.suit_manifest.specs.ProcedureLaws.{ProcedureLaws};

use suit_commands::sequence_laws;

/// Does nothing. Its contract has the laws. Both procedures of a manifest of the grammar are
/// procedures of the grammar, with one to eight components. An update has payload-fetch, install
/// and validate, in this order, and an invocation has validate, load and invoke
/// (draft-ietf-suit-manifest-25, section 6.4), each after the shared sequence of the manifest.
pub fn procedure_laws()
    ensures { ProcedureLaws }
{
    sequence_laws();
}

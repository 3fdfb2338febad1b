//! Laws of all descriptions.

ghost use Rattle.author.specs.DescriptionLaws.{DescriptionLaws};

use det_cbor::splitting_laws;
use suit_envelope::payload_order_laws;

/// Does nothing. Its contract has the laws. A description has its parts, whatever bytes its files have; the grammar
/// allows its manifest and each member that may be severed; and the keys of its payloads ascend in the order of their
/// spellings.
///
/// If no object in the value has a key twice, as in each value that is read from a text, the payloads are those under
/// `payloads`, each with its bytes; the severed members are those that are named, each given with its content; and each
/// of these has the commands that its array names, in order.
pub fn description_laws()
    ensures { DescriptionLaws }
{
    splitting_laws();
    payload_order_laws();
}

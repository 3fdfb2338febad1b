//! The protected header of a Mac0 block (RFC 9052, section 3.1).

ghost use Rattle.std.specs.Prelude.{◌≡◌, ◌↔◌, IsTrue, IfSome, IfNone};
ghost use Rattle.hmac_mac0.specs.Mac0.{IsHeader, made_header};
ghost use Rattle.hmac_mac0.specs.declared.mac_kind.MacKind.{MacKind};

use crate::MacKind;
use crate::compare::are_equal;
use crate::layout::is_string;
use crate::mac_kind::number;

/// The protected header that names this algorithm: the map of 1 (alg) to its number.
pub(crate) fn header(kind: MacKind) -> [u8; 3]
    ensures { result ≡ made_header kind }
{
    [0xa1, 0x01, number(kind)]
}

// Whether the bytes are a protected header that names this algorithm, and perhaps a kid.
fn is_header(kind: MacKind, protected: &[u8]) -> bool
    ensures { IsTrue result ↔ IsHeader kind protected.now }
{
    // The map of 1 (alg) and 4 (kid), up to the kid.
    let with_kid = [0xa2, 0x01, number(kind), 0x04];
    match protected.strip_prefix(&with_kid) {
        Some(kid) => is_string(kid),
        None => are_equal(protected, &header(kind)),
    }
}

/// The algorithm that a protected header names, or `None` if the bytes are not such a header.
pub(crate) fn algorithm(protected: &[u8]) -> Option<MacKind>
    ensures some { IfSome result (λ kind. IsHeader kind protected.now) }
    ensures none { IfNone result ((kind : MacKind) → IsHeader kind protected.now → ⊥) }
{
    if is_header(MacKind::Hmac256, protected) {
        Some(MacKind::Hmac256)
    } else if is_header(MacKind::Hmac512, protected) {
        Some(MacKind::Hmac512)
    } else {
        None
    }
}

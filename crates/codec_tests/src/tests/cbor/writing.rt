//! Parts of items, as RFC 8949 spells them. Whole items are spelled in `reading`.

use det_cbor::{
    Bytes, HeadKind, push_count, push_flag, push_kind, push_null, push_number, push_string,
    push_text,
};
use lane_bytes::same;
use std::alloc::{AllocError, Global};

fn push_pieces(out: &mut Bytes) -> Result<(), AllocError> {
    push_count(out, 25)?;
    push_number(out, 1_000_000)?;
    push_kind(out, HeadKind::Negative, 99)?;
    push_flag(out, false)?;
    push_flag(out, true)?;
    push_null(out)?;
    push_string(out, b"\x01\x02\x03\x04")?;
    push_text(out, "IETF")
}

// Whether the parts are spelled like this.
fn are_spelled(alloc: Global, spelling: &[u8]) -> Result<bool, AllocError> {
    let mut out = Bytes::new(alloc);
    push_pieces(&mut out)?;
    Ok(same(out.as_slice(), spelling))
}

#[test]
fn pieces_are_spelled_as_in_rfc_8949(rt: HostRuntime) -> Result<(), AllocError> {
    let spelling = b"\x98\x19\x1a\x00\x0f\x42\x40\x38\x63\xf4\xf5\xf6\x44\x01\x02\x03\x04\x64IETF";
    assert!(rt; are_spelled(rt.alloc(), spelling)?);
    Ok(())
}

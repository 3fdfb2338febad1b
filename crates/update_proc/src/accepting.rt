//! Judges an offered update against the record, and trims its envelope.

ghost use Rattle.rollback_record.specs.Judging.{IsAcceptable};
ghost use Rattle.std.specs.Prelude.{◌≡◌, IfErr, IfOk, OnOk, option_map};
ghost use Rattle.suit_envelope.specs.Trimmed.{trimmed};
ghost use Rattle.update_proc.specs.Ends.{IsRefusal, IsUnbegun, JudgedSo};

use crate::UpdateEnd;
use det_cbor::Bytes;
use flash_layout::Record;
use rollback_record::{Judged, judge};
use std::alloc::{AllocError, Global};
use suit_envelope::{Envelope, trim};
use suit_params::Digest;

// Returns an error if a manifest with this number and digest may not be recorded after the held record.
fn accept(held: Option<&Record>, sequence: u64, digest: &Digest) -> Result<(), UpdateEnd>
    ensures refused { IfErr result (λ end. IsRefusal end) }
    ensures judged { IfErr result
        (λ end. JudgedSo sequence digest.now (option_map (λ r. r.now) held.entry) end) }
    ensures accepted { OnOk result
        (IsAcceptable sequence digest.now (option_map (λ r. r.now) held.entry)) }
{
    match judge(held, sequence, digest) {
        Judged::Accepted => Ok(()),
        Judged::Lower { recorded, offered } => Err(UpdateEnd::Lower { recorded, offered }),
        Judged::OtherDigest { recorded, offered } => {
            Err(UpdateEnd::OtherDigest { recorded, offered })
        }
        Judged::Worn => Err(UpdateEnd::Worn),
    }
}

// The bytes to be installed, which are the trimmed envelope, if its manifest may be recorded after the held record.
pub(crate) fn installable(
    alloc: Global,
    envelope: &Envelope<'_>,
    sequence: u64,
    held: Option<&Record>,
    digest: &Digest,
) -> Result<Bytes, UpdateEnd>
    ensures spelling { IfOk result
        (λ bytes. bytes ≡ trimmed envelope.now.wrapper.now envelope.now.manifest.now) }
    ensures accepted { OnOk result
        (IsAcceptable sequence digest.now (option_map (λ r. r.now) held.entry)) }
    ensures unbegun { IfErr result (λ end. IsUnbegun end) }
    ensures judged { IfErr result
        (λ end. JudgedSo sequence digest.now (option_map (λ r. r.now) held.entry) end) }
{
    accept(held, sequence, digest)?;
    match trim(alloc, envelope) {
        Ok(bytes) => Ok(bytes),
        Err(AllocError) => Err(UpdateEnd::NoMemory),
    }
}

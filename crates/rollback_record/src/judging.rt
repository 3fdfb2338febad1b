//! Whether a manifest may be recorded.

ghost use Rattle.rollback_record.specs.Judging.{IsJudged};
ghost use Rattle.std.specs.Prelude.{Some, option_map};

use flash_layout::Record;
use suit_params::Digest;

/// The judgement of a manifest against the held record.
#[derive(Clone, Copy, Debug, PartialEq, Eq)]
pub enum Judged {
    /// The manifest may be recorded.
    Accepted,
    /// The manifest's sequence number is below the recorded one.
    Lower { recorded: u64, offered: u64 },
    /// The manifest's sequence number is the recorded one, but its digest is another.
    OtherDigest { recorded: Digest, offered: Digest },
    /// The generation of the held record is the last one, so no record can follow.
    Worn,
}

// Judges a manifest against a record.
fn judge_beside(held: &Record, sequence: u64, digest: &Digest) -> Judged
    ensures { IsJudged sequence digest.now (Some held.now) result }
{
    if sequence < held.sequence {
        return Judged::Lower {
            recorded: held.sequence,
            offered: sequence,
        };
    }
    if sequence == held.sequence && *digest != held.digest {
        return Judged::OtherDigest {
            recorded: held.digest,
            offered: *digest,
        };
    }
    if held.generation == u64::MAX {
        return Judged::Worn;
    }
    Judged::Accepted
}

/// Judges a manifest's sequence number and digest against the held record. Returns the first thing that is wrong, in
/// the order of the variants.
pub fn judge(held: Option<&Record>, sequence: u64, digest: &Digest) -> Judged
    ensures { IsJudged sequence digest.now (option_map (λ r. r.now) held.entry) result }
{
    match held {
        None => Judged::Accepted,
        Some(held) => judge_beside(held, sequence, digest),
    }
}

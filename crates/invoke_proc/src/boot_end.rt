//! How a boot ends.

ghost use Rattle.std.specs.Prelude.{◌≡◌};
ghost use Rattle.invoke_proc.specs.Starting.{declined_as, lacking_in};

use admission::NotStartable;
use path_model::Cause;
use suit_envelope::Authenticity;
use suit_params::Refusal;

/// Why an envelope is not authentic.
#[derive(Clone, Copy, Debug, PartialEq, Eq)]
pub enum Lacking {
    /// The wrapper states another digest than that of the manifest.
    DigestDiffers,
    /// No block is a Mac0 block.
    NoMac,
    /// No block verifies.
    MacDiffers,
}

/// How a boot ended. Places are byte offsets in the envelope.
#[derive(Clone, Copy, Debug, PartialEq, Eq)]
pub enum BootEnd {
    /// The invocation procedure of the installed manifest ran to its end.
    Ended,
    /// The flash has no record.
    NothingInstalled,
    /// What the record's bank holds is refused as an envelope, or its manifest is refused.
    BadBank(Refusal),
    /// The envelope in the bank is not authentic under the key.
    NotAuthentic(Lacking),
    /// The layout lacks this component of the manifest, by its index there.
    UnknownComponent(u32),
    /// A condition failed at this place.
    Condition { place: u64 },
    /// A directive failed at this place, or a fault of the outside stopped it there.
    Stopped { place: u64, cause: Cause },
    /// The flash failed before the procedure, or in the sync after it. Its count of faults rose.
    FlashFault,
}

impl<'a> From<Authenticity<'a>> for Lacking {
    ghost from_gives = { λ e r. r ≡ lacking_in e };

    // The envelope was refused, so the answer is never `Yes`.
    fn from(answer: Authenticity<'a>) -> Lacking {
        match answer {
            Authenticity::DigestDiffers { .. } => Lacking::DigestDiffers,
            Authenticity::MacDiffers { .. } => Lacking::MacDiffers,
            Authenticity::NoMac | Authenticity::Yes => Lacking::NoMac,
        }
    }
}

impl<'a> From<NotStartable<'a>> for BootEnd {
    ghost from_gives = { λ e r. r ≡ declined_as e };

    fn from(refusal: NotStartable<'a>) -> BootEnd {
        match refusal {
            NotStartable::NoEnvelope(refusal) => BootEnd::BadBank(refusal),
            NotStartable::NoManifest(refusal) => BootEnd::BadBank(refusal),
            NotStartable::NotAuthentic(answer) => BootEnd::NotAuthentic(Lacking::from(answer)),
            NotStartable::UnknownComponent(component) => BootEnd::UnknownComponent(component),
        }
    }
}

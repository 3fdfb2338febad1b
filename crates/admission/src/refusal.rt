//! Why bytes are refused.

ghost use Rattle.std.specs.Prelude.{◌≡◌};
ghost use Rattle.admission.specs.Refusals.{of_members, of_opening, of_procedures};
ghost use Rattle.admission.specs.declared.refusal.NotAdmitted.TheVariants as refusals;
ghost use Rattle.admission.specs.declared.refusal.NotStartable.TheVariants as not_startable;

use flash_layout::Unknown;
use path_model::BadPath;
use suit_envelope::{Authenticity, MemberName};
use suit_manifest::MemberFault;
use suit_params::{Digest, Refusal};

/// One of the two procedures of a manifest (draft-ietf-suit-manifest-25, section 6.4).
#[derive(Clone, Copy, Debug, PartialEq, Eq)]
pub enum Procedure {
    Update,
    Invocation,
}

/// Why a file is not opened.
#[derive(Clone, Copy, Debug, PartialEq, Eq)]
pub enum NotOpened {
    /// The bytes are refused as an envelope.
    NoEnvelope(Refusal),
    /// The trimmed envelope is longer than the limit. Holds its length in bytes, saturated at 64 bits.
    TooLong(u64),
    /// The envelope's manifest is refused. The place is a byte offset in the envelope.
    NoManifest(Refusal),
    NoMemory,
}

/// Why the procedures of a manifest must not be run.
#[derive(Debug, Drop)]
pub enum NotSafe {
    /// The procedure is too wide to judge. Holds its width, saturated at 64 bits.
    TooWide { procedure: Procedure, width: u64 },
    /// The last event of this path is an invoke that is not covered.
    Unsafe { procedure: Procedure, path: BadPath },
    NoMemory,
}

/// Why an update is not admitted.
#[derive(Debug, Drop)]
pub enum NotAdmitted<'a> {
    /// The bytes are refused as an envelope.
    NoEnvelope(Refusal),
    /// The trimmed envelope is longer than the limit. Holds its length in bytes, saturated at 64 bits.
    TooLong(u64),
    /// The envelope is not authentic under the key. Never holds `Yes`.
    NotAuthentic(Authenticity<'a>),
    /// The envelope's manifest is refused. The place is a byte offset in the envelope.
    NoManifest(Refusal),
    /// The layout lacks this component of the manifest, by its index there. It is the first one that it lacks.
    UnknownComponent(u32),
    /// The manifest states the digest of this severed member, and the envelope does not hold the member.
    Severed(MemberName),
    /// The manifest states one digest of this severed member, and the envelope holds a member that has another.
    Differs {
        name: MemberName,
        stated: Digest,
        found: Digest,
    },
    /// A member that has the stated digest is refused as a command sequence. The place is a byte offset in the
    /// envelope.
    NoSequence(Refusal),
    /// The procedure is too wide to judge. Holds its width, saturated at 64 bits.
    TooWide {
        procedure: Procedure,
        width: u64,
    },
    /// The last event of this path is an invoke that is not covered.
    Unsafe {
        procedure: Procedure,
        path: BadPath,
    },
    NoMemory,
}

/// Why the installed envelope is not started.
#[derive(Clone, Copy, Debug, PartialEq, Eq)]
pub enum NotStartable<'a> {
    /// The bytes are refused as an envelope.
    NoEnvelope(Refusal),
    /// The envelope's manifest is refused. The place is a byte offset in the envelope.
    NoManifest(Refusal),
    /// The envelope is not authentic under the key. Never holds `Yes`.
    NotAuthentic(Authenticity<'a>),
    /// The layout lacks this component of the manifest, by its index there. It is the first one that it lacks.
    UnknownComponent(u32),
}

impl<'a> From<NotOpened> for NotAdmitted<'a> {
    ghost from_gives = { λ e r. r ≡ of_opening e };

    fn from(refusal: NotOpened) -> NotAdmitted<'a> {
        match refusal {
            NotOpened::NoEnvelope(refusal) => NotAdmitted::NoEnvelope(refusal),
            NotOpened::TooLong(length) => NotAdmitted::TooLong(length),
            NotOpened::NoManifest(refusal) => NotAdmitted::NoManifest(refusal),
            NotOpened::NoMemory => NotAdmitted::NoMemory,
        }
    }
}

impl<'a> From<Authenticity<'a>> for NotAdmitted<'a> {
    ghost from_gives = { λ e r. r ≡ refusals.NotAuthentic e };

    fn from(answer: Authenticity<'a>) -> NotAdmitted<'a> {
        NotAdmitted::NotAuthentic(answer)
    }
}

impl<'a> From<Unknown> for NotAdmitted<'a> {
    ghost from_gives = { λ e r. r ≡ refusals.UnknownComponent e.component };

    fn from(unknown: Unknown) -> NotAdmitted<'a> {
        NotAdmitted::UnknownComponent(unknown.component)
    }
}

impl<'a> From<MemberFault> for NotAdmitted<'a> {
    ghost from_gives = { λ e r. r ≡ of_members e };

    fn from(fault: MemberFault) -> NotAdmitted<'a> {
        match fault {
            MemberFault::Severed(name) => NotAdmitted::Severed(name),
            MemberFault::Differs {
                name,
                stated,
                found,
            } => NotAdmitted::Differs {
                name,
                stated,
                found,
            },
            MemberFault::Refused(refusal) => NotAdmitted::NoSequence(refusal),
            MemberFault::NoMemory => NotAdmitted::NoMemory,
        }
    }
}

impl<'a> From<NotSafe> for NotAdmitted<'a> {
    ghost from_gives = { λ e r. r ≡ of_procedures e };

    fn from(refusal: NotSafe) -> NotAdmitted<'a> {
        match refusal {
            NotSafe::TooWide { procedure, width } => NotAdmitted::TooWide { procedure, width },
            NotSafe::Unsafe { procedure, path } => NotAdmitted::Unsafe { procedure, path },
            NotSafe::NoMemory => NotAdmitted::NoMemory,
        }
    }
}

impl<'a> From<Authenticity<'a>> for NotStartable<'a> {
    ghost from_gives = { λ e r. r ≡ not_startable.NotAuthentic e };

    fn from(answer: Authenticity<'a>) -> NotStartable<'a> {
        NotStartable::NotAuthentic(answer)
    }
}

impl<'a> From<Unknown> for NotStartable<'a> {
    ghost from_gives = { λ e r. r ≡ not_startable.UnknownComponent e.component };

    fn from(unknown: Unknown) -> NotStartable<'a> {
        NotStartable::UnknownComponent(unknown.component)
    }
}

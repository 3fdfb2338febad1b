//! The procedure of an update, which the bytes of its envelope lend.

ghost use Rattle.std.specs.Prelude.{◌≡◌, ◌^◌};
ghost use Rattle.step_machine.specs.Programs.{program_tree};
ghost use Rattle.suit_envelope.specs.Places.{PartsEndBelow};
ghost use Rattle.suit_envelope.specs.Said.{said_by};
ghost use Rattle.suit_manifest.specs.declared.manifest.Manifest.{Manifest};
ghost use Rattle.suit_manifest.specs.declared.manifest.Members.{Members};
ghost use Rattle.suit_manifest.specs.Manifests.{IsManifest};
ghost use Rattle.suit_manifest.specs.MembersApart.{HasMembers};
ghost use Rattle.suit_manifest.specs.Procedures.{update_tree};
ghost use Rattle.suit_params.specs.Refusing.{SaysWhole};

use manifest_programs::update_program;
use manifest_view::ManifestView;
use step_machine::Program;
use suit_envelope::Envelope;

/// The update procedure of an envelope whose manifest and members were judged.
pub(crate) fn program_of<'a>(envelope: &Envelope<'a>) -> Program<'a>
    requires ends { PartsEndBelow (2 ^ 64) (said_by envelope.now) }
    requires manifest { (manifest : Manifest) × SaysWhole IsManifest envelope.now.manifest_place
        envelope.now.manifest.now manifest }
    ensures { (manifest : Manifest) (members : Members)
        → SaysWhole IsManifest envelope.now.manifest_place envelope.now.manifest.now manifest
        → HasMembers (said_by envelope.now) manifest members
        → program_tree result ≡ update_tree manifest members }
{
    let view = ManifestView::read(envelope.manifest, envelope.manifest_place).unwrap();
    update_program(envelope, view)
}

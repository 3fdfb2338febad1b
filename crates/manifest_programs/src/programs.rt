//! The two procedures.

ghost use Rattle.std.specs.Prelude.{◌≡◌, ◌<◌, ◌^◌, length};
ghost use Rattle.manifest_view.specs.Views.{manifest_of};
ghost use Rattle.step_machine.specs.Programs.{program_tree};
ghost use Rattle.suit_envelope.specs.Places.{MembersEndBelow};
ghost use Rattle.suit_envelope.specs.Said.{said_by};
ghost use Rattle.suit_manifest.specs.declared.manifest.Members.{Members};
ghost use Rattle.suit_manifest.specs.MembersApart.{HasMembers};
ghost use Rattle.suit_manifest.specs.Procedures.{invocation_tree, update_tree};

use crate::members::lend_member;
use manifest_view::ManifestView;
use step_machine::Program;
use suit_envelope::Envelope;

/// The update procedure of an envelope's manifest: payload-fetch, install and validate, each after the shared sequence.
///
/// An absent member counts as an empty one. A member that the manifest holds is never taken from the envelope, and a
/// severed one was found there before. Needs fewer than 2^32 components; the grammar of a manifest allows eight.
pub fn update_program<'a>(envelope: &Envelope<'a>, view: ManifestView<'a>) -> Program<'a>
    requires few { length view.components < 2 ^ 32 }
    requires ends { MembersEndBelow (2 ^ 64) (said_by envelope.now) }
    ensures { (members : Members)
        → HasMembers (said_by envelope.now) (manifest_of view.entry) members
        → program_tree result ≡ update_tree (manifest_of view.entry) members }
{
    let count = view.components.len() as u32;
    let place = envelope.payload_fetch_place;
    let first = lend_member(view.payload_fetch, envelope.payload_fetch, place, count);
    let place = envelope.install_place;
    let second = lend_member(view.install, envelope.install, place, count);
    Program {
        shared: view.shared,
        first,
        second,
        third: view.validate,
        count,
    }
}

/// The invocation procedure of a manifest: validate, load and invoke, each after the shared sequence.
///
/// An absent member counts as an empty one. Needs fewer than 2^32 components; the grammar of a manifest allows eight.
pub fn invocation_program<'a>(view: ManifestView<'a>) -> Program<'a>
    requires { length view.components < 2 ^ 32 }
    ensures { program_tree result ≡ invocation_tree (manifest_of view.entry) }
{
    let count = view.components.len() as u32;
    Program {
        shared: view.shared,
        first: view.validate,
        second: view.load,
        third: view.invoke,
        count,
    }
}

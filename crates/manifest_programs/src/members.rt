//! Members that may be severed from their manifest.

ghost use Rattle.std.specs.Prelude.{◌≡◌, ◌<◌, ◌^◌, Option, option_map};
ghost use Rattle.manifest_view.specs.Views.{member_of};
ghost use Rattle.step_machine.specs.Programs.{part_tree};
ghost use Rattle.suit_commands.specs.Tree.{SequenceTree};
ghost use Rattle.suit_envelope.specs.Places.{EndsBelow};
ghost use Rattle.suit_manifest.specs.MembersApart.{HasMember};
ghost use Rattle.suit_manifest.specs.Procedures.{member_tree};

use manifest_view::MemberView;
use suit_cursor::LentSequence;

/// Lends a member: the one in the manifest, or else the content that the envelope holds for it at this place, if it was
/// taken from there.
pub(crate) fn lend_member<'a>(
    member: MemberView<'a>,
    content: Option<&'a [u8]>,
    place: u64,
    count: u32,
) -> Option<LentSequence<'a>>
    requires { EndsBelow (2 ^ 64) (option_map (λ s. s.now) content) place }
    ensures { (apart : Option SequenceTree)
        → HasMember count (option_map (λ s. s.now) content.entry) place (member_of member.entry) apart
        → part_tree result ≡ member_tree (member_of member.entry) apart }
{
    match member {
        MemberView::Empty => None,
        MemberView::Here(steps) => Some(steps),
        MemberView::Apart(_) => match content {
            Some(bytes) => LentSequence::new(bytes, place, false, count).ok(),
            None => None,
        },
    }
}

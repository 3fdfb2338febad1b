//! The numbers of an envelope.

ghost use Rattle.std.specs.Prelude.{◌≡◌, ◌⊎◌, IfErr, IfOk, IsOk};
ghost use Rattle.suit_answers.specs.Answers.{code_of};
ghost use Rattle.suit_c.specs.Reading.{IsFile, IsReadAs, IsRefusedAt, IsRefusedFor, ManifestLiesIn};
ghost use Rattle.suit_answers.specs.declared.answer.Answer.TheVariants as answers;
ghost use Rattle.suit_envelope.specs.Envelopes.{EnvelopeSays};
ghost use Rattle.suit_manifest.specs.declared.manifest.Manifest.{Manifest};

use manifest_view::ManifestView;
use suit_answers::Answer;
use suit_envelope::{decode_envelope, envelope_laws, stated_digest, trimmed_length};
use suit_params::Refusal;

/// The numbers of an envelope (draft-ietf-suit-manifest-25, sections 8.2 to 8.4).
#[repr(C)]
#[derive(Clone, Copy)]
pub struct SuitEnvelope {
    /// The manifest's sequence number.
    pub sequence: u64,
    /// The byte offset of the manifest in the envelope.
    pub manifest_place: u64,
    /// The length of the manifest in bytes.
    pub manifest_length: u64,
    /// The length in bytes of the envelope with only its wrapper and manifest. Saturates at 64 bits.
    pub trimmed_length: u64,
    /// The digest that the wrapper states, padded with zeros.
    pub digest: [u8; 64],
    /// How many components the manifest has.
    pub components: u32,
    /// The length of the digest in bytes: 32, 48 or 64.
    pub digest_length: u32,
}

// Reads the numbers of the envelope that the bytes spell.
fn read(file: &[u8]) -> Result<SuitEnvelope, Refusal>
    ensures ok { IfOk result (IsReadAs file.now) }
    ensures within { IfOk result (ManifestLiesIn file.now) }
    ensures every_file { (said : EnvelopeSays) (manifest : Manifest)
        → IsFile file.now said manifest → IsOk result }
    ensures refused { IfErr result (IsRefusedFor file.now) }
{
    envelope_laws();
    let envelope = decode_envelope(file)?;
    let manifest = ManifestView::read(envelope.manifest, envelope.manifest_place)?;
    let digest = stated_digest(&envelope);
    Ok(SuitEnvelope {
        sequence: manifest.sequence,
        manifest_place: envelope.manifest_place,
        manifest_length: envelope.manifest.len() as u64,
        trimmed_length: trimmed_length(&envelope),
        digest: digest.padded(),
        components: manifest.components.len() as u32,
        digest_length: digest.kind().size() as u32,
    })
}

/// Reads the numbers of an envelope.
///
/// Returns 0, or 3 if the bytes do not spell an envelope or its manifest is refused. In that case `out` is left as it
/// was, and `place` is the byte offset of the fault. Does not judge whether the envelope is authentic.
#[unsafe(no_mangle)]
pub extern "C" fn suit_read(file: &[u8], out: &mut SuitEnvelope, place: &mut u64) -> i32
    ensures answers { (result ≡ code_of answers.Done) ⊎ (result ≡ code_of answers.Refused) }
    ensures read { result ≡ code_of answers.Done → IsReadAs file.now out.new }
    ensures within { result ≡ code_of answers.Done → ManifestLiesIn file.now out.new }
    ensures every_file { (said : EnvelopeSays) (manifest : Manifest)
        → IsFile file.now said manifest → result ≡ code_of answers.Done }
    ensures refused { result ≡ code_of answers.Refused → IsRefusedAt file.now place.new }
    ensures stays { result ≡ code_of answers.Refused → out.new ≡ out.old }
    ensures no_place { result ≡ code_of answers.Done → place.new ≡ place.old }
{
    match read(file) {
        Ok(numbers) => {
            *out = numbers;
            Answer::Done.code()
        }
        Err(refusal) => {
            *place = refusal.place;
            Answer::Refused.code()
        }
    }
}

//! Whether an envelope is authentic.

ghost use Rattle.std.specs.Prelude.{◌≡◌, ◌⊎◌};
ghost use Rattle.suit_answers.specs.Answers.{code_of};
ghost use Rattle.suit_c.specs.Authentic.{IsAuthenticFile, IsNoAuthenticFile};
ghost use Rattle.suit_answers.specs.declared.answer.Answer.TheVariants as answers;
ghost use Rattle.suit_params.specs.declared.refusal.Refusal.{Refusal};
ghost use Rattle.suit_envelope.specs.Said.{RefusesBytes};

use suit_answers::Answer;
use suit_envelope::{Authenticity, authentic, decode_envelope};

// Does the work of `suit_authentic`.
fn judge(file: &[u8], key: &[u8]) -> Answer
    ensures answers { (result ≡ answers.Done) ⊎ (result ≡ answers.NotAuthentic)
        ⊎ (result ≡ answers.Refused) }
    ensures yes { result ≡ answers.Done → IsAuthenticFile file.now key.now }
    ensures every_yes { IsAuthenticFile file.now key.now → result ≡ answers.Done }
    ensures refused { result ≡ answers.Refused → (r : Refusal) × RefusesBytes file.now r }
    ensures no { result ≡ answers.NotAuthentic → IsNoAuthenticFile file.now key.now }
{
    let Ok(envelope) = decode_envelope(file) else {
        return Answer::Refused;
    };
    match authentic(&envelope, key) {
        Authenticity::Yes => Answer::Done,
        _ => Answer::NotAuthentic,
    }
}

/// Judges whether an envelope is authentic under a key.
///
/// Returns 0 exactly if its wrapper states the digest of its manifest and some block of the wrapper verifies, 3 if the
/// bytes do not spell an envelope, and 4 otherwise.
#[unsafe(no_mangle)]
pub extern "C" fn suit_authentic(file: &[u8], key: &[u8]) -> i32
    ensures answers { (result ≡ code_of answers.Done) ⊎ (result ≡ code_of answers.NotAuthentic)
        ⊎ (result ≡ code_of answers.Refused) }
    ensures yes { result ≡ code_of answers.Done → IsAuthenticFile file.now key.now }
    ensures every_yes { IsAuthenticFile file.now key.now → result ≡ code_of answers.Done }
    ensures refused { result ≡ code_of answers.Refused → (r : Refusal) × RefusesBytes file.now r }
    ensures no { result ≡ code_of answers.NotAuthentic → IsNoAuthenticFile file.now key.now }
{
    judge(file, key).code()
}

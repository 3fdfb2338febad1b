//! Whether each invoke of a manifest is covered.

ghost use Rattle.admission.specs.Opening.{HasManifest};
ghost use Rattle.admission.specs.declared.refusal.NotOpened.TheVariants as refusals;
ghost use Rattle.admission.specs.declared.refusal.NotSafe.{NotSafe};
ghost use Rattle.check_c.specs.Answering.{
  IsFileAnswer,
  IsManifestAnswer,
  IsRefusedAs,
  tells_not_opened,
  tells_not_taken,
};
ghost use Rattle.check_c.specs.Checking.{
  IsMemberRefusalAt,
  IsNotSafeFile,
  IsNotSafeManifest,
  IsRefusalAt,
  IsRefusedAt,
  IsSafeFile,
  IsSafeManifest,
  RefusesMemberAt,
  tells_not_safe,
};
ghost use Rattle.std.specs.Prelude.{◌≡◌, ◌≢◌, ◌⊎◌, ◌<◌, ◌^◌, length};
ghost use Rattle.suit_answers.specs.Answers.{code_of};
ghost use Rattle.suit_answers.specs.declared.answer.Answer.{Answer};
ghost use Rattle.suit_answers.specs.declared.answer.Answer.TheVariants as answers;
ghost use Rattle.suit_envelope.specs.Places.{MembersEndBelow};
ghost use Rattle.suit_envelope.specs.Said.{said_by};
ghost use Rattle.suit_manifest.specs.MembersApart.{LacksMembers};
ghost use Rattle.suit_manifest.specs.declared.members.MemberFault.{MemberFault};
ghost use Rattle.suit_manifest.specs.declared.members.MemberFault.TheVariants as faults;

use admission::{LONGEST_TRIMMED, NotOpened, NotSafe, Opened, admission_laws, judge, open};
use std::alloc::Global;
use suit_answers::Answer;
use suit_manifest::{MemberFault, members_of, procedure_laws};

// Why a file is not opened. Stores the place of a refusal.
fn not_opened(refusal: NotOpened, place: &mut u64) -> Answer
    ensures done { result ≢ answers.Done }
    ensures covered { result ≢ answers.Unsafe }
    ensures narrow { result ≢ answers.TooWide }
    ensures refused { result ≡ answers.Refused → IsRefusalAt refusal place.new }
    ensures starved { refusal ≡ refusals.NoMemory → result ≡ answers.NoMemory }
    ensures told { result ≡ tells_not_opened refusal }
    ensures stays { result ≢ answers.Refused → place.new ≡ place.old }
{
    match refusal {
        NotOpened::NoEnvelope(refusal) | NotOpened::NoManifest(refusal) => {
            *place = refusal.place;
            Answer::Refused
        }
        NotOpened::TooLong(_) => Answer::TooLong,
        NotOpened::NoMemory => Answer::NoMemory,
    }
}

// Why the members are not taken. Stores the place of a refusal.
fn not_taken(fault: MemberFault, place: &mut u64) -> Answer
    ensures done { result ≢ answers.Done }
    ensures covered { result ≢ answers.Unsafe }
    ensures narrow { result ≢ answers.TooWide }
    ensures refused { result ≡ answers.Refused → IsMemberRefusalAt fault place.new }
    ensures starved { fault ≡ faults.NoMemory → result ≡ answers.NoMemory }
    ensures told { result ≡ tells_not_taken fault }
    ensures stays { result ≢ answers.Refused → place.new ≡ place.old }
{
    match fault {
        MemberFault::Severed(_) => Answer::Severed,
        MemberFault::Differs { .. } => Answer::Differs,
        MemberFault::Refused(refusal) => {
            *place = refusal.place;
            Answer::Refused
        }
        MemberFault::NoMemory => Answer::NoMemory,
    }
}

// Why the procedures must not be run.
fn not_safe(refusal: &NotSafe) -> Answer
    ensures { result ≡ tells_not_safe refusal.now }
{
    match refusal {
        NotSafe::TooWide { .. } => Answer::TooWide,
        NotSafe::Unsafe { .. } => Answer::Unsafe,
        NotSafe::NoMemory => Answer::NoMemory,
    }
}

// Judges the procedures of an opened envelope.
fn judge_opened(alloc: Global, file: &Opened<'_>, place: &mut u64) -> Answer
    requires few { length file.now.manifest.components < 2 ^ 32 }
    requires places { MembersEndBelow (2 ^ 64) (said_by file.now.envelope) }
    requires manifest { HasManifest (said_by file.now.envelope) file.now.manifest }
    ensures safe { result ≡ answers.Done
        → IsSafeManifest (said_by file.now.envelope) file.now.manifest }
    ensures every_safe { IsSafeManifest (said_by file.now.envelope) file.now.manifest
        → (result ≡ answers.Done) ⊎ (result ≡ answers.NoMemory) }
    ensures not_safe { (result ≡ answers.Unsafe) ⊎ (result ≡ answers.TooWide)
        → (why : NotSafe) × (result ≡ tells_not_safe why)
        × IsNotSafeManifest (said_by file.now.envelope) file.now.manifest why }
    ensures every_refusal { (why : NotSafe)
        → IsNotSafeManifest (said_by file.now.envelope) file.now.manifest why
        → (result ≡ tells_not_safe why) ⊎ (result ≡ answers.NoMemory) }
    ensures refused { result ≡ answers.Refused
        → RefusesMemberAt (said_by file.now.envelope) file.now.manifest place.new }
    ensures answers { IsManifestAnswer (said_by file.now.envelope) file.now.manifest result }
    ensures every_fault { (fault : MemberFault)
        → LacksMembers (said_by file.now.envelope) file.now.manifest fault
        → (result ≡ tells_not_taken fault) ⊎ (result ≡ answers.NoMemory) }
    ensures stays { result ≢ answers.Refused → place.new ≡ place.old }
{
    procedure_laws();
    let members = match members_of(alloc, &file.envelope, &file.manifest) {
        Ok(members) => members,
        Err(fault) => return not_taken(fault, place),
    };
    match judge(alloc, &file.manifest, members) {
        Ok(()) => Answer::Done,
        Err(refusal) => not_safe(&refusal),
    }
}

// Judges a file.
fn judge_file(alloc: Global, bytes: &[u8], place: &mut u64) -> Answer
    ensures safe { result ≡ answers.Done → IsSafeFile bytes.now }
    ensures every_safe { IsSafeFile bytes.now
        → (result ≡ answers.Done) ⊎ (result ≡ answers.NoMemory) }
    ensures not_safe { (result ≡ answers.Unsafe) ⊎ (result ≡ answers.TooWide)
        → (why : NotSafe) × (result ≡ tells_not_safe why) × IsNotSafeFile bytes.now why }
    ensures every_refusal { (why : NotSafe) → IsNotSafeFile bytes.now why
        → (result ≡ tells_not_safe why) ⊎ (result ≡ answers.NoMemory) }
    ensures refused { result ≡ answers.Refused → IsRefusedAt bytes.now place.new }
    ensures answers { IsFileAnswer bytes.now result }
    ensures every_answer { (answer : Answer) → IsRefusedAs bytes.now answer
        → (result ≡ answer) ⊎ (result ≡ answers.NoMemory) }
    ensures stays { result ≢ answers.Refused → place.new ≡ place.old }
{
    admission_laws();
    match open(alloc, bytes, LONGEST_TRIMMED) {
        Ok(file) => judge_opened(alloc, &file, place),
        Err(refusal) => not_opened(refusal, place),
    }
}

/// Judges a file, as the program's `check` does.
///
/// Returns 0 if on each path of both procedures each invoke is covered, and 1 if on some path one is not. Any other
/// number says why there is no verdict: 3 if the grammar refuses the bytes, with the byte offset of the fault in
/// `place`; 11 if memory ran out; 12 if a procedure is too wide to judge; 16 if a severed member is missing, and 17 if
/// it has another digest; and 21 if the trimmed envelope has more than 16,384 bytes (the program's `check` takes
/// 65,536). `place` is written only with 3.
#[unsafe(no_mangle)]
pub extern "C" fn suit_check(alloc: Global, file: &[u8], place: &mut u64) -> i32
    ensures safe { result ≡ code_of answers.Done → IsSafeFile file.now }
    ensures every_safe { IsSafeFile file.now
        → (result ≡ code_of answers.Done) ⊎ (result ≡ code_of answers.NoMemory) }
    ensures not_safe { (result ≡ code_of answers.Unsafe) ⊎ (result ≡ code_of answers.TooWide)
        → (why : NotSafe) × (result ≡ code_of (tells_not_safe why)) × IsNotSafeFile file.now why }
    ensures every_refusal { (why : NotSafe) → IsNotSafeFile file.now why
        → (result ≡ code_of (tells_not_safe why)) ⊎ (result ≡ code_of answers.NoMemory) }
    ensures refused { result ≡ code_of answers.Refused → IsRefusedAt file.now place.new }
    ensures answers { (answer : Answer) × (result ≡ code_of answer) × IsFileAnswer file.now answer }
    ensures every_answer { (answer : Answer) → IsRefusedAs file.now answer
        → (result ≡ code_of answer) ⊎ (result ≡ code_of answers.NoMemory) }
    ensures stays { result ≢ code_of answers.Refused → place.new ≡ place.old }
{
    judge_file(alloc, file, place).code()
}

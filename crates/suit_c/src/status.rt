//! The record of a flash.

ghost use Rattle.std.specs.Prelude.{◌≡◌, ◌≢◌, ◌⊎◌, IfOk};
ghost use Rattle.suit_answers.specs.Answers.{code_of};
ghost use Rattle.suit_c.specs.Recorded.{HasNoRecord, HasRecorded, IsRecordAs, IsRecordedAs};
ghost use Rattle.suit_answers.specs.declared.answer.Answer.TheVariants as answers;

use flash_layout::{FlashFault, MOST_ENTRIES, Record, load_frame};
use flash_view::ViewDisk;
use rollback_record::load_record;
use suit_answers::Answer;

/// The installed manifest.
#[repr(C)]
#[derive(Clone, Copy)]
pub struct SuitRecord {
    /// The manifest's sequence number.
    pub sequence: u64,
    /// The number of this record: 1 for the first, and one more for each record that was committed.
    pub generation: u64,
    /// The length of the envelope in bytes.
    pub length: u64,
    /// The bank that holds the envelope, 0 or 1.
    pub bank: u32,
    /// The length of the manifest's digest in bytes: 32, 48 or 64.
    pub digest_length: u32,
    /// The digest of the manifest, padded with zeros.
    pub digest: [u8; 64],
    /// The slot in use of each component of the layout, 0 or 1. It is 0 after the last component.
    pub active: [u8; MOST_ENTRIES],
}

// Converts a record for a caller in C.
fn record_of(held: Record) -> SuitRecord
    ensures { IsRecordAs held result }
{
    let active = held.active;
    SuitRecord {
        sequence: held.sequence,
        generation: held.generation,
        length: held.length,
        bank: u32::from(held.bank),
        digest_length: held.digest.kind().size() as u32,
        digest: held.digest.padded(),
        active,
    }
}

// Reads the record of a flash, by the frame that the flash tells.
fn recorded(flash: &[u8]) -> Result<Option<Record>, FlashFault>
    ensures { IfOk result (HasRecorded flash.now) }
{
    let mut disk = ViewDisk::new(flash);
    match load_frame(&mut disk)? {
        Some(frame) => load_record(&mut disk, frame),
        None => Ok(None),
    }
}

/// Reads the record of a flash of either layout version.
///
/// Returns 0, 15 if the flash has no record, and 8 if it failed. `out` is left as it was unless 0 is returned.
#[unsafe(no_mangle)]
pub extern "C" fn suit_status(flash: &[u8], out: &mut SuitRecord) -> i32
    ensures answers { (result ≡ code_of answers.Done) ⊎ (result ≡ code_of answers.FlashFault)
        ⊎ (result ≡ code_of answers.NothingInstalled) }
    ensures recorded { result ≡ code_of answers.Done → IsRecordedAs flash.now out.new }
    ensures none { result ≡ code_of answers.NothingInstalled → HasNoRecord flash.now }
    ensures stays { result ≢ code_of answers.Done → out.new ≡ out.old }
{
    match recorded(flash) {
        Ok(Some(record)) => {
            *out = record_of(record);
            Answer::Done.code()
        }
        Ok(None) => Answer::NothingInstalled.code(),
        Err(FlashFault) => Answer::FlashFault.code(),
    }
}

//! Laws of `run update`, `run boot` and `run migrate` where nothing is missing. The function does nothing; its contract
//! has the laws.

ghost use Rattle.completeness.specs.CompletenessLaws.{CompletenessLaws};

use flash_layout::config_laws;
use invoke_proc::boot_laws;
use rollback_record::record_laws;
use suit_cli::{migrate_laws, soundness_laws, update_laws};
use suit_envelope::envelope_laws;
use suit_manifest::{manifest_laws, members_laws};

/// Does nothing. Its contract has the laws of a host, a flash and a launcher that tell what they hold. Where the file
/// is accepted, may be recorded, and its procedure can be played to its end, and none of them counts a fault, `run
/// update` installs it with status 0, or memory ran out, and the flash reads as before. Where what is recorded on a
/// sound flash can be played to its end, `run boot` does that, with the launches of the play, or memory ran out, and
/// nothing was launched. Where the flash has layout version 1 and room for the base, `run migrate` gives it version 2, or memory
/// ran out, and the flash reads as before. Each ends with status 0 only then.
pub fn completeness_laws()
    ensures { CompletenessLaws }
{
    config_laws();
    record_laws();
    boot_laws();
    update_laws();
    migrate_laws();
    soundness_laws();
    envelope_laws();
    manifest_laws();
    members_laws();
}

//! Laws of sound flashes.

ghost use Rattle.rollback_record.specs.InstalledLaws.{InstalledLaw};
ghost use Rattle.rollback_record.specs.SoundLaws.{SoundLaws};

use flash_layout::config_laws;
use suit_envelope::envelope_laws;
use suit_manifest::manifest_laws;

/// Does nothing. Its contract has the laws: formatting and committing leave a sound flash, which follows the one
/// before.
pub fn sound_laws()
    ensures { SoundLaws }
{
    config_laws();
}

/// Does nothing. Its contract has the law: the bank of a sound flash is read as the envelope and the manifest that were
/// installed.
pub fn installed_laws()
    ensures { InstalledLaw }
{
    envelope_laws();
    manifest_laws();
}

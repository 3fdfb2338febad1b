//! Laws of a migration.

ghost use Rattle.rollback_record.specs.MigrationLaws.{MigrationLaws};

use flash_layout::config_laws;

/// Does nothing. Its contract has the laws: an image that holds the same as a sound one is sound, and follows it.
pub fn migration_laws()
    ensures { MigrationLaws }
{
    config_laws();
}

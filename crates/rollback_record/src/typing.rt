//! Bounds of a record's fields that follow from their types.

ghost use Rattle.rollback_record.specs.RecordPage.{IsTypedRecord};

use flash_layout::{Record, in_range, sized};

/// Does nothing. Its contract says that the fields have the lengths and ranges of their types.
pub(crate) fn typed(installed: &Record)
    ensures { IsTypedRecord installed.now }
{
    in_range(installed.generation);
    in_range(installed.sequence);
    in_range(installed.length);
    let _ = installed.digest.bytes();
    sized(&installed.active);
}

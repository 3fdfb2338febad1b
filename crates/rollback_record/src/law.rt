//! Laws of record pages.

ghost use Rattle.rollback_record.specs.RecordLaws.{OneAnswer, OneRecord, RecordLengths, SomeAnswer};
ghost use Rattle.rollback_record.specs.RecordPlaces.{RecordPlaces};

/// Does nothing. Its contract has the laws: a page holds at most one record, with its fields at their places, and has
/// the length that the version of the layout says; and the head of an image has just one record, or none.
pub fn record_laws()
    ensures page { OneRecord }
    ensures places { RecordPlaces }
    ensures lengths { RecordLengths }
    ensures answer { OneAnswer }
    ensures some { SomeAnswer }
{}

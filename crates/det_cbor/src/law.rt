//! Laws that hold of all bytes, whichever function reads them.

ghost use Rattle.det_cbor.specs.ItemSplitting.{ItemSplitting};
ghost use Rattle.det_cbor.specs.OneReading.{OneReading};

/// Does nothing. Its contract is the law of reading: any bytes begin with exactly one item or have
/// exactly one first fault, and never both.
pub fn reading_laws()
    ensures { OneReading }
{}

/// Does nothing. Its contract is the law of skipping: what is split off the front is the spelling
/// of one item, and where the bytes begin with such a spelling, exactly that is split off.
pub fn splitting_laws()
    ensures { ItemSplitting }
{}

//! Laws of what the bytes in a record's bank start.

ghost use Rattle.invoke_proc.specs.BootLaws.{BootLaws};

use admission::admission_laws;

/// Does nothing. Its contract has the laws: the bytes of a bank start one manifest, or none for one reason, and an
/// installed envelope is started.
pub fn boot_laws()
    ensures { BootLaws }
{
    admission_laws();
}

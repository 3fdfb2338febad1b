//! The law of the moments of an update.

ghost use Rattle.update_proc.specs.MomentLaws.{EachMoment};

/// Does nothing. Its contract is the law: what the slots hold while a procedure runs, while a bank is written and while
/// the record is committed.
pub fn moment_laws()
    ensures { EachMoment }
{}

//! Laws of procedures that go on after a power loss.

ghost use Rattle.path_model.specs.KeepingPlays.{KeepingLaws};
ghost use Rattle.path_model.specs.RecalledSafety.{RecalledSafety};
ghost use Rattle.path_model.specs.ResumeLaws.{ResumeLaws};

/// Does nothing. Its contract has the laws. A procedure without an invoke, whose play ends without a failed directive,
/// may lose its power in any free step, and any number of times. If it is then run again with the outcomes of its free
/// steps so far, on what the loss left, it comes to the events, the ending and the contents of the play without a loss.
/// Recalled steps touch no content. The same holds of each command, wherever it is.
pub fn resume_laws()
    ensures { ResumeLaws }
{}

/// Does nothing. Its contract has the laws of faults in a recalled play. A fault comes in a free step that is done on
/// the device, or in the keeping of its outcome, and what the play told before it is a path of the procedure. If there
/// is nothing to recall, and keeping does not fail, the play is that on the device, and so are its faults.
pub fn keeping_laws()
    ensures { KeepingLaws }
{}

/// Does nothing. Its contract has the laws of what a recalled play launches. A recalled step touches no content, so
/// that a recalled match says nothing about the contents from which the play goes on. If each component whose recalled
/// match stands has a content of that digest and size, apart from one that the next free step writes, then each launch
/// of a safe procedure has the digest that was in force, and the size if one was, with or without a fault. If there is
/// nothing to recall, nothing is asked of the contents.
pub fn recalled_safety_laws()
    ensures { RecalledSafety }
{}

//! Laws of plays. Each call here does nothing: its contract is a law.

ghost use Rattle.path_model.specs.DeviceLaws.{ConditionRules, WriteRules, FetchRules, CopyRules, SwapRules, InvokeRule, PayloadRules, FaultRule};
ghost use Rattle.path_model.specs.PlayLaws.{PlayRuns, FaultedIsPath, FaultedAsksFirst, FaultedLaunchesFirst, SafeLaunches, FaultedSafeLaunches, PlayEnds, FaultedEnds};

/// What a play on the contents of a device comes to. It is a run of its procedure and ends by itself. If a fault cuts
/// it short, its events are a path, it ends by the fault, and its launches and the names of files that it asked for are
/// the first ones of the whole play. With or without a fault, each launch of a safe procedure has the digest that was
/// in force, and the size if one was.
pub fn play_laws()
    ensures runs { PlayRuns }
    ensures faulted { FaultedIsPath }
    ensures ends { PlayEnds }
    ensures faulted_ends { FaultedEnds }
    ensures launches { FaultedLaunchesFirst }
    ensures asks { FaultedAsksFirst }
    ensures safe { SafeLaunches }
    ensures faulted_safe { FaultedSafeLaunches }
{}

/// Conditions and directives on the contents of a device (sections 8.4.9 and 8.4.10): when an image match and a check
/// of the content pass, when a directive fails and why, what it leaves, and what a fault of the outside may leave.
pub fn device_laws()
    ensures conditions { ConditionRules }
    ensures writes { WriteRules }
    ensures fetches { FetchRules }
    ensures copies { CopyRules }
    ensures swaps { SwapRules }
    ensures invokes { InvokeRule }
    ensures payloads { PayloadRules }
    ensures faults { FaultRule }
{}

//! Laws of runs and paths. Each call here does nothing: its contract is a law.

ghost use Rattle.path_model.specs.ParameterLaws.{StaysWhole, StartsEmpty, OverrideReplaces, OverrideKeeps, IsCanonical};
ghost use Rattle.path_model.specs.CommandLaws.{ConditionsEnd, AbortFails, ConditionsNeed, IdentityDecides, IdentityFollowed, IdentityNeeded, MatchIsFree, ContentIsFree, DirectivesWrite, DirectivesNeed, InvokesTell};
ghost use Rattle.path_model.specs.SelectionLaws.{Selections, IndexSelects, SelectionKept, OneSelected, NoneSelected, MoreSelected};
ghost use Rattle.path_model.specs.RunLaws.{OverridesNothing, OverridesStep, SequenceRules, RunSequenceRules, BranchesRules, LastBranchRules};
ghost use Rattle.path_model.specs.ProcedureLaws.{PlanRuns, PathRules};
ghost use Rattle.path_model.specs.PathLaws.{InnerGoesBack, PathsBegin, IdentitiesBounded};
ghost use Rattle.path_model.specs.EventBounds.{CountsEvents, PathsBounded};
ghost use Rattle.path_model.specs.OneRun.{OneRun};
ghost use Rattle.path_model.specs.TwoComponents.{TwoComponentsRun, TwoComponentsUnsafe};
ghost use Rattle.path_model.specs.CoverLaws.{NothingMatched, MatchStands, WriteEnds, OthersLeave, InvokeCovered, AbsentUncovered, MatchByIndices, CoveredByIndices, AllAreCovered, CoveredByStanding, EndsAtFirst, FirstIsOne, SameFollows, PartsCovered, SafetyIs, BadPathIs, BadPathRefutes};

/// The parameters in force (draft-ietf-suit-manifest-25, section 8.4.8). None are at first. An override sets those that
/// it gives, for its component and their keys alone. Parameters that put the same in force are equal.
pub fn overriding_laws()
    ensures whole { StaysWhole }
    ensures empty { StartsEmpty }
    ensures replaces { OverrideReplaces }
    ensures keeps { OverrideKeeps }
    ensures canonical { IsCanonical }
    ensures nothing { OverridesNothing }
    ensures steps { OverridesStep }
{}

/// How a condition ends (section 8.4.9), in these ways and no others. The identity decides a condition on it. A
/// condition on the content may pass or fail if its parameter is in force. Without its parameter each condition fails,
/// and abort always fails.
pub fn condition_laws()
    ensures ends { ConditionsEnd }
    ensures needs { ConditionsNeed }
    ensures abort { AbortFails }
    ensures decides { IdentityDecides }
    ensures follows { IdentityFollowed }
    ensures needed { IdentityNeeded }
    ensures matches { MatchIsFree }
    ensures content { ContentIsFree }
{}

/// How a directive that acts on a content ends (section 8.4.10), and which events it has.
pub fn directive_laws()
    ensures writes { DirectivesWrite }
    ensures needs { DirectivesNeed }
    ensures invokes { InvokesTell }
{}

/// Which components are selected (section 6.5), and what that means for a command: it is done at the only one that is
/// selected, or at the first one and then at the others.
pub fn selection_laws()
    ensures selections { Selections }
    ensures index { IndexSelects }
    ensures kept { SelectionKept }
    ensures one { OneSelected }
    ensures none { NoneSelected }
    ensures more { MoreSelected }
{}

/// Commands of a sequence are done in order, and the first that fails ends the sequence (section 6.4).
pub fn sequence_laws()
    ensures { SequenceRules }
{}

/// How try each and run sequence end, by how their inner sequences end, and in no other way. After them, the selection
/// and soft failure are as before.
pub fn inner_sequence_laws()
    ensures run { RunSequenceRules }
    ensures branches { BranchesRules }
    ensures last { LastBranchRules }
    ensures back { InnerGoesBack }
{}

/// A procedure runs the shared sequence before each of its three members (section 6.3). A path is what a run of it
/// begins with, so that the beginning of a path is a path.
pub fn procedure_laws()
    ensures runs { PlanRuns }
    ensures paths { PathRules }
    ensures begin { PathsBegin }
{}

/// A path has at most three times as many events besides `Set` as the work of the procedure. They are counted one by
/// one.
pub fn event_bound_laws()
    ensures counted { CountsEvents }
    ensures bounded { PathsBounded }
{}

/// A match stands until its component is written. An invoke is covered if the match of its component under the digest
/// and size in force stands. The same is said by the indices of events.
pub fn cover_laws()
    ensures first { NothingMatched }
    ensures stands { MatchStands }
    ensures ends { WriteEnds }
    ensures leaves { OthersLeave }
    ensures covered { InvokeCovered }
    ensures absent { AbsentUncovered }
    ensures indices { MatchByIndices }
    ensures at_index { CoveredByIndices }
    ensures all { AllAreCovered }
    ensures standing { CoveredByStanding }
{}

/// Which events are covered, in two parts, and after other events with the same matches standing.
pub fn following_laws()
    ensures parts { PartsCovered }
    ensures same { SameFollows }
{}

/// When a procedure is safe, and which paths show that it is not.
pub fn safety_laws()
    ensures safe { SafetyIs }
    ensures last { EndsAtFirst }
    ensures first { FirstIsOne }
    ensures bad { BadPathIs }
    ensures refutes { BadPathRefutes }
{}

/// For one list of identities, and one outcome for each free step, there is one run.
pub fn one_run_laws()
    ensures { OneRun }
{}

/// All runs of one procedure of two components. Its shared sequence selects both, and it matches one and invokes the
/// other, so that it is not safe.
pub fn example_laws()
    ensures runs { TwoComponentsRun }
    ensures not_safe { TwoComponentsUnsafe }
{}

/// The identities for which a procedure is judged: all lists with one identity for each component, with identifiers of
/// sixteen bytes or none, and slots of 64 bits.
pub fn identity_laws()
    ensures { IdentitiesBounded }
{}

//! Laws of runs: a sound system is safe, and what is true of each state of its runs.
//! Each is the contract of a function with nothing to do: a caller calls it for its fact.
#![tactic(auto)]

ghost use Rattle.cb_safety_laws.specs.Causes.{ScansAreExact, OffersCanAct, ScansDecide};
ghost use Rattle.cb_safety_laws.specs.Laws.{SoundIsSafe, FitBegins, FitIsKept, GoodBegins, GoodIsKept, RunsAreGood, EachEntryIsRight, RunsGrow, RunsAreCut, EntriesKeepOthers, MereRunIsSafe};
ghost use Rattle.cb_safety_laws.specs.Steps.{PlacedIsFine, OfferedIsFine, OfferedIsReady, OfferedCallsRun, BitsFit, BranchesAreFew, ControlsResolve, IsGoodAtFirst, StaysGood};

/// A sound system is safe, whatever its controllers do and in whatever order.
pub fn sound_is_safe()
    ensures { SoundIsSafe }
{}

/// What holds of each state of a run holds at the beginning.
pub fn fit_begins()
    ensures { FitBegins }
{}

/// Each entry keeps it.
pub fn fit_is_kept()
    ensures { FitIsKept }
{}

/// A run begins well.
pub fn good_begins()
    ensures { GoodBegins }
{}

/// Each entry leads on well.
pub fn good_is_kept()
    ensures { GoodIsKept }
{}

/// Wherever a run leads, it leads well.
pub fn runs_are_good()
    ensures { RunsAreGood }
{}

/// In a run of a sound system each entry is right where it stands.
pub fn each_entry_is_right()
    ensures { EachEntryIsRight }
{}

/// A run and one lawful entry more are a run.
pub fn runs_grow()
    ensures { RunsGrow }
{}

/// A run may be cut anywhere.
pub fn runs_are_cut()
    ensures { RunsAreCut }
{}

/// A call changes the variables of its controller's machines alone, and no other entry changes a variable.
pub fn entries_keep_others()
    ensures { EntriesKeepOthers }
{}

/// A run that is merely known to be there shows the invariants.
pub fn mere_run_is_safe()
    ensures { MereRunIsSafe }
{}

/// Each control is of a controller, and fine.
pub fn placed_is_fine()
    ensures { PlacedIsFine }
{}

/// Each branch that is offered is fine.
pub fn offered_is_fine()
    ensures { OfferedIsFine }
{}

/// Each call that is offered may be made: its precondition holds, and its body is live.
pub fn offered_is_ready()
    ensures { OfferedIsReady }
{}

/// And its body cannot be without a run.
pub fn offered_calls_run()
    ensures { OfferedCallsRun }
{}

/// A number of 64 bits tells the sides that a resolving takes.
pub fn bits_fit()
    ensures { BitsFit }
{}

/// A number of 32 bits tells each branch that a resolving offers.
pub fn branches_are_few()
    ensures { BranchesAreFew }
{}

/// No process at which a controller is can fail to be resolved.
pub fn controls_resolve()
    ensures { ControlsResolve }
{}

/// A run is good at first, without a word on the reasons.
pub fn is_good_at_first()
    ensures { IsGoodAtFirst }
{}

/// And each entry leaves it good.
pub fn stays_good()
    ensures { StaysGood }
{}

/// A scan of what is offered that finds nothing tells that nothing can happen.
pub fn scans_are_exact()
    ensures { ScansAreExact }
{}

/// Where a call is offered, or both sides of a channel meet, there is something to do.
pub fn offers_can_act()
    ensures { OffersCanAct }
{}

/// In a good state a scan of what is offered decides whether anything can happen.
pub fn scans_decide()
    ensures { ScansDecide }
{}

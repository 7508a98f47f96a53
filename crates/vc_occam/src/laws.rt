//! Laws of running processes. A law is a function that does nothing, whose contract is the law.
ghost use Rattle.vc_occam.specs.Completeness.{StepsMakeTraces, TracesAreMadeBySteps};
ghost use Rattle.vc_occam.specs.Exchanges.{ExchangesAreMeetings};
ghost use Rattle.vc_occam.specs.InUse.{LawfulAtFirst, StepsKeepUse, DoingKeepsUse, DoingIsTraced};
ghost use Rattle.vc_occam.specs.Laws.{SitesAreOwnAtFirst, StepsKeepSites, DoingKeepsSites, ListedMovesCanBeMade, WaitingAfter};
ghost use Rattle.vc_occam.specs.Remains.{StepsAreTraces};

/// Where parts side by side keep their variables apart, what a step of one site makes, followed by any trace of what remains, is a
/// trace of what remained before.
pub fn steps_are_traces()
    ensures { StepsAreTraces }
{}

/// What a process that uses its channels and variables lawfully may communicate is exactly what its steps make. Each of its traces is
/// made by steps, and where the trace has ended nothing remains and the variables hold what it leaves. What steps make is a trace,
/// which has ended where nothing remains and is cut off where something does.
pub fn traces_are_made_by_steps()
    ensures made { TracesAreMadeBySteps }
    ensures no_others { StepsMakeTraces }
{}

/// Each trace of a lawful process whose channels are all inside its node, where each output is directly followed by the input that
/// gets its message and by its own end, is made by moves that are listed: meetings, stops and steps without a communication.
pub fn exchanges_are_meetings()
    ensures { ExchangesAreMeetings }
{}

/// A process that uses its channels and variables lawfully does so at first and after whatever it does. So what it does, followed
/// by any trace of what remains, is a trace of what remained before.
pub fn lawful_use_is_kept()
    ensures at_first { LawfulAtFirst }
    ensures steps { StepsKeepUse }
    ensures doing { DoingKeepsUse }
    ensures traced { DoingIsTraced }
{}

/// Parts side by side have no site in common: at first, and after whatever the process does.
pub fn sites_are_own()
    ensures at_first { SitesAreOwnAtFirst }
    ensures steps { StepsKeepSites }
    ensures doing { DoingKeepsSites }
{}

/// Each move that is listed can be made, whatever answer it gets that fits it, where parts side by side have no site in
/// common.
pub fn listed_moves_can_be_made()
    ensures { ListedMovesCanBeMade }
{}

/// An output that begins, and an input or guard without its message, waits; one that is finished or has its message waits no
/// more; all else waits as before.
pub fn waiting_after()
    ensures { WaitingAfter }
{}

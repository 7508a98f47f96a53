//! Laws of networks. A law is a function that does nothing, whose contract is the law.
ghost use Rattle.vc_core.specs.Scheduler.{EventsLeadOn};
ghost use Rattle.vc_core.specs.Still.{OnlyProcessesHold, EndsWithoutMoves};

/// What a scheduler of one's own rests on: events that are made one after another, from the opening state on, are a list that leads to
/// the network's state. Whatever was chosen, the headline holds there, and what the nodes communicated has a linearization. The headline
/// holds in the words of the definitions too, with the list that the steps of the processes make.
pub fn events_lead_on()
    ensures { EventsLeadOn }
{}

/// In a network whose dependencies have no cycle, wherever a run has come: where no event can happen but moves of processes, every
/// packet is held at its receiver, and the packet of each unfinished output is held where no input on its channel has begun. So a
/// network that is quiet is so because of its processes alone.
#[tactic(auto, using(crate::proofs::Still::only_processes_hold))]
pub fn only_processes_hold_it_up()
    ensures { OnlyProcessesHold }
{}

/// In a network whose dependencies have no cycle, wherever a run has come, the number of events that can follow without a move of a
/// process has a bound. So whichever of them happen, the network comes to where only processes can go on, and
/// `only_processes_hold_it_up` says where its packets are then.
#[tactic(auto, using(crate::proofs::Descent::ends_without_moves))]
pub fn a_run_without_processes_ends()
    ensures { EndsWithoutMoves }
{}

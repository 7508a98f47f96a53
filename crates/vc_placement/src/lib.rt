//! Placement is invisible: whatever the network of an accepted plan did, one transputer that runs the same processes side by side, with
//! every channel inside it, can do, message for message, and its network runs it. Definitions and laws.
//!
//! What the nodes communicated is a history in the sense of Herlihy and Wing (1990), whose objects are channels. A channel on a wire
//! holds an output until it is taken and finished. A linearization of the history lets each message be output, input and finished at
//! one moment, that at which it is got (`specs/Linearization`). The proof rewrites the history as Mazurkiewicz's traces do, by
//! exchanging neighbours that are independent: an output moves forward to its input, and its end moves back to it.
#![tactic(auto)]

ghost use Rattle.vc_placement.specs.Fits.{OneNodeIsAccepted, OnlySizesRefuseIt};
ghost use Rattle.vc_placement.specs.Linearization.{EveryHistoryLinearizes};
ghost use Rattle.vc_placement.specs.Nesting.{GroupingChangesNothing, NestingChangesNothing};
ghost use Rattle.vc_placement.specs.OneNode.{OneNodeCanDoIt, OneNodeRunsIt};
ghost use Rattle.vc_placement.specs.Parallel.{AllIsOneTrace};
ghost use Rattle.vc_placement.specs.Placement.{PlacementIsInvisible};

/// What processes did over channels that hold an output until it is taken has a linearization: each message passes at one moment, and
/// on each channel the same messages are taken.
pub fn every_history_linearizes()
    ensures { EveryHistoryLinearizes }
{}

/// Where each message passes at one moment, what all processes do is a trace of one process that runs them side by side.
pub fn all_is_one_trace()
    ensures { AllIsOneTrace }
{}

/// After any events of an accepted plan's network, under either waiting rule, what its nodes communicated has a linearization: each
/// node's part is a trace of its process, and each channel has exactly the messages that the network shows as taken. The list of what
/// they communicated follows the events, and what is got in the linearization is got in the list's order.
pub fn placement_is_invisible()
    ensures { PlacementIsInvisible }
{}

/// The plan of one node that runs all processes side by side, each over variables of its own: what the network did, that node can do,
/// message for message, and it has ended where all processes have.
pub fn one_node_can_do_it()
    ensures { OneNodeCanDoIt }
{}

/// Where the plan of one node is accepted, its network runs what the other's did: for each linearization of that there are events, from
/// its opening state on, by which its process makes the linearization's communications in their order. Each channel shows then what was
/// completed on the other network, and the process has ended where all processes have.
pub fn one_node_runs_it()
    ensures { OneNodeRunsIt }
{}

/// The checker accepts the plan of one node exactly where the nodes have at most 64 variables together, where at most 4,095 processes
/// are written in them, and where each nests at most 31 deep: no other test can refuse it.
pub fn one_node_is_accepted()
    ensures { OneNodeIsAccepted }
{}

/// It is refused for nothing else, but for want of memory: for its variables, for a process that nests too deep, or for its processes.
pub fn only_sizes_refuse_it()
    ensures { OnlySizesRefuseIt }
{}

/// A PAR inside a PAR makes exactly what its parts make beside the others, and has ended where
/// they have. So of two groupings of one list of processes each makes what the other makes.
pub fn nesting_changes_nothing()
    ensures nested { NestingChangesNothing }
    ensures grouped { GroupingChangesNothing }
{}

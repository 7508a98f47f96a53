//! The converse of `vc_placement`: on a free network, one whose ports have ranks, placement is invisible both ways. Whatever processes
//! may do together, as on one transputer, the network does, and so whatever the plan of one node does. Definitions and laws.
//!
//! The network delivers by itself: as long as a token can move, one does, and it comes to an end. So an exchange goes through wherever
//! both processes can make it. An output is offered and its first piece delivered. There the input or guard takes it, and the
//! network delivers the rest and the acknowledges. A trace of the one node is split into its parts' traces, and these have a
//! linearization (`every_history_linearizes`), which the network does exchange by exchange.
#![tactic(auto)]

ghost use Rattle.vc_free.specs.Converse.{NetworkRunsIt};
ghost use Rattle.vc_free.specs.Delivery.{FreeNetworksDeliver};
ghost use Rattle.vc_free.specs.NeverStuck.{
  FreePlacementsNeverStop,
  ListsAreSchedules,
  NeverStuckAnywhere,
  ProgramAndListsAgree,
  QuietNetworksAreOutcomes,
  SchedulesAreLists,
};
ghost use Rattle.vc_free.specs.Placements.{FreePlacementsDoTheSame};
ghost use Rattle.vc_free.specs.Rest.{QuietNetworksAreQuiet};
ghost use Rattle.vc_free.specs.Together.{FreeNetworksDoAll};

/// Wherever an accepted plan's network has come, under either waiting rule, and if its ports have ranks: there are events without moves
/// of processes, after which nothing but processes can go on. Then no way carries a token. Each message is taken and finished if an
/// input of it has begun, and every other packet is held at its receiver, where no input has begun.
pub fn a_free_network_delivers()
    ensures { FreeNetworksDeliver }
{}

/// Whatever the processes of an accepted plan may do together, as on one transputer, its network does in the same order under either
/// waiting rule, if its ports have ranks. There are events from its opening state on, to a state in which each channel shows what was
/// done on it and each process has ended if its trace has. For each prefix of what the processes do, some prefix of the events leads to
/// a state in which each channel shows that prefix.
pub fn a_free_network_does_all()
    ensures { FreeNetworksDoAll }
{}

/// The converse of `one_node_runs_it` (vc_placement): whatever the plan of one node does, where it is accepted too, the plan's network
/// runs in the same order, if its ports have ranks: there are events from its opening state on, by which messages are got and channels
/// stopped in the order of the one node's events, to a state in which each channel shows the same, and all processes have ended if the
/// one node's process has. So on a free network placement is invisible both ways.
pub fn the_network_runs_it()
    ensures { NetworkRunsIt }
{}

/// Of two placements of one program, with other wires, switches, labels, homes of channels and waiting rules: what the network of the
/// one did, that of the other runs, in the order of a linearization of it, if its ports have ranks. Each channel shows what was
/// completed, and all processes have ended if all had.
pub fn free_placements_do_the_same()
    ensures { FreePlacementsDoTheSame }
{}

/// Where no event can happen on an accepted plan's network, under either waiting rule, if its ports have ranks, its processes stand still
/// side by side as well: what the network did has a linearization, by whose steps each process comes to where it is on the network,
/// but for outputs that have begun and inputs that wait. There no site can go on by itself, and no two can communicate but on a channel
/// that is stopped. So a free network is stuck only where one transputer could be.
pub fn a_quiet_free_network_is_quiet()
    ensures { QuietNetworksAreQuiet }
{}

/// A program that cannot get stuck, its processes side by side on one transputer, gets stuck on no free placement. Where its processes
/// cannot come to rest unless all have ended, and no event can happen any more on the network of an accepted placement whose ports have
/// ranks, all processes have ended there.
pub fn never_stuck_anywhere()
    ensures { NeverStuckAnywhere }
{}

/// What the processes of an accepted plan come to by a list of communications, each message at one moment, a schedule of its program comes
/// to by its moves (`vc_program`): to the same states, with the same channels stopped and the same messages passed.
pub fn lists_are_schedules()
    ensures { ListsAreSchedules }
{}

/// What a schedule of the program of an accepted plan leads to, its processes come to by a list of communications, each message at one
/// moment. So schedules and lists of communications say the same of a program.
pub fn schedules_are_lists()
    ensures { SchedulesAreLists }
{}

/// The program of an accepted plan is never stuck by lists of communications exactly if no schedule of its moves gets stuck.
pub fn program_and_lists_agree()
    ensures { ProgramAndListsAgree }
{}

/// A program of which no schedule gets stuck stops on no free placement. If no schedule of the program of an accepted plan gets stuck, as
/// an exploration of all of them decides, then of the network of an accepted placement whose ports have ranks, under either waiting rule and
/// wherever a run has come: when no event can happen, all processes have ended.
pub fn free_placements_never_stop()
    ensures { FreePlacementsNeverStop }
{}

/// Where no event can happen any more on an accepted plan's network, under either waiting rule, if its ports have ranks, a schedule of its
/// program leads to a state in which no move can be made: the messages that passed by it are those that are taken on the network, and
/// the same processes have ended. So whatever the order of its events, a free network comes to rest in an outcome of its program.
pub fn a_quiet_network_is_an_outcome()
    ensures { QuietNetworksAreOutcomes }
{}

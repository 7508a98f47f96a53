//! The whole network over tokens: nodes with processes and switches, joined by ways. Definitions and laws.
//!
//! A network of actors is joined by one-way ways that keep the order of their items (`specs/Actors`). What an actor does by itself is a
//! local run (`specs/LocalRun`), and the merge of what all did by themselves is a run of the network (`specs/Merge`). These laws are
//! lemmas over any actors, acts and items, since a clause cannot range over a type.
//!
//! The laws of this file are of processes that are numbered by their states, with steps that a test decides; `vc_accepted` has them of
//! processes of occam.
#![tactic(auto)]

ghost use Rattle.std.specs.Prelude.{◌≡◌, ℕ, List, [], ◌∷◌};
ghost use Rattle.vc_network.specs.Actors.{Network};
ghost use Rattle.vc_network.specs.LocalRun.{Stamped};
ghost use Rattle.vc_network.specs.Merge.{Made, IsMerge};
ghost use Rattle.vc_tokens.specs.Tokens.{Token};
ghost use Rattle.vc_switch.specs.Waiting.{Waiting};
ghost use Rattle.vc_network.specs.NumberedProcesses.{OfNumbered};
ghost use Rattle.vc_network.specs.Plan.{IsAccepted};
ghost use Rattle.vc_network.specs.Network.{Act, Actor, begins, HappenAll};
ghost use Rattle.vc_network.specs.Views.{view};
ghost use Rattle.vc_network.specs.Example.{example, hello, does, begin, exchange};
ghost use Rattle.vc_network.specs.Processes.{by_test};
ghost use Rattle.vc_network.specs.Credit.{CreditHolds, BodiesFit};
ghost use Rattle.vc_network.specs.EnabledEvents.{EventsAreOne};
ghost use Rattle.vc_network.specs.Headers.{MoreHeadersChangeNothing};
ghost use Rattle.vc_network.specs.Headline.{HeadlineHolds};
ghost use Rattle.vc_network.specs.Packets.{EventsAreSteps};
ghost use Rattle.vc_network.specs.Owners.{EachHasOwner, PacketsAreShort};
ghost use Rattle.vc_network.specs.Still.{RunsEnd};
ghost use Rattle.vc_network.specs.Threads.{ThreadsKeepHeadline, ReplaysReach};

/// On an accepted network, after any list of steps, each channel's taken messages are the first of its
/// offered ones, each once, whole and in order; finished outputs are no more than taken messages; after a
/// stop nothing more is taken; and while an output on a virtual link is unfinished exactly one of its packets is
/// in exactly one place: where its mark is. From there on each channel's views are a run of the channel, whatever happens: one event is
/// no step of it, one, or, inside a node, an offer, its input and its end. One list of communications has each process's part and each channel's
/// part, and nobody else's. Nothing is dropped. In store and forward and in wormhole alike.
pub fn first_in_first_out_each_once()
    ensures { OfNumbered HeadlineHolds }
{}

/// On an accepted network, whatever the actors did by themselves, if it fits together on each way, its merge is a run of the network,
/// and the headline holds of it: for every schedule of threads.
pub fn threads_keep_the_headline()
    ensures { OfNumbered ThreadsKeepHeadline }
{}

/// On an accepted network, after any list of steps, no buffer overflows: each token finds the place that was promised to it, and each
/// FCT a credit of at most 8.
pub fn no_buffer_overflows()
    ensures { OfNumbered CreditHolds }
{}

/// On an accepted network, after any list of steps, no link's end keeps more bytes than a packet may have.
pub fn no_packet_grows()
    ensures { OfNumbered BodiesFit }
{}

/// On an accepted network, after any list of steps, its packets are where a run of the packet machine leads. An event more is no step of
/// it, one step, or two, by which a packet enters a switch and is bound at once.
pub fn each_event_is_at_most_two_steps()
    ensures { OfNumbered EventsAreSteps }
{}

/// On an accepted network, after any list of steps, each packet in a queue, on a way or in a switch belongs to a channel.
pub fn each_packet_has_its_channel()
    ensures { OfNumbered EachHasOwner }
{}

/// On an accepted network, after any list of steps, no packet in a queue, on a way or in a switch is longer than the limit.
pub fn no_packet_is_longer()
    ensures { OfNumbered PacketsAreShort }
{}

/// On an accepted network whose ways have ranks, from wherever a list of events leads, the number of events that can follow without a move
/// of a process has a bound. So whichever of them happen, the network comes to where only processes can go on.
pub fn a_run_without_processes_ends()
    ensures { OfNumbered RunsEnd }
{}

/// On an accepted network, where more headers may be on the way than it says, the same lists of events happen, to the same states: no
/// packet needs the room.
pub fn more_headers_change_nothing()
    ensures { OfNumbered MoreHeadersChangeNothing }
{}

/// On an accepted network whose processes are determinate, an event leads from a state to one state only.
pub fn an_event_leads_to_one_state()
    ensures { OfNumbered (λ plan waiting does begin. EventsAreOne plan waiting does) }
{}

/// On an accepted network whose processes are determinate, a replay of the merge of what the threads did is never refused, and ends
/// where the threads ended.
pub fn replays_reach_the_end()
    ensures { OfNumbered ReplaysReach }
{}

/// What the actors did by themselves has one merge only.
pub fn a_merge_is_one()
    ensures { (runs : ℕ → List (Stamped Act)) (acts others : List (Made Act)) →
        IsMerge runs acts → IsMerge runs others → acts ≡ others }
{}

/// Two nodes on one wire are accepted, and a message goes over in tokens and is acknowledged, whichever the waiting rule.
#[tactic(auto, using(crate::proofs::ExampleHolds::accepted, crate::proofs::FirstExchange::exchanged))]
pub fn an_exchange()
    ensures accepted { IsAccepted example }
    ensures runs { (waiting : Waiting) → (s : Network (Actor ℕ) Token) ×
        HappenAll example waiting (by_test does) (begins example begin) exchange s ×
        ((view example s 0).taken ≡ hello ∷ []) × ((view example s 0).finished ≡ 1) }
{}

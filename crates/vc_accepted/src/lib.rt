//! What holds of the network of a plan that the checker accepts. Definitions and laws.
//!
//! The laws of `vc_network` speak of it. What its nodes communicate is one list, in occam's words: each node's part is a trace of its
//! process, and each channel's part is a run of the channel. So no message is invented, and none is taken before it could be sent.
#![tactic(auto)]

ghost use Rattle.std.specs.Prelude.{◌≡◌, ◌↔◌, ℕ, suc, ◌+◌, ◌*◌, ◌<◌, ◌≤◌, Bool, length, take, slice_get, Some, if◌then◌else◌};
ghost use Rattle.std.specs.List.{AllByRecursion};
ghost use Rattle.vc_plan.specs.declared.plan.Plan.{Plan};
ghost use Rattle.vc_plan.specs.declared.port.Wire.{Wire};
ghost use Rattle.vc_plan.specs.declared.channel.Channel.{Channel};
ghost use Rattle.vc_plan.specs.Accepted as plan;
ghost use Rattle.vc_plan.specs.Dependencies as plan_ranks;
ghost use Rattle.vc_machine.specs.Dependencies.{HasRanks};
ghost use Rattle.vc_network.specs.Plan as network;
ghost use Rattle.vc_vcp.specs.Opening.{ends_given, AreDistinct};
ghost use Rattle.vc_accepted.specs.NetworkOf.{network_of};
ghost use Rattle.vc_accepted.specs.NodeEnds.{is_on, first_on, ends_of_node};
ghost use Rattle.vc_accepted.specs.ActorWays.{is_link, way_out, link_port, outgoing, incoming};
ghost use Rattle.vc_accepted.specs.Bounds.{NetworksKeepCredit, NetworksKeepLimits, PacketsHaveOwners, NoPacketIsLonger, PacketsAreMoved};
ghost use Rattle.vc_accepted.specs.Determinate.{DeedsLeadToOneState, LawfulProcessesStaySo};
ghost use Rattle.vc_accepted.specs.OneList.{AllIsTold};
ghost use Rattle.vc_accepted.specs.OutputFirst.{NothingIsGotUnsent};
ghost use Rattle.vc_accepted.specs.Swap.{NothingIsSwapped};
ghost use Rattle.vc_accepted.specs.Threads.{ActsCanBeReplayed};
ghost use Rattle.vc_accepted.specs.Versions.{VersionsRunAlike};

/// The network of an accepted plan is accepted: what the laws say of accepted networks holds of it.
#[tactic(auto, using(crate::proofs::AcceptedNetwork::accepted))]
pub fn accepted_plans_are_accepted()
    ensures { (p : Plan) → plan.IsAccepted p → network.IsAccepted (network_of p) }
{}

/// The ends that a node of an accepted plan is given are its ends in the network. Each has a block and channels of its own,
/// and sends by one of the node's four links.
#[tactic(auto, using(crate::proofs::NodeEnds::given_small))]
pub fn nodes_are_given_their_ends()
    ensures ends { (p : Plan) (n : ℕ) → plan.IsAccepted p →
        ends_given (ends_of_node p n) ≡ network.ends (network_of p) n }
    ensures distinct { (p : Plan) (n : ℕ) → plan.IsAccepted p → AreDistinct (ends_of_node p n) }
    ensures links { (p : Plan) (n : ℕ) → plan.IsAccepted p →
        AllByRecursion (λ e. e.link < 4) (ends_of_node p n) }
{}

/// The way that is found by an actor's link is the one way that goes out there, and its wire's other way is the one that comes in.
#[tactic(auto, using(crate::proofs::WayPorts::ways_few))]
pub fn ways_are_found_by_their_links()
    ensures out { (p : Plan) → plan.IsAccepted p → (actor link w : ℕ) →
        (outgoing p actor link ≡ Some w)
        ↔ network.IsOutOf (network_of p) w (link_port p actor link) }
    ensures into { (p : Plan) → plan.IsAccepted p → (actor link w : ℕ) →
        (incoming p actor link ≡ Some w)
        ↔ network.IsInto (network_of p) w (link_port p actor link) }
    ensures few { (p : Plan) → plan.IsAccepted p → network.ways (network_of p) ≤ 512 }
{}

/// What is found among the first channels, or wires, of an accepted plan is what a table shows in which these were written one
/// after the other: each is written where its own channel or way is sought, and over none before it.
pub fn tables_fill_in_order()
    ensures channels { (p : Plan) → plan.IsAccepted p →
        (k v : ℕ) (from_a : Bool) (x : Channel) → slice_get p.channels k ≡ Some x →
        first_on 0 (take (suc k) p.channels) v from_a
        ≡ (if is_on v from_a x.home then Some k
        else first_on 0 (take k p.channels) v from_a) }
    ensures wires { (p : Plan) → plan.IsAccepted p →
        (actor link k : ℕ) (w : Wire) → slice_get p.wires k ≡ Some w →
        way_out (length p.nodes) actor link 0 (take (suc k) p.wires)
        ≡ (if is_link (length p.nodes) actor link w.two then Some (2 * k + 1)
        else if is_link (length p.nodes) actor link w.one then Some (2 * k)
        else way_out (length p.nodes) actor link 0 (take k p.wires)) }
{}

/// Where the ports of an accepted plan have ranks that rise along each dependency, so have the ways of its network.
#[tactic(auto, using(crate::proofs::Ranks::ranked))]
pub fn ranks_are_given()
    ensures { (p : Plan) → plan.IsAccepted p → plan_ranks.HasRanks p →
        HasRanks (network.net_of (network_of p)) }
{}

/// After any events of an accepted plan's network there is one list of communications, each with the node that makes it. Each
/// node's part is a trace of its process, from the process as the plan has it on: one that has ended where nothing remains of it,
/// and else one that is cut off. Each channel's part is a run of the channel to what it shows. The list follows the events: after each,
/// what was reported so far is such a list, and what the next one reports comes after it. Under both waiting rules.
pub fn one_list_tells_all()
    ensures { AllIsTold }
{}

/// In such a list, the message of whatever an input gets was output on its channel before.
pub fn nothing_is_got_before_it_is_sent()
    ensures { NothingIsGotUnsent }
{}

/// Where two nodes each input before they output, no such list has anything that either got: nobody can show them to have
/// swapped what neither sent.
pub fn nothing_unsent_is_swapped()
    ensures { NothingIsSwapped }
{}

/// A process that uses its channels and variables lawfully, with sites of its own side by side, stays so whatever it does; and what it
/// does leads to one state.
pub fn lawful_processes_are_determinate()
    ensures next { DeedsLeadToOneState }
    ensures kept { LawfulProcessesStaySo }
{}

/// Whatever the actors of an accepted plan did by themselves: where their runs fit on the ways, their acts, by stamp, then actor, are
/// events of the network one after another, and lead to where the actors ended.
pub fn acts_can_be_replayed()
    ensures { ActsCanBeReplayed }
{}

/// Whatever happened on an accepted plan's network, no buffer overflows: each token finds the place that was promised to it, and each
/// FCT a credit of at most 8. And no link's end keeps more bytes than a packet may have.
#[tactic(auto, using(crate::proofs::Bounds::credit_kept, crate::proofs::Bounds::limits_kept))]
pub fn no_buffer_overflows()
    ensures credit { NetworksKeepCredit }
    ensures limits { NetworksKeepLimits }
{}

/// Whatever happened on an accepted plan's network, each packet in a queue, on a way or in a switch belongs to a channel, and is no
/// longer than the headers that may be on its way, of two bytes each, and 32 bytes of data.
#[tactic(auto, using(crate::proofs::Bounds::owners_known, crate::proofs::Bounds::all_short))]
pub fn each_packet_has_its_channel()
    ensures owners { PacketsHaveOwners }
    ensures short { NoPacketIsLonger }
{}

/// Whatever happened on an accepted plan's network, its packets are where a run of the packet machine leads. An event more is no step of
/// it, one step, or two, by which a packet enters a switch and is bound at once.
#[tactic(auto, using(crate::proofs::Bounds::packets_moved))]
pub fn each_event_is_at_most_two_steps()
    ensures { PacketsAreMoved }
{}

/// An accepted plan and the same in version 2 (`as_version_two` of vc_plan) are run alike: the same lists of events happen, to the
/// same states, and each channel shows the same.
#[tactic(auto, using(crate::proofs::Versions::run_alike))]
pub fn versions_run_alike()
    ensures { VersionsRunAlike }
{}

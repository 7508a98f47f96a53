//! The packet machine and the token machine of a network, as definitions and laws.
#![tactic(auto)]

ghost use Rattle.std.specs.Prelude.{◌≡◌, ℕ, List, [], ◌∷◌, ◌++◌, None};
ghost use Rattle.vc_packets.specs.Headers.{spelled};
ghost use Rattle.vc_tokens.specs.Tokens.{Byte};
ghost use Rattle.vc_machine.specs.Atomic.{Homes, StepsAreAtomic, StepsAreLocal};
ghost use Rattle.vc_machine.specs.Owners.{EachHasOwner, OwnersAreOne, PacketsAreShort, PathsReachEnds};
ghost use Rattle.vc_machine.specs.Paths.{Net, IsAccepted};
ghost use Rattle.vc_machine.specs.Machine.{State, Event, Step, Run, start};
ghost use Rattle.vc_machine.specs.Headline.{Headline};
ghost use Rattle.vc_machine.specs.Example.{example, exchange};
ghost use Rattle.vc_machine.specs.Links.{Tokens, Wires, no_tokens};
ghost use Rattle.vc_machine.specs.TokenExample.{back as example_back, piece, first_passes, goes_on};
ghost use Rattle.vc_machine.specs.TokenMachine.{TokenEvent, Route, TokenStep, TokenRun};
ghost use Rattle.vc_switch.specs.Waiting.{Waiting, StoreAndForward, Wormhole};
ghost use Rattle.vc_machine.specs.View.{TokenView, Bindings};
ghost use Rattle.vc_machine.specs.PacketsOfTokens.{seen};
ghost use Rattle.vc_machine.specs.Laws.{Ranges, StepsAreSteps, RunsAreRuns, BuffersHold, RunsAreSound};
ghost use Rattle.vc_machine.specs.TokenHeadline.{TokensKeepHeadline};
ghost use Rattle.vc_machine.specs.Still.{StillIsClear, RunsEnd};

/// The headline over packets: on an accepted network, after any list of steps, each channel's taken messages are the first of its
/// offered ones, each once, whole and in order; finished outputs are no more than taken messages; after a stop nothing more is
/// taken; and while an output is unfinished exactly one of its packets is in exactly one place. Nothing is dropped.
#[tactic(auto, using(crate::proofs::Main::headline))]
pub fn first_in_first_out_over_packets()
    ensures { (net : Net) (es : List Event) (s : State) →
        IsAccepted net →
        Run net start es s →
        Headline net es s }
{}

/// On an accepted network an event leads from a state to one state only.
#[tactic(auto, using(crate::proofs::OneStep::step_same))]
pub fn a_packet_event_leads_to_one_state()
    ensures { (net : Net) (s : State) (e : Event) (t u : State) →
        IsAccepted net →
        Step net s e t →
        Step net s e u →
        t ≡ u }
{}

/// A network with a switch, a random range and a portal is accepted, and a message goes over it and is acknowledged.
#[tactic(auto, using(crate::proofs::ExampleHolds::accepted, crate::proofs::ExampleHolds::exchanged))]
pub fn an_exchange_of_packets()
    ensures accepted { IsAccepted example }
    ensures runs { (s : State) ×
        Run example start exchange s ×
        ((s.chans 0).taken ≡ (104 ∷ 105 ∷ []) ∷ []) ×
        ((s.chans 0).finished ≡ 1) }
{}

/// Tokens stand for one state of the packet machine only.
pub fn tokens_stand_for_one_state()
    ensures { (net : Net) (t : Tokens) (s v : State) →
        TokenView net t s →
        TokenView net t v →
        s ≡ v }
{}

/// The state that tokens stand for, as a function of them.
pub fn the_state_is_seen()
    ensures { (net : Net) (t : Tokens) (s : State) → TokenView net t s → s ≡ seen net t }
{}

/// Where each random range has a value, each step of the token machine from tokens with each output bound to one input is no step, one
/// step, or Enter and then Route of the packet machine, whichever the waiting rule.
pub fn each_token_step_is_at_most_two()
    ensures { (net : Net) (back : ℕ → ℕ) (waiting : Waiting) →
        Ranges net →
        StepsAreSteps net back waiting }
{}

/// Where each random range has a value, each run of the token machine stands for a run of the packet machine, of at most twice its events.
#[tactic(auto, using(crate::proofs::Refinement::runs_are_runs))]
pub fn each_token_run_is_a_run()
    ensures { (net : Net) (back : ℕ → ℕ) (waiting : Waiting) →
        Ranges net →
        RunsAreRuns net back waiting }
{}

/// Where each way is one direction of a wire, no buffer overflows, and no FCT finds a credit above 8.
pub fn buffers_hold()
    ensures { (net : Net) (back : ℕ → ℕ) (waiting : Waiting) →
        Wires net back →
        BuffersHold net back waiting }
{}

/// On an accepted plan no packet grows past the limit, and where there is credit and a token to put, it can be put.
pub fn each_token_run_is_sound()
    ensures { (net : Net) (back : ℕ → ℕ) (waiting : Waiting) → RunsAreSound net back waiting }
{}

/// The headline over tokens, on an accepted network, in store and forward and in wormhole alike.
#[tactic(auto, using(crate::proofs::TokenMain::tokens_keep_headline))]
pub fn first_in_first_out_over_tokens()
    ensures { (net : Net) (back : ℕ → ℕ) (waiting : Waiting) → TokensKeepHeadline net back waiting }
{}

/// On an accepted network an event leads from tokens, with each output bound to one input, to one state only.
#[tactic(auto, using(crate::proofs::OneToken::token_step_same))]
pub fn a_token_event_leads_to_one_state()
    ensures { (net : Net) (back : ℕ → ℕ) (waiting : Waiting) (t : Tokens) (e : TokenEvent)
        (u v : Tokens) →
        IsAccepted net →
        Bindings net t →
        TokenStep net back waiting t e u →
        TokenStep net back waiting t e v →
        u ≡ v }
{}

/// On an accepted network, after any list of steps, each packet in a queue, on a way or in a switch belongs to a channel, and no packet
/// to two. Whatever path its headers let it take from there, whatever is drawn and whichever link of a group it leaves by, the node to
/// which it comes is that channel's end.
#[tactic(auto, using(crate::proofs::Ownership::each_owned, crate::proofs::Ownership::owners_one, crate::proofs::Ownership::paths_reach))]
pub fn each_packet_has_its_channel()
    ensures owner { (net : Net) → EachHasOwner net }
    ensures one { (net : Net) → OwnersAreOne net }
    ensures paths { (net : Net) → PathsReachEnds net }
{}

/// On an accepted network, after any list of steps, no packet in a queue, on a way or in a switch is longer than the headers that may be
/// on its way, of two bytes each, and 32 bytes of data.
#[tactic(auto, using(crate::proofs::Short::packets_short))]
pub fn no_packet_is_longer()
    ensures { (net : Net) → PacketsAreShort net }
{}

/// Where each way is one direction of a wire and each end of a channel sends from its own node, a step is one actor's: it takes one token
/// off a wire to it, or puts one on a wire from it, or neither, and changes no other actor's link ends, queues and halves. The actor can
/// make it wherever its own parts and the token that it takes are the same and each output is bound to one input, and its parts are then
/// the same afterwards.
#[tactic(auto, using(crate::proofs::Atoms::steps_are_atomic, crate::proofs::LinkLocal::steps_are_local))]
pub fn a_step_is_one_actors()
    ensures atomic { (net : Net) (back : ℕ → ℕ) (waiting : Waiting) →
        Wires net back →
        Homes net →
        StepsAreAtomic net back waiting }
    ensures own { (net : Net) (back : ℕ → ℕ) (waiting : Waiting) → StepsAreLocal net back waiting }
{}

/// In the example's network a switch draws a header: of the range of 101 and 102 the word 7 draws 102, which comes to the front as a
/// packet's first byte passes.
#[tactic(auto, using(crate::proofs::FirstBytes::drawn_header))]
pub fn a_header_is_drawn()
    ensures { (waiting : Waiting) →
        (u : Tokens) ×
        TokenRun example example_back waiting no_tokens first_passes u ×
        ((u.receiver 0).got ≡ spelled (102 ∷ []) ++ 0 ∷ []) }
{}

/// In wormhole a packet goes on before its mark: in the example's network a switch puts its first byte while no mark has come, and the
/// packet still is in its sender's queue. In store and forward no packet is bound before its mark has come.
#[tactic(auto, using(crate::proofs::FirstBytes::goes_before_its_mark, crate::proofs::FirstBytes::waits_for_its_mark))]
pub fn a_packet_goes_on_before_its_mark()
    ensures wormhole { (u : Tokens) ×
        TokenRun example example_back Wormhole no_tokens (first_passes ++ goes_on) u ×
        (u.wire 2 ≡ Byte 0 ∷ []) ×
        ((u.receiver 0).mark ≡ None) ×
        ((u.nodes.ways 0).queue ≡ piece ∷ []) }
    ensures store { (net : Net) (back : ℕ → ℕ) (t u : Tokens) (w out : ℕ) →
        TokenStep net back StoreAndForward t (Route w out) u →
        (t.receiver w).mark ≡ None → ⊥ }
{}

/// The network's ways have ranks that rise along each dependency, and a run has come to a state in which no event can happen but moves
/// of processes. Then no packet is in a queue, on a way or in a switch, no way carries a token, and each way has credit. Every packet
/// that is there is held at its receiver. It holds in store and forward and in wormhole alike.
pub fn a_still_network_is_clear()
    ensures { (net : Net) (back : ℕ → ℕ) (waiting : Waiting) → StillIsClear net back waiting }
{}

/// The network's ways have ranks that rise along each dependency. Then from wherever a run has come, so many events can follow that are
/// no moves of processes, and no more, whichever they are and in whatever order. The bound is a function of the state alone. It holds in
/// store and forward and in wormhole alike.
pub fn a_run_without_processes_ends()
    ensures { (net : Net) (back : ℕ → ℕ) (waiting : Waiting) → RunsEnd net back waiting }
{}

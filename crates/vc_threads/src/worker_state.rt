//! An actor at work, with its ends of the rings.
ghost use Rattle.std.specs.Prelude.{◌≡◌, ◌≢◌, ℕ, ◌<◌, ◌≤◌, ◌++◌, ◌⊎◌, true, false, [], ◌∷◌, length, OnErr, IfOk, IfSome, IfErr, IsSome, IsTrue, ◌↔◌};
ghost use Rattle.std.specs.List.{All, AllZip, HoldsAt};
ghost use Rattle.vc_actor.specs.OfPlan.{IsActorOf};
ghost use Rattle.vc_network.specs.Plan.{Plan};
ghost use Rattle.vc_threads.specs.Wires.{InLooked, IsReady};
ghost use Rattle.vc_threads.specs.Private.Works.{TakesFront};
ghost use Rattle.vc_threads.specs.Works.{CanTake, IsGreatest, IsLate};
ghost use Rattle.vc_threads.specs.Private.Least.{TakesLeast};

use crate::act_log::ActLog;
use crate::link::{Ends, In, Stamped};
use crate::outs::Outs;
use crate::run::{ActorRun, Stop};
use crate::stamp::next_stamp;
use rand_core::utils::NextWord;
use rand_pcg::Lcg64Xsh32;
use std::alloc::Global;
use vc_core::{Act, Actor, Turn};

/// The links of an actor, of which a node has four.
const LINKS: u8 = 32;

/// An actor at work.
#[derive(Drop)]
pub(crate) struct WorkerState<L> {
    pub(crate) actor: Actor,
    clock: u64,
    log: L,
    outs: Outs,
    ins: Vec<(u8, In)>,
    words: Lcg64Xsh32,
    idle: u64,
}

// Whether a link's ring has an item.
fn is_ready(end: &mut (u8, In)) -> bool
    ensures looked { InLooked end.old end.new }
    ensures ready { IsTrue result ↔ IsReady end.new }
{
    let (_, consumer) = end;
    !consumer.is_empty()
}

// Whether the actor may take from a link, and its ring has an item.
fn can_take(actor: &Actor, end: &mut (u8, In)) -> bool
    ensures looked { InLooked end.old end.new }
    ensures can { IsTrue result ↔ CanTake actor.now end.new }
{
    is_ready(end) && actor.may_take(end.0)
}

// Whether the actor may take from an end whose link is below this one, and whose ring has an item. No other ring is asked.
fn can_take_below(actor: &Actor, end: &mut (u8, In), link: u8) -> bool
    ensures looked { InLooked end.old end.new }
    ensures below { result ≡ true → (end.new.0 < link) × CanTake actor.now end.new }
    ensures not_below { result ≡ false → CanTake actor.now end.new → link ≤ end.new.0 }
{
    end.0 < link && can_take(actor, end)
}

// The place of the least link from which the actor may take and whose ring has an item.
fn find_in(actor: &Actor, ins: &mut [(u8, In)]) -> Option<usize>
    ensures looked { AllZip InLooked ins.old ins.new }
    ensures can { IfSome result
        (λ k. (k < length ins.new) × HoldsAt (CanTake actor.now) ins.new k) }
    ensures least { TakesLeast actor.now ins.new result }
{
    // two numbers: an option of both would be copied with its padding for each end, and each copy waits for the one before
    let mut place = 0;
    let mut least = LINKS;
    for k in 0..ins.len() {
        if can_take_below(actor, &mut ins[k], least) {
            place = k;
            least = ins[k].0;
        }
    }
    if least < LINKS { Some(place) } else { None }
}

// Whether this was the room when the actor had no step.
fn is_same(rested: Option<u32>, room: u32) -> bool
    ensures { IsTrue result → IsSome rested }
{
    match rested {
        Some(then) => then == room,
        None => false,
    }
}

// Takes the front item. It is popped only once the actor took it.
fn take_front(
    actor: &mut Actor,
    end: &mut (u8, In),
    clock: u64,
    word: u32,
) -> Result<(u64, Act), Stop>
    requires { CanTake actor.old end.old }
    ensures ok { (plan : Plan) (k : ℕ) →
        IsActorOf plan k actor.old →
        IfOk result
        (λ made. TakesFront plan k actor.old clock word end.old made actor.new end.new) }
    ensures err { OnErr result ((actor.new ≡ actor.old) × (end.new ≡ end.old)) }
    ensures link { end.new.0 ≡ end.old.0 }
    ensures why { IfErr result (λ why. (why ≢ Stop.Turns) × (why ≢ Stop.Gate)) }
    ensures full { IfErr result (λ why. why ≡ Stop.Clock → IsGreatest clock ⊎ IsLate end.new) }
{
    let (link, consumer) = end;
    let front = consumer.peek_known();
    let Some(stamp) = next_stamp(clock, Some(front.at)) else {
        return Err(Stop::Clock);
    };
    let Ok(act) = actor.take(*link, &front.item, word) else {
        return Err(Stop::Memory);
    };
    consumer.pop_known();
    Ok((stamp, act))
}

impl<L: ActLog> WorkerState<L> {
    ghost use Rattle.std.specs.Prelude.{◌≡◌, ℕ, ◌<◌, ◌++◌, List, [], ◌∷◌, length, Some, IfOk, IfErr};
    ghost use Rattle.std.specs.List.{All, HoldsAt};
    ghost use Rattle.vc_actor.specs.declared.act.Act.{Act as SpeltAct};
    ghost use Rattle.vc_threads.specs.Runs.{generator};
    ghost use Rattle.vc_threads.specs.Wires.{Distinct, in_links, out_links};
    ghost use Rattle.vc_threads.specs.Private.Least.{TakesLeast};
    ghost use Rattle.vc_threads.specs.Private.Works.{IsRested, SameLinks, StopsFor, TakesTurn, worker_state};
    ghost use Rattle.vc_threads.specs.Works.{CanTake};

    /// An actor that did nothing yet. Its words are those of the generator of this seed and number.
    pub(crate) fn new(alloc: Global, id: u8, actor: Actor, ends: Ends, seed: u32) -> WorkerState<L>
        requires low { All (λ o. o.0 < 32) ends.outs.items }
        ensures actor { result.actor ≡ actor }
        ensures clock { result.clock ≡ 0 }
        ensures log { L.holds result.log id [] }
        ensures outs { result.outs.ends ≡ ends.outs }
        ensures ins { result.ins ≡ ends.ins }
        ensures words { result.words ≡ generator seed id }
    {
        let Ends { outs, ins } = ends;
        WorkerState {
            actor,
            clock: 0,
            log: L::new(alloc, id),
            outs: Outs::new(outs),
            ins,
            words: Lcg64Xsh32::new(u64::from(seed), u64::from(id)),
            idle: 0,
        }
    }

    /// What the worker gives back.
    pub(crate) fn into_run(self, id: u8, stop: Stop) -> ActorRun<L>
        ensures id { result.id ≡ id }
        ensures actor { result.actor ≡ self.actor }
        ensures log { result.log ≡ self.log }
        ensures outs { result.ends.outs ≡ self.outs.ends }
        ensures ins { result.ends.ins ≡ self.ins }
        ensures stop { result.stop ≡ stop }
    {
        let WorkerState {
            actor,
            clock: _,
            log,
            outs,
            ins,
            words: _,
            idle: _,
        } = self;
        ActorRun {
            id,
            actor,
            log,
            ends: Ends {
                outs: outs.into_ends(),
                ins,
            },
            stop,
        }
    }

    /// How many turns one after another were idle until now.
    pub(crate) fn idle(&self) -> u64
        ensures { result ≡ self.now.idle }
    {
        self.idle
    }

    // Records an act, for which the log has room.
    fn note(&mut self, stamp: u64, act: Act)
        requires { L.has_room self.old.log }
        ensures log { (actor : ℕ) (acts : List (ℕ × SpeltAct)) →
            L.holds self.old.log actor acts →
            L.holds self.new.log actor (acts ++ (stamp, act) ∷ []) }
        ensures others { worker_state self.new ≡ record (worker_state self.old) {
          clock = stamp;
          log = self.new.log;
        } }
    {
        self.clock = stamp;
        self.idle = 0;
        self.log.record(stamp, act);
    }

    // Takes the front item of the k-th incoming link.
    fn take_from(&mut self, k: usize) -> Result<Option<u32>, Stop>
        requires links { Distinct (in_links self.old.ins.items) }
        requires within { k < length self.old.ins.items }
        requires can { HoldsAt (CanTake self.old.actor) self.old.ins.items k }
        requires least { TakesLeast self.old.actor self.old.ins.items (Some k) }
        requires room { L.has_room self.old.log }
        ensures turn { IfOk result
            (TakesTurn L.holds (worker_state self.old) (worker_state self.new)) }
        ensures stop { IfErr result
            (StopsFor L.holds (worker_state self.old) (worker_state self.new)) }
        ensures ends { SameLinks (worker_state self.old) (worker_state self.new) }
    {
        let word = self.words.next_word();
        let (stamp, act) = take_front(&mut self.actor, &mut self.ins[k], self.clock, word)?;
        self.note(stamp, act);
        Ok(None)
    }

    // What the actor does where it takes nothing. It is not asked where it had no step with this room before.
    fn make_turn(&mut self, rested: Option<u32>) -> Result<Option<u32>, Stop>
        requires links { Distinct (out_links self.old.outs.ends.items) }
        requires low { All (λ o. o.0 < 32) self.old.outs.ends.items }
        requires room { L.has_room self.old.log }
        requires rests { IsRested self.old.actor rested }
        ensures turn { IfOk result
            (TakesTurn L.holds (worker_state self.old) (worker_state self.new)) }
        ensures stop { IfErr result
            (StopsFor L.holds (worker_state self.old) (worker_state self.new)) }
        ensures ends { SameLinks (worker_state self.old) (worker_state self.new) }
    {
        let Some(stamp) = next_stamp(self.clock, None) else {
            return Err(Stop::Clock);
        };
        let room = self.outs.look();
        if is_same(rested, room) {
            self.idle = self.idle.saturating_add(1);
            return Ok(rested);
        }
        match self.actor.turn(room) {
            Ok(Turn::Idle) => {
                self.idle = self.idle.saturating_add(1);
                Ok(Some(room))
            }
            Ok(Turn::Local(act)) => {
                self.note(stamp, act);
                Ok(None)
            }
            Ok(Turn::Put { link, act, item }) => {
                self.outs.put(link, Stamped { at: stamp, item });
                self.note(stamp, act);
                Ok(None)
            }
            Err(_) => Err(Stop::Memory),
        }
    }

    /// One turn: the take of an item from the least link that may take one and whose ring has one, or else what the actor does. The
    /// answer is the room with which the actor has no step, where that is known, and the next turn is given it.
    pub(crate) fn turn(&mut self, rested: Option<u32>) -> Result<Option<u32>, Stop>
        requires outs { Distinct (out_links self.old.outs.ends.items) }
        requires ins { Distinct (in_links self.old.ins.items) }
        requires low { All (λ o. o.0 < 32) self.old.outs.ends.items }
        requires rests { IsRested self.old.actor rested }
        ensures turn { IfOk result
            (TakesTurn L.holds (worker_state self.old) (worker_state self.new)) }
        ensures stop { IfErr result
            (StopsFor L.holds (worker_state self.old) (worker_state self.new)) }
        ensures ends { SameLinks (worker_state self.old) (worker_state self.new) }
    {
        if self.log.make_room().is_err() {
            return Err(Stop::Memory);
        }
        match find_in(&self.actor, self.ins.as_mut_slice()) {
            Some(k) => self.take_from(k),
            None => self.make_turn(rested),
        }
    }
}

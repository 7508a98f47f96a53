//! A node: its process, and the virtual channel processor that carries its channels.
ghost use Rattle.std.specs.Prelude.{◌≡◌, ◌≢◌, ◌<◌, ◌≤◌, ◌-◌, ◌↔◌, ◌++◌, ℕ, [], length, true, false, Option, Some, None, IsTrue, IfOk, IfSome, OnOk, OnErr};
ghost use Rattle.std.specs.List.{Contains};
ghost use Rattle.vc_blocks.specs.Messages.{listed};
ghost use Rattle.vc_occam.specs.BlockedParts.{blocked as blocked_at};
ghost use Rattle.vc_occam.specs.Remains.{Done};
ghost use Rattle.vc_occam.specs.Runnings.{inner_channels, moves as moves_of, state};
ghost use Rattle.vc_occam.specs.declared.moves.Move.{Move as SpeltMove};
ghost use Rattle.vc_actor.specs.Acts.{NodeMay};
ghost use Rattle.vc_actor.specs.Turns.{IsTurn, RoomLets};
ghost use Rattle.vc_actor.specs.Private.Turns.{FindsAt, FindsMove, NeedsNoRoom};
ghost use Rattle.vc_occam.specs.MoveSites.{site_of as its_site, without};
ghost use Rattle.vc_occam.specs.States.{came};
ghost use Rattle.vc_vcp.specs.Able.{CanFetch};
ghost use Rattle.vc_vcp.specs.VcpView.{seen, answered, ends_of, passed_of};
ghost use Rattle.vc_vcp.specs.State.{IsOpen};
ghost use Rattle.vc_vcp.specs.Steps.{Complete, Finished};
ghost use Rattle.vc_network.specs.Network.{GoesOn};
ghost use Rattle.vc_accepted.specs.Process.{does};
ghost use Rattle.vc_actor.specs.ActorView.{process_of, OfNode};
ghost use Rattle.vc_actor.specs.Private.Passes.{IsAwaited, MakesPass};
ghost use Rattle.vc_actor.specs.ChannelView.{node_view};
ghost use Rattle.vc_network.specs.Plan.{Plan};
ghost use Rattle.vc_actor.specs.OfPlan.{IsActorOf, IsNodeOf};
ghost use Rattle.vc_actor.specs.StepsInARow.{MakesSteps};
ghost use Rattle.vc_actor.specs.MayMove.{MayMove, AnswersMove, MakesMove};
ghost use Rattle.vc_actor.specs.Private.Able.{HalfCan};
ghost use Rattle.vc_actor.specs.Able.{NodeCan, CanMove};
ghost use Rattle.vc_tokens.specs.CodeTokens.{tokens};

use crate::act::Act;
use crate::inside::Inside;
use crate::room::has_room;
use sqlite_items::Items;
use std::alloc::Global;
use vc_blocks::Messages;
use vc_occam::{Answer, Blocked, Move, Running, Steps};
use vc_packets::{Bytes, Memory, Packet};
use vc_tokens::Token;
use vc_vcp::{Taken, Vcp, Want};

/// The links of a node.
pub(crate) const NODE_LINKS: u8 = 4;

/// A node: its process, the virtual channel processor that carries its channels, and the channels inside it.
#[derive(Drop)]
pub struct Node {
    pub(crate) alloc: Global,
    pub(crate) vcp: Vcp,
    pub(crate) process: Running,
    pub(crate) inside: Inside,
}

impl Node {
    /// A node of these parts.
    pub(crate) fn new(alloc: Global, vcp: Vcp, process: Running, inside: Inside) -> Node
        ensures { (result.vcp ≡ vcp) × (result.process ≡ process) × (result.inside ≡ inside) }
    {
        Node {
            alloc,
            vcp,
            process,
            inside,
        }
    }

    /// Whether a move is one that the process can make now.
    pub(crate) fn can_move(&self, made: &Move) -> bool
        ensures may { IsTrue result ↔ MayMove self.now made.now }
        ensures can { (plan : Plan) (k : ℕ) →
            IsNodeOf plan k self.now →
            IsTrue result ↔ CanMove plan k self.now made.now }
    {
        self.process.lists(made) && self.channel_lets(made)
    }

    // Whether the move's channel lets it be made.
    fn channel_lets(&self, made: &Move) -> bool
        ensures lets { IsTrue result ↔ AnswersMove self.now made.now }
        ensures can { IsTrue result ↔ HalfCan self.now made.now }
    {
        match *made {
            Move::Offer { chan, .. } => self.vcp.may_offer(chan),
            Move::Want { chan, .. } => self.vcp.may_want(chan),
            Move::Choose { chan, .. } => self.may_choose(chan),
            Move::Stopch { chan, .. } => self.vcp.may_stop(chan) || self.inside.has(chan),
            Move::Inner { chan, .. } => self.inside.is_open(chan),
            Move::Quiet { .. } => true,
        }
    }

    // Whether a guard's piece is there, and no input waits on its channel.
    #[inline]
    fn may_choose(&self, chan: u16) -> bool
        ensures lets { IsTrue result ↔
            (IsOpen self.now.vcp chan × (((seen self.now.vcp).carrier.into chan).held ≢ None)) }
        ensures can { IsTrue result ↔
            CanFetch (ends_of self.now.vcp) (seen self.now.vcp).carrier chan }
    {
        self.vcp.may_want(chan) && self.vcp.ready(chan)
    }

    /// The least link whose buffer has a token.
    pub(crate) fn next_pass(&self) -> Option<Act>
        ensures may { IfSome result (λ a. NodeMay self.now a) }
        ensures lets { IfSome result NeedsNoRoom }
        ensures finds { (plan : Plan) (k : ℕ) →
            IsNodeOf plan k self.now →
            FindsAt (λ link. Act.Pass link) (NodeCan plan k self.now) result }
    {
        prove!(self.vcp.links() == NODE_LINKS);
        for link in 0..NODE_LINKS {
            if self.vcp.may_pass(link) {
                return Some(Act::Pass { link });
            }
        }
        None
    }

    /// The least link with room on which a token may be put.
    pub(crate) fn next_put(&self, room: u32) -> Option<Act>
        ensures may { IfSome result (λ a. NodeMay self.now a) }
        ensures lets { IfSome result (RoomLets room) }
        ensures finds { (plan : Plan) (k : ℕ) →
            IsNodeOf plan k self.now →
            FindsAt (λ link. Act.Put link) (IsTurn plan k (OfNode self.now) room) result }
    {
        for link in 0..NODE_LINKS {
            if has_room(room, link) && self.vcp.may_put(link) {
                return Some(Act::Put { link });
            }
        }
        None
    }

    /// The least link with room on which a flow control token may be put.
    pub(crate) fn next_grant(&self, room: u32) -> Option<Act>
        ensures may { IfSome result (λ a. NodeMay self.now a) }
        ensures lets { IfSome result (RoomLets room) }
        ensures finds { (plan : Plan) (k : ℕ) →
            IsNodeOf plan k self.now →
            FindsAt (λ link. Act.Fct link) (IsTurn plan k (OfNode self.now) room) result }
    {
        for link in 0..NODE_LINKS {
            if has_room(room, link) && self.vcp.may_grant(link) {
                return Some(Act::Fct { link });
            }
        }
        None
    }

    /// The process's only move, where that is known to be a step without a communication.
    pub(crate) fn only_step(&self) -> Option<Act>
        ensures may { IfSome result (λ a. NodeMay self.now a) }
        ensures lets { IfSome result NeedsNoRoom }
        ensures finds { (plan : Plan) (k : ℕ) →
            IsNodeOf plan k self.now →
            IfSome result (λ a. FindsMove plan k self.now (Some a)) }
    {
        let site = self.process.only_step()?;
        Some(Act::Proc(Move::Quiet { site }))
    }

    /// The first of the process's moves from this site on, or else of all, where it is found without a list: where no channel is
    /// inside the node, it is found if there is one.
    pub(crate) fn first_round(&self, site: u16) -> Option<Move>
        ensures listed { IfSome result (λ made. Contains (moves_of self.now.process) made) }
        ensures none { ((c : ℕ) → inner_channels self.now.process c ≡ false) →
            result ≡ None →
            moves_of self.now.process ≡ [] }
    {
        match self.process.first_from(site) {
            Some(made) => Some(made),
            None => self.process.first_from(0),
        }
    }

    /// The move of the process, if its channel lets it be made.
    pub(crate) fn let_move(&self, made: Move) -> Option<Act>
        requires { Contains (moves_of self.now.process) made }
        ensures may { IfSome result (λ a. NodeMay self.now a) }
        ensures lets { IfSome result NeedsNoRoom }
        ensures finds { (plan : Plan) (k : ℕ) →
            IsNodeOf plan k self.now →
            IfSome result (λ a. FindsMove plan k self.now (Some a)) }
    {
        if self.channel_lets(&made) {
            return Some(Act::Proc(made));
        }
        None
    }

    /// The next of the process's moves that can be made, going round from this site on.
    #[inline(always)]
    pub(crate) fn next_move(&self, moves: &[Move], site: u16) -> Option<Act>
        requires { moves.now ≡ moves_of self.now.process }
        ensures may { IfSome result (λ a. NodeMay self.now a) }
        ensures lets { IfSome result NeedsNoRoom }
        ensures finds { (plan : Plan) (k : ℕ) →
            IsNodeOf plan k self.now →
            FindsMove plan k self.now result }
    {
        if moves.is_empty() {
            return None;
        }
        let (before, rest) = moves.split_at(first_from(moves, site));
        match self.first_let(rest) {
            Some(act) => Some(act),
            None => self.first_let(before),
        }
    }

    // The first of these moves of the process that its channel lets be made.
    fn first_let(&self, moves: &[Move]) -> Option<Act>
        requires { (m : SpeltMove) → Contains moves.now m → Contains (moves_of self.now.process) m }
        ensures may { IfSome result (λ a. NodeMay self.now a) }
        ensures lets { IfSome result NeedsNoRoom }
        ensures some { (plan : Plan) (k : ℕ) →
            IsNodeOf plan k self.now →
            IfSome result (λ a. FindsMove plan k self.now (Some a)) }
        ensures none { (plan : Plan) (k : ℕ) (m : SpeltMove) →
            IsNodeOf plan k self.now →
            result ≡ None →
            Contains moves.now m →
            CanMove plan k self.now m → ⊥ }
    {
        for made in moves {
            if self.channel_lets(made) {
                return Some(Act::Proc(*made));
            }
        }
        None
    }

    /// The messages offered on a channel here, the first one first.
    pub fn offered(&self, chan: u16) -> Messages<'_>
        ensures { listed result ≡ (node_view self.now chan).offered }
    {
        if self.inside.has(chan) {
            self.inside.messages(chan)
        } else {
            self.vcp.offered(chan)
        }
    }

    /// The messages taken on a channel here, the first one first.
    pub fn taken(&self, chan: u16) -> Messages<'_>
        ensures { listed result ≡ (node_view self.now chan).taken }
    {
        if self.inside.has(chan) {
            self.inside.messages(chan)
        } else {
            self.vcp.taken(chan)
        }
    }

    /// How many outputs on a channel are finished here.
    pub fn finished(&self, chan: u16) -> u64
        ensures { result ≡ (node_view self.now chan).finished }
    {
        if self.inside.has(chan) {
            self.inside.messages(chan).len() as u64
        } else {
            self.vcp.finished(chan)
        }
    }

    /// Whether a channel was stopped here.
    pub fn stopped(&self, chan: u16) -> bool
        ensures { result ≡ (node_view self.now chan).stopped }
    {
        if self.inside.has(chan) {
            self.inside.is_stopped(chan)
        } else {
            self.vcp.stopped(chan)
        }
    }

    /// The packets that wait at a link, in two parts: those of the first go out before those of the second.
    pub fn packets_at(&self, link: u8) -> (&[Packet], &[Packet])
        ensures { result.0.now ++ result.1.now ≡ (seen self.now.vcp).carrier.queue link }
    {
        if link >= self.vcp.links() {
            return (&[], &[]);
        }
        self.vcp.sending(link).packets()
    }

    /// The tokens that wait in a link's buffer, in two parts: those of the first came before those of the second.
    pub fn tokens_at(&self, link: u8) -> (&[Token], &[Token])
        ensures { tokens (result.0.now ++ result.1.now) ≡
            ((seen self.now.vcp).link link).receiver.buffer }
    {
        if link >= self.vcp.links() {
            return (&[], &[]);
        }
        self.vcp.receiving(link).tokens()
    }

    /// How many more tokens a link may put: at most 16, and none where the node has no such link.
    pub fn credit_at(&self, link: u8) -> u8
        ensures { result ≡ ((seen self.now.vcp).link link).sender.credit }
    {
        if link >= self.vcp.links() {
            return 0;
        }
        self.vcp.sending(link).credit_left()
    }

    /// The bytes that have passed at a link of a packet whose mark has not.
    pub fn passed_at(&self, link: u8) -> &[u8]
        ensures { result.now ≡ ((seen self.now.vcp).link link).passed }
    {
        if link >= self.vcp.links() {
            return &[];
        }
        self.vcp.receiving(link).passed()
    }

    /// Whether a piece is held on a channel here.
    pub fn holds(&self, chan: u16) -> bool
        ensures { IsTrue result ↔ (((seen self.now.vcp).carrier.into chan).held ≢ None) }
    {
        self.vcp.holds(chan)
    }

    /// Whether the process has ended: nothing remains of it.
    pub fn ended(&self) -> bool
        ensures { IsTrue result ↔ ((state self.now.process).rest ≡ Done) }
    {
        self.process.ended()
    }

    /// Lists the moves that the process can begin with, in order of site and then of guard, whether or not their channels are ready. An
    /// output that meets an input has the place of the output's site. The call fails only when out of memory.
    pub fn moves(&self) -> Result<Items<Move>, Memory>
        ensures { IfOk result (λ found. found ≡ moves_of self.now.process) }
    {
        self.process.actions()
    }

    /// What the parts of the process are at that do not go on by themselves, in order of site.
    pub fn blocked(&self) -> Result<Items<Blocked>, Memory>
        ensures { IfOk result (λ found.
            found ≡ blocked_at (state self.now.process).rest (state self.now.process).store) }
    {
        self.process.blocked()
    }

    /// Makes a move. The answer is whether its site is known to wait then, and the others' moves to be what they were.
    #[inline(always)]
    pub(crate) fn make(&mut self, made: &Move) -> Result<bool, Memory>
        requires { MayMove self.old made.now }
        ensures ok { (plan : Plan) (k : ℕ) →
            IsNodeOf plan k self.old →
            OnOk result (MakesMove plan k self.old made.now self.new) }
        ensures waits { IfOk result
            (λ waits.
            waits ≡ true →
            moves_of self.new.process ≡
            without (its_site made.now) (moves_of self.old.process)) }
        ensures err { OnErr result (self.new ≡ self.old) }
    {
        match *made {
            Move::Offer { chan, .. } => self.offer(made, chan),
            Move::Want { chan, .. } => self.want(made, chan),
            Move::Choose { chan, .. } => {
                self.choose(made, chan)?;
                Ok(false)
            }
            Move::Stopch { chan, .. } => {
                self.stopch(made, chan)?;
                Ok(false)
            }
            Move::Inner { chan, .. } => {
                self.meet(made, chan)?;
                Ok(false)
            }
            Move::Quiet { site } => {
                self.rest(site)?;
                Ok(false)
            }
        }
    }

    // An output begins, with its message.
    fn offer(&mut self, made: &Move, chan: u16) -> Result<bool, Memory>
        requires may { MayMove self.old made.now }
        requires is { (site : ℕ) × (made.now ≡ Move.Offer site chan) }
        ensures ok { (plan : Plan) (k : ℕ) →
            IsNodeOf plan k self.old →
            OnOk result (MakesMove plan k self.old made.now self.new) }
        ensures waits { IfOk result
            (λ waits.
            waits ≡ true →
            moves_of self.new.process ≡
            without (its_site made.now) (moves_of self.old.process)) }
        ensures err { OnErr result (self.new ≡ self.old) }
    {
        let Some(message) = self.process.value(made)? else {
            unreachable!();
        };
        self.vcp.offer(chan, message)?;
        let is_unjoined = self.process.is_unjoined();
        self.process.act(made, Answer::Nothing)?;
        Ok(is_unjoined)
    }

    // An input begins: it has its message, or waits.
    fn want(&mut self, made: &Move, chan: u16) -> Result<bool, Memory>
        requires may { MayMove self.old made.now }
        requires is { (site : ℕ) × (made.now ≡ Move.Want site chan) }
        ensures ok { (plan : Plan) (k : ℕ) →
            IsNodeOf plan k self.old →
            OnOk result (MakesMove plan k self.old made.now self.new) }
        ensures waits { IfOk result
            (λ waits.
            waits ≡ true →
            moves_of self.new.process ≡
            without (its_site made.now) (moves_of self.old.process)) }
        ensures err { OnErr result (self.new ≡ self.old) }
    {
        let answer = answer_of(self.vcp.want(chan)?);
        let waits = matches!(answer, Answer::Waits) && self.process.is_unjoined();
        self.process.act(made, answer)?;
        Ok(waits)
    }

    // An ALT takes the guard whose piece is there.
    fn choose(&mut self, made: &Move, chan: u16) -> Result<(), Memory>
        requires may { MayMove self.old made.now }
        requires is { (site : ℕ) × (guard : ℕ) × (made.now ≡ Move.Choose site guard chan) }
        ensures ok { (plan : Plan) (k : ℕ) →
            IsNodeOf plan k self.old →
            OnOk result (MakesMove plan k self.old made.now self.new) }
        ensures err { OnErr result (self.new ≡ self.old) }
    {
        let answer = answer_of(self.vcp.want(chan)?);
        self.process.act(made, answer)
    }

    // A channel is stopped.
    fn stopch(&mut self, made: &Move, chan: u16) -> Result<(), Memory>
        requires may { MayMove self.old made.now }
        requires is { (site : ℕ) × (made.now ≡ Move.Stopch site chan) }
        ensures ok { (plan : Plan) (k : ℕ) →
            IsNodeOf plan k self.old →
            OnOk result (MakesMove plan k self.old made.now self.new) }
        ensures err { OnErr result (self.new ≡ self.old) }
    {
        self.process.act(made, Answer::Nothing)?;
        if self.inside.has(chan) {
            self.inside.stop(chan);
        } else {
            self.vcp.stopch(chan);
        }
        Ok(())
    }

    // An output meets an input, or a guard, on a channel inside the node.
    fn meet(&mut self, made: &Move, chan: u16) -> Result<(), Memory>
        requires may { MayMove self.old made.now }
        requires is { (sender : ℕ) ×
            (receiver : ℕ) ×
            (guard : Option ℕ) ×
            (made.now ≡ Move.Inner sender receiver guard chan) }
        ensures ok { (plan : Plan) (k : ℕ) →
            IsNodeOf plan k self.old →
            OnOk result (MakesMove plan k self.old made.now self.new) }
        ensures err { OnErr result (self.new ≡ self.old) }
    {
        if let Some(number) = self.process.number(made) {
            self.inside.exchange(chan, &number.to_le_bytes())?;
            return self.process.act(made, Answer::GotNumber(number));
        }
        let Some(message) = self.process.value(made)? else {
            unreachable!();
        };
        self.inside.exchange(chan, message.as_slice())?;
        self.process.act(made, Answer::Got(message))
    }

    /// A step without a communication.
    #[inline(always)]
    pub(crate) fn rest(&mut self, site: u16) -> Result<(), Memory>
        requires may { MayMove self.old (Move.Quiet site) }
        ensures ok { (plan : Plan) (k : ℕ) →
            IsNodeOf plan k self.old →
            OnOk result (MakesMove plan k self.old (Move.Quiet site) self.new) }
        ensures err { OnErr result (self.new ≡ self.old) }
    {
        self.process.act_quietly(site)
    }

    /// Makes steps without a communication, one after another, as long as each is known to be the process's only move, and at most as many
    /// as are left.
    pub(crate) fn make_steps(&mut self, steps: &mut Steps)
        ensures few { steps.new.left ≤ steps.old.left }
        ensures made { (plan : Plan) (k : ℕ) →
            IsActorOf plan k (OfNode self.old) →
            MakesSteps plan k (steps.old.left - steps.new.left) (OfNode self.old) (OfNode self.new) }
    {
        self.process.make_steps(steps);
    }

    /// A token passes from a link's buffer; where a message is whole or an output finished the process goes on, and the answer is
    /// whether it may have. Most tokens are bytes, with which no packet comes: for them this is a way of its own.
    #[inline(always)]
    pub(crate) fn pass(&mut self, link: u8) -> Result<bool, Memory>
        requires link { link < 4 }
        requires waits { ((seen self.old.vcp).link link).receiver.buffer ≢ [] }
        ensures ok { (plan : Plan) (k : ℕ) →
            IsNodeOf plan k self.old →
            OnOk result (MakesPass plan k self.old link self.new) }
        ensures rests { IfOk result
            (λ goes_on. goes_on ≡ false → self.new.process ≡ self.old.process) }
        ensures err { OnErr result (self.new ≡ self.old) }
    {
        match self.vcp.receiving(link).front() {
            Some(Token::Byte(byte)) => {
                self.vcp.pass_byte(link, byte);
                Ok(false)
            }
            _ => self.pass_mark(link),
        }
    }

    // A mark passes, or any token.
    #[inline(never)]
    fn pass_mark(&mut self, link: u8) -> Result<bool, Memory>
        requires link { link < 4 }
        requires waits { ((seen self.old.vcp).link link).receiver.buffer ≢ [] }
        ensures ok { (plan : Plan) (k : ℕ) →
            IsNodeOf plan k self.old →
            OnOk result (MakesPass plan k self.old link self.new) }
        ensures rests { IfOk result
            (λ goes_on. goes_on ≡ false → self.new.process ≡ self.old.process) }
        ensures err { OnErr result (self.new ≡ self.old) }
    {
        self.pass_token(link)
    }

    // A token passes, of whatever kind.
    #[inline(always)]
    fn pass_token(&mut self, link: u8) -> Result<bool, Memory>
        requires link { link < 4 }
        requires waits { ((seen self.old.vcp).link link).receiver.buffer ≢ [] }
        ensures ok { (plan : Plan) (k : ℕ) →
            IsNodeOf plan k self.old →
            OnOk result (MakesPass plan k self.old link self.new) }
        ensures rests { IfOk result
            (λ goes_on. goes_on ≡ false → self.new.process ≡ self.old.process) }
        ensures err { OnErr result (self.new ≡ self.old) }
    {
        match self.vcp.pass(link)? {
            Some(taken) => Ok(go_on(&mut self.process, taken)),
            None => Ok(false),
        }
    }
}

// The process goes on where its message is whole or its output finished. The answer is whether it may have.
fn go_on(process: &mut Running, taken: Taken) -> bool
    ensures goes_on { IsAwaited (process_of process.old) (passed_of (Some taken)) →
        GoesOn does (process_of process.old) (passed_of (Some taken)) (process_of process.new) }
    ensures rests { result ≡ false → process.new ≡ process.old }
{
    match taken {
        Taken::Complete { chan, message } => {
            process.receive(chan, message);
            true
        }
        Taken::Finished { chan } => {
            process.finish(chan);
            true
        }
        _ => false,
    }
}

/// What an input's process is given.
fn answer_of(want: Want) -> Answer
    ensures came { came result ≡ answered want }
    ensures some { result ≢ Answer.Nothing }
{
    match want {
        Want::Waits | Want::Stored => Answer::Waits,
        Want::Complete(message) => Answer::Got(message),
    }
}

// The place of the first move by a site from this one on; the first place where there is none.
fn first_from(moves: &[Move], site: u16) -> usize
    ensures { result ≤ length moves.now }
{
    for (place, made) in moves.iter().enumerate() {
        if site_of(made) >= site {
            return place;
        }
    }
    0
}

/// The site that makes a move; that of the output where two sites meet.
pub(crate) fn site_of(made: &Move) -> u16
    ensures { result ≡ its_site made.now }
{
    match *made {
        Move::Offer { site, .. }
        | Move::Want { site, .. }
        | Move::Choose { site, .. }
        | Move::Stopch { site, .. }
        | Move::Quiet { site } => site,
        Move::Inner { sender, .. } => sender,
    }
}

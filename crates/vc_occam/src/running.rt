//! Running processes.
ghost use Rattle.std.specs.Prelude.{◌≡◌, length, true};
ghost use Rattle.vc_occam.specs.Private.Frames.{Able, CanGo, Did, HasVariables, Went, shown, whole};
ghost use Rattle.vc_occam.specs.Frames.{remains};
ghost use Rattle.vc_occam.specs.InUse.{UsesLawfully};
ghost use Rattle.vc_occam.specs.First.{own};
ghost use Rattle.vc_occam.specs.Private.MoveSites.{CanBegin, HasMet, IsAlone, action_for, at};
ghost use Rattle.vc_occam.specs.Private.SiteSteps.{one, step_at};
ghost use Rattle.vc_occam.specs.SiteActions as action;
ghost use Rattle.vc_occam.specs.MoveSites.{site_of};
ghost use Rattle.vc_occam.specs.Private.OneProof.{InPreorder-prop, OwnSites-prop, UsesLawfully-prop};
ghost use Rattle.vc_occam.specs.Private.Sites.{InPreorder};
ghost use Rattle.vc_occam.specs.Sites.{OwnSites};
ghost use Rattle.vc_occam.specs.States.{IsQuiet, came, carried, output_at, waiting};
ghost use Rattle.vc_occam.specs.Private.Waiters.{AllWait, wait_of as its_wait};
ghost use Rattle.vc_process.specs.Terms.{store};

use crate::answer::Answer;
use crate::blocked::Blocked;
use crate::frame::{Frame, Task};
use crate::frame_tree::task_of;
use crate::inner_channels::InnerChannels;
use crate::meetings::{clear, is_outside, join, partner};
use crate::moves::Move;
use crate::outcome::Outcome;
use crate::site_step::{Choose, Offer, Quiet, Resume, StopChannel, Want, WantNumber, WholeOutput};
use crate::steps::Steps;
use crate::variables::empty_variables;
use crate::waiters::Waiters;
use crate::waits::Waits;
use sqlite_items::Items;
use std::alloc::Global;
use vc_packets::{Bytes, Memory};
use vc_process::{Datum, Process, ValueKind};

/// A process that runs on a node, with its variables: what remains of it, move by move.
pub struct Running {
    pub(crate) alloc: Global,
    pub(crate) task: Task<Frame>,
    pub(crate) vars: Vec<Datum>,
    pub(crate) inside: InnerChannels,
    pub(crate) waiters: Box<Waiters>,
    ghost has_variables: { HasVariables (whole task) (length vars.items) },
    ghost in_preorder: { InPreorder (whole task) } by { InPreorder-prop (whole task) },
    ghost own_sites: { OwnSites (remains task) } by { OwnSites-prop (remains task) },
    ghost uses_lawfully: { UsesLawfully (remains task) } by { UsesLawfully-prop (remains task) },
    ghost sound: { (shown task).sound ≡ true },
    ghost waiting: { AllWait waiters.value (waiting (remains task)) },
}

impl Drop for Running {
    // written, so that the crates above need not prove again how all that it holds is dropped
    fn drop(self) {
        let Running {
            alloc: _,
            task: _,
            vars: _,
            inside: _,
            waiters: _,
        } = self;
    }
}

/// The site of a move with a communication makes it, where the channel gave this answer.
fn go_alone(
    alloc: Global,
    task: &mut Task<Frame>,
    vars: &mut Vec<Datum>,
    made: &Move,
    answer: Answer,
)
    requires alone { IsAlone made.now }
    requires loud { IsQuiet made.now → ⊥ }
    requires able { Able (remains task.old) (store vars.old.items) (site_of made.now)
        (action_for made.now answer) }
    requires variables { HasVariables (whole task.old) (length vars.old.items) }
    requires in_preorder { InPreorder (whole task.old) }
    requires sound { (shown task.old).sound ≡ true }
    ensures did { Did (remains task.old) (store vars.old.items) (site_of made.now)
        (one (action_for made.now answer)) (remains task.new) (store vars.new.items) }
    ensures plan { whole task.new ≡ whole task.old }
    ensures sound { (shown task.new).sound ≡ true }
    ensures length { length vars.new.items ≡ length vars.old.items }
{
    match *made {
        Move::Offer { site, chan } => task.go(&mut Offer { site, chan }, vars),
        Move::Want { site, chan } => go_wanting(alloc, task, vars, site, chan, answer),
        Move::Choose { site, guard, chan } => task.go(
            &mut Choose {
                site,
                place: guard,
                chan,
                message: answer.message(alloc),
            },
            vars,
        ),
        Move::Stopch { site, chan } => task.go(&mut StopChannel { site, chan }, vars),
        _ => Outcome::Nothing,
    };
}

/// An input has its message, or waits where there is none, as the channel answered.
#[inline(always)]
fn go_wanting(
    alloc: Global,
    task: &mut Task<Frame>,
    vars: &mut Vec<Datum>,
    site: u16,
    chan: u16,
    answer: Answer,
) -> Outcome
    requires can { CanGo (step_at site (one (action.Want chan (came answer)))) (shown task.old)
        vars.old.items }
    ensures went { Went (step_at site (one (action.Want chan (came answer)))) (shown task.old)
        (store vars.old.items) result (shown task.new) (store vars.new.items) }
    ensures begins { task.new.begins ≡ result }
    ensures length { length vars.new.items ≡ length vars.old.items }
{
    match answer {
        Answer::GotNumber(number) => task.go(
            &mut WantNumber {
                alloc,
                site,
                chan,
                number,
            },
            vars,
        ),
        _ => task.go(
            &mut Want {
                site,
                chan,
                message: answer.message(alloc),
            },
            vars,
        ),
    }
}

/// An output meets an input or guard inside the node: it begins, its message is taken, and it is finished. Since an output may begin
/// later than its message is taken, the frames are gone through twice.
fn meet(
    alloc: Global,
    task: &mut Task<Frame>,
    vars: &mut Vec<Datum>,
    sender: u16,
    chan: u16,
    taken: &Move,
    answer: Answer,
)
    requires meets { CanBegin (own (remains task.old) (store vars.old.items)) sender chan
        taken.now }
    requires fits { came answer ≡
        carried (output_at sender (remains task.old) (store vars.old.items)) }
    requires variables { HasVariables (whole task.old) (length vars.old.items) }
    requires in_preorder { InPreorder (whole task.old) }
    requires own_sites { OwnSites (remains task.old) }
    requires uses_lawfully { UsesLawfully (remains task.old) }
    requires sound { (shown task.old).sound ≡ true }
    ensures met { HasMet (at (remains task.old) (store vars.old.items)) sender chan taken.now answer
        (at (remains task.new) (store vars.new.items)) }
    ensures plan { whole task.new ≡ whole task.old }
    ensures sound { (shown task.new).sound ≡ true }
    ensures length { length vars.new.items ≡ length vars.old.items }
{
    go_alone(alloc, task, vars, taken, answer);
    task.go(&mut WholeOutput { site: sender, chan }, vars);
}

/// What a site waits for that makes a move, with the site, if it waits: an output for its end, and an input or guard where no message came.
fn wait_of(made: &Move, has_none: bool) -> Option<(Waits, u16)>
    ensures { result ≡ its_wait made.now has_none }
{
    match *made {
        Move::Offer { site, chan } => Some((Waits::Output { chan }, site)),
        Move::Want { site, chan } if has_none => Some((Waits::Input { chan }, site)),
        Move::Choose { site, chan, .. } if has_none => Some((Waits::Input { chan }, site)),
        _ => None,
    }
}

impl Running {
    ghost use Rattle.std.specs.Prelude.{◌≡◌, ◌≤◌, ◌-◌, ◌↔◌, ◌∷◌, [], IsTrue, IfOk, IfSome, OnOk, OnErr, MatchOption, Some, None, true, false, ℕ};
    ghost use Rattle.std.specs.List.{Contains};
    ghost use Rattle.vc_occam.specs.BlockedParts.{blocked};
    ghost use Rattle.vc_occam.specs.First.{own};
    ghost use Rattle.vc_occam.specs.Private.Frames.{assigned_at, waits_at};
    ghost use Rattle.vc_occam.specs.MoveSites.{BeginsToWait, from_site, site_of, without};
    ghost use Rattle.vc_occam.specs.Private.MoveSites.{CanMeet};
    ghost use Rattle.vc_occam.specs.Private.Waiters.{FitsWait, step_of};
    ghost use Rattle.vc_occam.specs.declared.moves.Move.TheVariants as Move;
    ghost use Rattle.vc_process.specs.Messages.{number_bytes};
    ghost use Rattle.vc_process.specs.Terms.{store};
    ghost use Rattle.vc_process.specs.InOrder.{number};
    ghost use Rattle.vc_process.specs.Numbering.{written};
    ghost use Rattle.vc_occam.specs.Opening.{Fits, opening};
    ghost use Rattle.vc_occam.specs.StepsInARow.{RestsOn};
    ghost use Rattle.vc_process.specs.Lawful.{Lawfully};
    ghost use Rattle.vc_occam.specs.Remains.{Done};
    ghost use Rattle.vc_occam.specs.Runnings.{inner_channels, moves, process_of, state};
    ghost use Rattle.vc_process.specs.Usage.{among};
    ghost use Rattle.vc_occam.specs.States.{Acts, FitsMove, IsAwaited, IsQuiet, Resumes, doing, sent_by, waiting, output, input};
    ghost use Rattle.vc_process.specs.ProcessStep.{Finishes, Receives, Rests};

    /// A process about to begin, its variables being 0 or without bytes. `inside` are the channels inside its node. At most 65,536
    /// processes are written in it, since a site's number has 16 bits.
    #[tactic(auto, unfolding(crate::specs::Runnings::state, crate::specs::Runnings::inner_channels, crate::specs::Runnings::process_of))]
    pub fn new(
        alloc: Global,
        process: &Process,
        kinds: &[ValueKind],
        inside: &[u16],
    ) -> Result<Running, Memory>
        requires lawful { Lawfully (written process.now) }
        requires sites { (number process.now).sites ≤ 65536 }
        requires fits { Fits kinds.now process.now }
        ensures state { IfOk result (λ r. state r ≡ opening kinds.now process.now) }
        ensures inside { IfOk result (λ r. inner_channels r ≡ among inside.now) }
        ensures process { IfOk result (λ r. process_of r ≡ written process.now) }
    {
        let vars = empty_variables(alloc, kinds)?;
        let inside = InnerChannels::new(alloc, inside)?;
        let task = task_of(alloc, process, &mut 0)?;
        let waiters = Box::new(alloc, Waiters::new())?;
        Ok(Running {
            alloc,
            task,
            vars,
            inside,
            waiters,
        })
    }

    /// The moves that it can begin with, in order of site (for an output that meets an input, of the output's), then of guard.
    #[tactic(auto, unfolding(crate::specs::Runnings::state, crate::specs::Runnings::inner_channels))]
    pub fn actions(&self) -> Result<Items<Move>, Memory>
        ensures { IfOk result (λ found. found ≡ moves self.now) }
    {
        let mut found = Items::new(self.alloc);
        self.push_actions(&mut found)?;
        Ok(found)
    }

    /// Puts the same moves in a list in place of what it holds, whose room serves again; where memory is refused, the list is
    /// empty then.
    pub fn list_actions(&self, found: &mut Items<Move>) -> Result<(), Memory>
        ensures listed { OnOk result (found.new ≡ moves self.now) }
        ensures refused { OnErr result (found.new ≡ []) }
    {
        clear(found);
        let listed = self.push_actions(found);
        if listed.is_err() {
            clear(found);
        }
        listed
    }

    /// Puts the moves that it can begin with in an empty list.
    #[tactic(auto, unfolding(crate::specs::Runnings::state, crate::specs::Runnings::inner_channels))]
    fn push_actions(&self, found: &mut Items<Move>) -> Result<(), Memory>
        requires { found.old ≡ [] }
        ensures { OnOk result (found.new ≡ moves self.now) }
    {
        if self.inside.is_empty() {
            return self.task.push_moves(found, &self.vars);
        }
        self.task.push_moves(found, &self.vars)?;
        join(found, self.alloc, &self.inside)
    }

    /// The site of its only move, where that is known to be a step without a communication; None promises nothing.
    #[inline(always)]
    #[tactic(auto, unfolding(crate::specs::Runnings::state, crate::specs::Runnings::inner_channels))]
    pub fn only_step(&self) -> Option<u16>
        ensures { IfSome result (λ site. moves self.now ≡ Move.Quiet site ∷ []) }
    {
        match self.task.begins {
            Outcome::Quiet { site } => Some(site),
            _ => None,
        }
    }

    /// Its only move, where that is known to be a meeting inside the node; None promises nothing.
    #[tactic(auto, unfolding(crate::specs::Runnings::state, crate::specs::Runnings::inner_channels))]
    pub fn only_meeting(&self) -> Option<Move>
        ensures { IfSome result (λ made. moves self.now ≡ made ∷ []) }
    {
        if self.inside.is_empty() {
            return None;
        }
        self.task.only_meeting(&self.inside, &self.vars)
    }

    /// The first move at a site from this one on, found without a list. Where a channel is inside the node none is looked for, since
    /// an output and an input meet there that may be anywhere.
    #[tactic(auto, unfolding(crate::specs::Runnings::state, crate::specs::Runnings::inner_channels))]
    pub fn first_from(&self, site: u16) -> Option<Move>
        ensures listed { IfSome result (λ made. Contains (moves self.now) made) }
        ensures first { ((c : ℕ) → inner_channels self.now c ≡ false) →
            result ≡ from_site site (moves self.now) }
        ensures joined { (c : ℕ) → inner_channels self.now c ≡ true → result ≡ None }
    {
        if !self.inside.is_empty() {
            return None;
        }
        self.task.first_from(site, &self.vars)
    }

    /// Whether no channel is inside the node: then `first_from` looks for moves, and where it has none there is none.
    #[tactic(auto, unfolding(crate::specs::Runnings::state, crate::specs::Runnings::inner_channels))]
    pub fn is_unjoined(&self) -> bool
        ensures { IsTrue result ↔ ((c : ℕ) → inner_channels self.now c ≡ false) }
    {
        self.inside.is_empty()
    }

    /// Whether the move is one that it can begin with.
    #[tactic(auto, unfolding(crate::specs::Runnings::state, crate::specs::Runnings::inner_channels))]
    pub fn lists(&self, made: &Move) -> bool
        ensures { IsTrue result ↔ Contains (moves self.now) made.now }
    {
        match made {
            Move::Inner {
                sender,
                receiver,
                guard,
                chan,
            } => self.meet_now(*sender, *receiver, *guard, *chan),
            _ => is_outside(made, &self.inside) && self.task.begins_with(made, &self.vars),
        }
    }

    /// Whether an output and an input or guard can begin that meet on this channel inside the node.
    #[tactic(auto, unfolding(crate::specs::Runnings::state, crate::specs::Runnings::inner_channels))]
    fn meet_now(&self, sender: u16, receiver: u16, guard: Option<u16>, chan: u16) -> bool
        ensures { IsTrue result ↔
            CanMeet (inner_channels self.now) (own (state self.now).rest (state self.now).store)
            sender receiver guard chan }
    {
        let offer = Move::Offer { site: sender, chan };
        let taken = partner(receiver, guard, chan);
        self.inside.contains(chan)
            && self.task.begins_with(&offer, &self.vars)
            && self.task.begins_with(&taken, &self.vars)
    }

    /// The number that the move's output sends, found without a message; None where it sends bytes, or the move has no output.
    #[tactic(auto, unfolding(crate::specs::Runnings::state, crate::specs::Runnings::inner_channels))]
    pub fn number(&self, made: &Move) -> Option<i64>
        ensures { IfSome result (λ sent.
            sent_by (state self.now) made.now ≡ Some (number_bytes sent)) }
    {
        match made {
            Move::Offer { site, .. } => self.task.number(*site, &self.vars),
            Move::Inner { sender, .. } => self.task.number(*sender, &self.vars),
            _ => None,
        }
    }

    /// The message that the move's output sends; None where the move has no output.
    #[tactic(auto, unfolding(crate::specs::Runnings::state, crate::specs::Runnings::inner_channels))]
    pub fn value(&self, made: &Move) -> Result<Option<Bytes>, Memory>
        requires { Contains (moves self.now) made.now }
        ensures { IfOk result (λ sent. sent ≡ sent_by (state self.now) made.now) }
    {
        match made {
            Move::Offer { site, .. } => self.task.message(self.alloc, *site, &self.vars),
            Move::Inner { sender, .. } => self.task.message(self.alloc, *sender, &self.vars),
            _ => Ok(None),
        }
    }

    /// Makes the move, to which its channel gave this answer; where an output meets an input, that is the output's message, and the
    /// output begins, the input has it, and the output is finished. Only a move without a communication can be without memory,
    /// and then nothing has changed. Where the site waits then and no channel is inside the node, the other moves are what they were.
    #[inline(always)]
    #[tactic(auto, unfolding(crate::specs::Runnings::state, crate::specs::Runnings::inner_channels, crate::specs::Runnings::process_of))]
    pub fn act(&mut self, made: &Move, answer: Answer) -> Result<(), Memory>
        requires listed { Contains (moves self.old) made.now }
        requires fits { FitsMove made.now (sent_by (state self.old) made.now) answer }
        ensures made { OnOk result
            (Acts (state self.old) (doing made.now (sent_by (state self.old) made.now) answer)
            (state self.new)) }
        ensures unchanged { OnErr result ((self.new ≡ self.old) × IsQuiet made.now) }
        ensures inside { inner_channels self.new ≡ inner_channels self.old }
        ensures process { process_of self.new ≡ process_of self.old }
        ensures waits { OnOk result
            (BeginsToWait made.now answer →
            ((c : ℕ) → inner_channels self.old c ≡ false) →
            moves self.new ≡ without (site_of made.now) (moves self.old)) }
    {
        match made {
            Move::Inner {
                sender,
                receiver,
                guard,
                chan,
            } => {
                let taken = partner(*receiver, *guard, *chan);
                meet(
                    self.alloc,
                    &mut self.task,
                    &mut self.vars,
                    *sender,
                    *chan,
                    &taken,
                    answer,
                );
                Ok(())
            }
            Move::Quiet { site } => self.act_quietly(*site),
            _ => {
                self.act_alone(made, answer);
                Ok(())
            }
        }
    }

    /// Makes a move of one site, which is no step without a communication.
    #[tactic(auto, unfolding(crate::specs::Runnings::state, crate::specs::Runnings::inner_channels, crate::specs::Runnings::process_of))]
    fn act_alone(&mut self, made: &Move, answer: Answer)
        requires listed { Contains (own (state self.old).rest (state self.old).store) made.now }
        requires loud { IsQuiet made.now → ⊥ }
        requires fits { FitsMove made.now (sent_by (state self.old) made.now) answer }
        ensures made { Acts (state self.old)
            (doing made.now (sent_by (state self.old) made.now) answer) (state self.new) }
        ensures inside { inner_channels self.new ≡ inner_channels self.old }
        ensures process { process_of self.new ≡ process_of self.old }
    {
        let has_none = answer.has_none();
        go_alone(self.alloc, &mut self.task, &mut self.vars, made, answer);
        self.waiters.note(wait_of(made, has_none));
    }

    /// Makes a step without a communication. Where it is without memory nothing has changed.
    #[inline(always)]
    #[tactic(auto, unfolding(crate::specs::Runnings::state, crate::specs::Runnings::inner_channels, crate::specs::Runnings::process_of))]
    pub fn act_quietly(&mut self, site: u16) -> Result<(), Memory>
        requires listed { Contains (moves self.old) (Move.Quiet site) }
        ensures made { OnOk result (Acts (state self.old) (Rests site) (state self.new)) }
        ensures unchanged { OnErr result (self.new ≡ self.old) }
        ensures inside { inner_channels self.new ≡ inner_channels self.old }
        ensures process { process_of self.new ≡ process_of self.old }
    {
        if let Outcome::Quiet { .. } = self.task.begins {
            self.step(site, None);
            return Ok(());
        }
        self.act_assigning(site)
    }

    /// Makes steps without a communication, one after another, as long as each is known to be its only move, and at most as many as are
    /// left in `steps`, which then has how many are left, and the site of the last one made. It takes no memory.
    #[tactic(auto, unfolding(crate::specs::Runnings::state, crate::specs::Runnings::inner_channels))]
    pub fn make_steps(&mut self, steps: &mut Steps)
        ensures few { steps.new.left ≤ steps.old.left }
        ensures made { RestsOn (inner_channels self.old) (steps.old.left - steps.new.left)
            steps.old.last (state self.old) steps.new.last (state self.new) }
        ensures inside { inner_channels self.new ≡ inner_channels self.old }
    {
        if let Outcome::Quiet { site } = self.task.begins {
            if steps.left > 0 {
                self.task.make_steps(site, steps, &mut self.vars);
            }
        }
    }

    /// Makes a step without a communication, which may assign bytes. Where it is without memory nothing has changed.
    #[inline(never)]
    #[tactic(auto, unfolding(crate::specs::Runnings::state, crate::specs::Runnings::inner_channels, crate::specs::Runnings::process_of))]
    fn act_assigning(&mut self, site: u16) -> Result<(), Memory>
        requires listed { Contains (moves self.old) (Move.Quiet site) }
        ensures made { OnOk result (Acts (state self.old) (Rests site) (state self.new)) }
        ensures unchanged { OnErr result (self.new ≡ self.old) }
        ensures inside { inner_channels self.new ≡ inner_channels self.old }
        ensures process { process_of self.new ≡ process_of self.old }
    {
        let assigned = self.task.assigned(self.alloc, site, &self.vars)?;
        self.step(site, assigned);
        Ok(())
    }

    /// Makes a step without a communication, which assigns these bytes, if any.
    #[inline(always)]
    #[tactic(auto, unfolding(crate::specs::Runnings::state, crate::specs::Runnings::inner_channels, crate::specs::Runnings::process_of))]
    fn step(&mut self, site: u16, assigned: Option<Datum>)
        requires listed { Contains (moves self.old) (Move.Quiet site) }
        requires assigned { assigned ≡
            assigned_at site (remains self.old.task) (store self.old.vars.items) }
        ensures made { Acts (state self.old) (Rests site) (state self.new) }
        ensures inside { inner_channels self.new ≡ inner_channels self.old }
        ensures process { process_of self.new ≡ process_of self.old }
    {
        self.task.go(&mut Quiet { site, assigned }, &mut self.vars);
    }

    /// The site goes on: its output was finished, or here is the message for its input.
    #[tactic(auto, unfolding(crate::specs::Runnings::state, crate::specs::Runnings::inner_channels))]
    pub fn resume(&mut self, site: u16, message: Option<Bytes>)
        requires { IsAwaited (state self.old).rest site message }
        ensures resumed { Resumes (state self.old) site message (state self.new) }
        ensures inside { inner_channels self.new ≡ inner_channels self.old }
    {
        // on which channel it waited is not known here
        *self.waiters = Waiters::new();
        self.task.go(&mut Resume { site, message }, &mut self.vars);
    }

    /// The output that waits on a channel is finished, if there is one; answers whether there was. Else nothing changes.
    #[tactic(auto, unfolding(crate::specs::Runnings::state, crate::specs::Runnings::inner_channels, crate::specs::Runnings::process_of))]
    pub fn finish(&mut self, chan: u16) -> bool
        ensures finished { result ≡ true → Acts (state self.old) (Finishes chan) (state self.new) }
        ensures none { result ≡ false →
            (i : ℕ) → Contains (waiting (state self.old).rest) (output i chan) → ⊥ }
        ensures unchanged { result ≡ false → self.new ≡ self.old }
        ensures inside { inner_channels self.new ≡ inner_channels self.old }
        ensures process { process_of self.new ≡ process_of self.old }
    {
        self.go_on(Waits::Output { chan }, None)
    }

    /// The input that waits on a channel has its message, if there is one; answers whether there was. Else nothing changes.
    #[tactic(auto, unfolding(crate::specs::Runnings::state, crate::specs::Runnings::inner_channels))]
    pub fn receive(&mut self, chan: u16, message: Bytes) -> bool
        ensures received { result ≡ true →
            Acts (state self.old) (Receives chan message) (state self.new) }
        ensures none { result ≡ false →
            (i : ℕ) → Contains (waiting (state self.old).rest) (input i chan) → ⊥ }
        ensures unchanged { result ≡ false → self.new ≡ self.old }
        ensures inside { inner_channels self.new ≡ inner_channels self.old }
    {
        self.go_on(Waits::Input { chan }, Some(message))
    }

    /// The site that waits for this goes on, if there is one; answers whether there was.
    #[inline(always)]
    #[tactic(auto, unfolding(crate::specs::Runnings::state, crate::specs::Runnings::inner_channels, crate::specs::Runnings::process_of))]
    fn go_on(&mut self, wanted: Waits, message: Option<Bytes>) -> bool
        requires { FitsWait wanted message }
        ensures went { result ≡ true →
            Acts (state self.old) (step_of wanted message) (state self.new) }
        ensures none { result ≡ false →
            (i : ℕ) → Contains (waiting (state self.old).rest) (waits_at wanted i) → ⊥ }
        ensures unchanged { result ≡ false → self.new ≡ self.old }
        ensures inside { inner_channels self.new ≡ inner_channels self.old }
        ensures process { process_of self.new ≡ process_of self.old }
    {
        let Some(site) = self.waits_on(wanted) else {
            return false;
        };
        self.waiters.forget(wanted);
        self.task.go(&mut Resume { site, message }, &mut self.vars);
        true
    }

    /// A site that waits for this, if one does; it is looked for among the frames where none is noted.
    #[inline(always)]
    fn waits_on(&self, wanted: Waits) -> Option<u16>
        ensures { MatchOption result
            ((i : ℕ) → Contains (waiting (remains self.now.task)) (waits_at wanted i) → ⊥)
            (λ i. Contains (waiting (remains self.now.task)) (waits_at wanted i)) }
    {
        match self.waiters.site(wanted) {
            Some(site) => Some(site),
            None => self.task.waits_on(wanted),
        }
    }

    /// The site whose output on the channel waits to be finished, if there is one.
    #[tactic(auto, unfolding(crate::specs::Runnings::state))]
    pub fn output_on(&self, chan: u16) -> Option<u16>
        ensures { MatchOption result
            ((i : ℕ) → Contains (waiting (state self.now).rest) (output i chan) → ⊥)
            (λ i. Contains (waiting (state self.now).rest) (output i chan)) }
    {
        self.waits_on(Waits::Output { chan })
    }

    /// The site whose input on the channel waits for a message, if there is one.
    #[tactic(auto, unfolding(crate::specs::Runnings::state))]
    pub fn input_on(&self, chan: u16) -> Option<u16>
        ensures { MatchOption result
            ((i : ℕ) → Contains (waiting (state self.now).rest) (input i chan) → ⊥)
            (λ i. Contains (waiting (state self.now).rest) (input i chan)) }
    {
        self.waits_on(Waits::Input { chan })
    }

    /// What its parts are at that do not go on by themselves, in order of site; of an ALT each open guard, in order.
    #[tactic(auto, unfolding(crate::specs::Runnings::state))]
    pub fn blocked(&self) -> Result<Items<Blocked>, Memory>
        ensures { IfOk result (λ found.
            found ≡ blocked (state self.now).rest (state self.now).store) }
    {
        let mut found = Items::new(self.alloc);
        self.task.push_blocked(&mut found, &self.vars)?;
        Ok(found)
    }

    /// Whether nothing remains.
    #[tactic(auto, unfolding(crate::specs::Runnings::state))]
    pub fn ended(&self) -> bool
        ensures { IsTrue result ↔ ((state self.now).rest ≡ Done) }
    {
        self.task.begins.has_ended()
    }
}

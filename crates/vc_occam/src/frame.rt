//! Processes that run: a tree of frames.
ghost use Rattle.std.specs.Prelude.{◌≡◌, ℕ, MatchOption, false, true};
ghost use Rattle.vc_occam.specs.Frames.{begun, fresh_outcome, is_sound, plan_of, view};
ghost use Rattle.vc_occam.specs.Private.Frames.{GoesAlone, IsPart, assigned_shape, first_outcome, par_shape, seq_shape, shape, shown, unstopped, whole};

use crate::outcome::Outcome;
use vc_process::{Cond, Expr, Value};

/// A process that runs, with its site.
#[derive(Drop)]
pub(crate) struct Frame {
    pub(crate) site: u16,
    /// Whether a fault, or an IF without a true condition, has stopped this site for good.
    pub(crate) stopped: bool,
    pub(crate) construct: Construct<Frame>,
}

/// What a frame runs, and how far it is, with its parts. One that has ended is left, and is not looked at until it begins again.
#[derive(Drop)]
pub(crate) enum Construct<F> {
    /// SKIP.
    Skip,
    /// A SEQ without parts.
    EmptySeq,
    /// A PAR without parts.
    EmptyPar,
    /// STOP.
    Stop,
    /// An assignment.
    Set(Assignment),
    /// An output.
    Send(Output),
    /// An input.
    Receive(Input),
    /// The stop of a channel.
    Stopch { chan: u16 },
    /// SEQ.
    Seq(Seq<F>),
    /// PAR.
    Par(Par<F>),
    /// IF.
    If(If<F>),
    /// WHILE.
    While(While<F>),
    /// A replicated SEQ.
    Count(Count<F>),
    /// ALT.
    Alt(Alt<F>),
}

/// An assignment.
#[derive(Drop)]
pub(crate) struct Assignment {
    pub(crate) var: u8,
    pub(crate) value: Value,
}

/// An output, which waits to be finished once it has begun.
#[derive(Drop)]
pub(crate) struct Output {
    pub(crate) chan: u16,
    pub(crate) value: Value,
    pub(crate) begun: bool,
}

/// An input, which waits for its message once it has begun.
#[derive(Clone, Copy, Drop)]
pub(crate) struct Input {
    pub(crate) chan: u16,
    pub(crate) var: u8,
    pub(crate) begun: bool,
}

/// A SEQ: the part at a place goes on.
#[derive(Drop)]
pub(crate) struct Seq<F> {
    pub(crate) parts: Vec<F>,
    pub(crate) at: usize,
}

/// A PAR: its parts go on side by side.
#[derive(Drop)]
pub(crate) struct Par<F> {
    pub(crate) tasks: Vec<Task<F>>,
}

/// A process that goes on by itself, as a part of a PAR or as the whole, and what it begins with.
#[derive(Drop)]
pub(crate) struct Task<F> {
    pub(crate) frame: F,
    pub(crate) begins: Outcome,
}

/// An IF, and which of its branches goes on.
#[derive(Drop)]
pub(crate) struct If<F> {
    pub(crate) branches: Vec<Branch<F>>,
    pub(crate) taken: Option<usize>,
}

/// A branch of an IF.
#[derive(Drop)]
pub(crate) struct Branch<F> {
    pub(crate) cond: Cond,
    pub(crate) body: F,
}

/// A WHILE, and whether its body goes on.
#[derive(Drop)]
pub(crate) struct While<F> {
    pub(crate) cond: Cond,
    pub(crate) body: Box<F>,
    pub(crate) turning: bool,
}

/// A replicated SEQ, and which of its turns goes on.
#[derive(Drop)]
pub(crate) struct Count<F> {
    pub(crate) var: u8,
    pub(crate) base: Expr,
    pub(crate) count: Expr,
    pub(crate) body: Box<F>,
    pub(crate) turn: Option<Turn>,
}

/// A turn of a replicated SEQ: its index, and the last one.
#[derive(Clone, Copy, Drop)]
pub(crate) struct Turn {
    pub(crate) index: i64,
    pub(crate) last: i64,
}

/// An ALT, and which of its guards it has taken.
#[derive(Drop)]
pub(crate) struct Alt<F> {
    pub(crate) guards: Vec<Guard<F>>,
    pub(crate) choice: Choice,
}

/// A guard of an ALT, with its body.
#[derive(Drop)]
pub(crate) struct Guard<F> {
    pub(crate) cond: Cond,
    pub(crate) chan: u16,
    pub(crate) var: u8,
    pub(crate) body: F,
}

/// How far an ALT is.
#[derive(Clone, Copy, Drop)]
pub(crate) enum Choice {
    /// It has taken none of its guards.
    Open,
    /// It has taken the guard at this place, whose message hasn't come.
    Taken(usize),
    /// The body of the guard at this place goes on.
    Within(usize),
}

impl Frame {
    /// Begins, whatever went on before; answers what it begins with.
    #[cycle(start)]
    pub(crate) fn start(&mut self) -> Outcome
        requires sound { (view self.old).sound ≡ true }
        ensures begun { view self.new ≡ begun (view self.old).plan }
        ensures outcome { result ≡ first_outcome (view self.old).plan }
    {
        self.stopped = false;
        self.construct.start(self.site)
    }

    /// The part that goes on alone, if one does; a PAR's parts go on side by side.
    #[inline(always)]
    pub(crate) fn part(&self) -> Option<&Frame>
        requires sound { (view self.now).sound ≡ true }
        ensures { MatchOption result (GoesAlone self.now) (λ part. IsPart part.now self.now) }
    {
        match &self.construct {
            Construct::Seq(seq) => Some(&seq.parts[seq.at]),
            Construct::If(branching) => match branching.taken {
                Some(at) => Some(&branching.branches[at].body),
                None => None,
            },
            Construct::While(looping) if looping.turning => Some(&looping.body),
            Construct::Count(counting) if counting.turn.is_some() => Some(&counting.body),
            Construct::Alt(alt) => match alt.choice {
                Choice::Within(at) => Some(&alt.guards[at].body),
                _ => None,
            },
            _ => None,
        }
    }
}

impl Construct<Frame> {
    /// Begins at this site, whatever went on before; answers what it begins with.
    #[cycle(start)]
    fn start(&mut self, site: u16) -> Outcome
        requires sound { is_sound (shape self.old) ≡ true }
        ensures begun { unstopped site (shape self.new) ≡ begun (plan_of site (shape self.old)) }
        ensures outcome { result ≡ first_outcome (plan_of site (shape self.old)) }
    {
        match self {
            Construct::Skip | Construct::EmptySeq | Construct::EmptyPar => Outcome::Quiet { site },
            Construct::Stop => Outcome::Nothing,
            Construct::Set(set) => set.begins(site),
            Construct::Send(output) => {
                output.begun = false;
                Outcome::Other
            }
            Construct::Receive(input) => {
                input.begun = false;
                Outcome::Other
            }
            Construct::Stopch { .. } => Outcome::Other,
            Construct::Seq(seq) => seq.start(),
            Construct::Par(par) => par.start(),
            Construct::If(branching) => {
                branching.taken = None;
                Outcome::Quiet { site }
            }
            Construct::While(looping) => {
                looping.turning = false;
                Outcome::Quiet { site }
            }
            Construct::Count(counting) => {
                counting.turn = None;
                Outcome::Quiet { site }
            }
            Construct::Alt(alt) => {
                alt.choice = Choice::Open;
                Outcome::Other
            }
        }
    }
}

impl Assignment {
    /// What it begins with at this site.
    pub(crate) fn begins(&self, site: u16) -> Outcome
        ensures { result ≡ fresh_outcome (plan_of site (assigned_shape self.now)) }
    {
        match self.value {
            Value::Int(_) => Outcome::Quiet { site },
            Value::Bytes(_) => Outcome::Other,
        }
    }
}

impl Seq<Frame> {
    /// Begins with its first part, whatever went on before; answers what it begins with.
    #[cycle(start)]
    fn start(&mut self) -> Outcome
        requires sound { is_sound (seq_shape self.old) ≡ true }
        ensures begun { (i : ℕ) →
            unstopped i (seq_shape self.new) ≡ begun (plan_of i (seq_shape self.old)) }
        ensures outcome { (i : ℕ) → result ≡ first_outcome (plan_of i (seq_shape self.old)) }
    {
        self.at = 0;
        self.parts[0].start()
    }
}

impl Par<Frame> {
    /// Begins with all its parts, whatever went on before; answers what it begins with.
    #[cycle(start)]
    #[inline(never)]
    fn start(&mut self) -> Outcome
        requires sound { is_sound (par_shape self.old) ≡ true }
        ensures begun { (i : ℕ) →
            unstopped i (par_shape self.new) ≡ begun (plan_of i (par_shape self.old)) }
        ensures outcome { (i : ℕ) → result ≡ first_outcome (plan_of i (par_shape self.old)) }
    {
        for place in 0..self.tasks.len() {
            self.tasks[place].start();
        }
        Outcome::Other
    }
}

impl Task<Frame> {
    /// Begins, whatever went on before.
    #[cycle(start)]
    pub(crate) fn start(&mut self)
        requires sound { (view self.old.frame).sound ≡ true }
        ensures { shown self.new ≡ begun (whole self.old) }
    {
        self.begins = self.frame.start();
    }
}

//! How frames go on: one site does something.
ghost use Rattle.std.specs.Prelude.{◌≡◌, ◌<◌, ℕ, IfSome, length, true};
ghost use Rattle.vc_occam.specs.Frames.{all_sound, besides, is_sound, outcome_of, view};
ghost use Rattle.vc_occam.specs.Private.Frames.{CanGo, HasNext, HasTurned, Went, counting_shape, par_shape, seq_shape, shown, task_views, unstopped, views};
ghost use Rattle.vc_process.specs.Terms.{store};

use crate::find::part_with;
use crate::frame::{Choice, Construct, Count, Frame, Par, Seq, Task, Turn};
use crate::outcome::Outcome;
use crate::site_step::SiteStep;
use crate::variables::set_variable;
use vc_process::Datum;

impl Task<Frame> {
    /// A site of it does something; answers what it comes to.
    #[cycle(go)]
    #[inline(always)]
    pub(crate) fn go<S: SiteStep>(&mut self, step: &mut S, vars: &mut Vec<Datum>) -> Outcome
        requires can { CanGo (S.stands_for step.old) (shown self.old) vars.old.items }
        ensures went { Went (S.stands_for step.old) (shown self.old) (store vars.old.items) result
            (shown self.new) (store vars.new.items) }
        ensures begins { self.new.begins ≡ result }
        ensures length { length vars.new.items ≡ length vars.old.items }
    {
        let outcome = self.frame.go(step, vars);
        self.begins = outcome;
        outcome
    }
}

impl Frame {
    /// A site of it does something, and what is round that site goes on where it has ended; answers what it comes to.
    #[cycle(go)]
    pub(crate) fn go<S: SiteStep>(&mut self, step: &mut S, vars: &mut Vec<Datum>) -> Outcome
        requires can { CanGo (S.stands_for step.old) (view self.old) vars.old.items }
        ensures went { Went (S.stands_for step.old) (view self.old) (store vars.old.items) result
            (view self.new) (store vars.new.items) }
        ensures length { length vars.new.items ≡ length vars.old.items }
    {
        match &mut self.construct {
            Construct::Seq(seq) => {
                let outcome = seq.parts[seq.at].go(step, vars);
                if outcome.has_ended() {
                    return seq.next();
                }
                outcome
            }
            Construct::Par(par) => par.go(step, vars),
            Construct::If(branching) => match branching.taken {
                Some(at) => branching.branches[at].body.go(step, vars),
                None => step.act(self, vars),
            },
            Construct::While(looping) if looping.turning => {
                let outcome = looping.body.go(step, vars);
                if outcome.has_ended() {
                    looping.turning = false;
                    return Outcome::Quiet { site: self.site };
                }
                outcome
            }
            Construct::Count(counting) => match counting.turn {
                Some(_) => {
                    let outcome = counting.body.go(step, vars);
                    if outcome.has_ended() {
                        return counting.next(vars);
                    }
                    outcome
                }
                None => step.act(self, vars),
            },
            Construct::Alt(alt) => match alt.choice {
                Choice::Within(at) => alt.guards[at].body.go(step, vars),
                _ => step.act(self, vars),
            },
            _ => step.act(self, vars),
        }
    }
}

impl Seq<Frame> {
    /// Its part has ended: the next one begins, if there is one.
    #[inline(always)]
    pub(crate) fn next(&mut self) -> Outcome
        requires sound { is_sound (seq_shape self.old) ≡ true }
        ensures { HasNext (views self.old.parts.items) self.old.at result
            (views self.new.parts.items) self.new.at }
    {
        let next = self.at + 1;
        if next < self.parts.len() {
            self.at = next;
            return self.parts[next].start();
        }
        Outcome::Ended
    }
}

impl Par<Frame> {
    /// The part with the site goes on; answers what the PAR comes to.
    #[cycle(go)]
    #[inline(never)]
    fn go<S: SiteStep>(&mut self, step: &mut S, vars: &mut Vec<Datum>) -> Outcome
        requires can { (i : ℕ) × CanGo (S.stands_for step.old) (unstopped i (par_shape self.old))
            vars.old.items }
        ensures went { (i : ℕ) →
            CanGo (S.stands_for step.old) (unstopped i (par_shape self.old)) vars.old.items →
            Went (S.stands_for step.old) (unstopped i (par_shape self.old)) (store vars.old.items)
            result (unstopped i (par_shape self.new)) (store vars.new.items) }
        ensures length { length vars.new.items ≡ length vars.old.items }
    {
        let place = part_with(self.tasks.as_slice(), step.site());
        let outcome = self.tasks[place].go(step, vars);
        if outcome.has_ended() {
            return self.outcome();
        }
        Outcome::Other
    }

    /// What it comes to: it ends when all its parts have. The last one mostly goes on.
    fn outcome(&self) -> Outcome
        requires sound { all_sound (task_views self.now.tasks.items) ≡ true }
        ensures { result ≡
            outcome_of (besides (task_views self.now.tasks.items)) }
    {
        for behind in 0..self.tasks.len() {
            if !self.tasks[self.tasks.len() - 1 - behind].begins.has_ended() {
                return Outcome::Other;
            }
        }
        Outcome::Ended
    }
}

impl Count<Frame> {
    /// The turn that went on has ended: the next one begins, if there is one.
    #[inline(never)]
    fn next(&mut self, vars: &mut Vec<Datum>) -> Outcome
        requires sound { (view self.old.body.value).sound ≡ true }
        requires variable { self.old.var < length vars.old.items }
        ensures turned { IfSome self.old.turn
            (λ turn. HasTurned turn (counting_shape self.old) (store vars.old.items) result
            (counting_shape self.new) (store vars.new.items)) }
        ensures length { length vars.new.items ≡ length vars.old.items }
    {
        let Some(turn) = self.turn else {
            return Outcome::Ended;
        };
        if turn.index >= turn.last {
            return Outcome::Ended;
        }
        let index = turn.index + 1;
        set_variable(vars, self.var, Datum::Int(index));
        self.turn = Some(Turn {
            index,
            last: turn.last,
        });
        self.body.start()
    }
}

//! What a frame's own site does, where none of its parts goes on.
ghost use Rattle.std.specs.Prelude.{◌≡◌, ◌<◌, ℕ, length, map, true};
ghost use Rattle.vc_occam.specs.Traces.{set};
ghost use Rattle.vc_occam.specs.declared.outcome.Outcome.TheVariants.{Ended};
ghost use Rattle.vc_occam.specs.Frames.{is_at_itself, is_sound};
ghost use Rattle.vc_occam.specs.Private.Frames.{Acted, CanGo, HasGot, HasGuard, Went, alt_shape, assigned_shape, branching_shape, chosen_from, count_turn, counting_shape, looping_shape, seen_guards, shape, unstopped};
ghost use Rattle.vc_occam.specs.Private.SiteSteps.{message_at, quiet_at};
ghost use Rattle.vc_process.specs.Messages.{number_bytes, received};
ghost use Rattle.vc_process.specs.Terms.{as_test, exp, given, store};
ghost use Rattle.vc_process.specs.Values.{assigned_bytes, value_of};

use crate::frame::{
    Alt, Assignment, Branch, Choice, Construct, Count, Frame, If, Input, Turn, While,
};
use crate::outcome::Outcome;
use crate::variables::{put, put_number, set_variable};
use std::alloc::Global;
use vc_packets::Bytes;
use vc_process::Datum;

impl Construct<Frame> {
    /// A step without a communication at its own site; None where a fault, or an IF without a true condition, stops it for good.
    #[inline(always)]
    pub(crate) fn step(
        &mut self,
        assigned: &mut Option<Datum>,
        vars: &mut Vec<Datum>,
    ) -> Option<Outcome>
        requires itself { is_at_itself (shape self.old) ≡ true }
        requires can { (i : ℕ) × CanGo (quiet_at i assigned.old) (unstopped i (shape self.old))
            vars.old.items }
        ensures acted { (i : ℕ) →
            CanGo (quiet_at i assigned.old) (unstopped i (shape self.old)) vars.old.items →
            Acted i (shape self.old) (store vars.old.items) result (shape self.new)
            (store vars.new.items) }
        ensures length { length vars.new.items ≡ length vars.old.items }
    {
        match self {
            Construct::Set(set) => set.act(assigned, vars),
            Construct::Send(_) => None,
            Construct::If(branching) => branching.act(vars),
            Construct::While(looping) => looping.act(vars),
            Construct::Count(counting) => counting.act(vars),
            _ => Some(Outcome::Ended),
        }
    }

    /// The message comes that its own site waits for.
    #[inline(always)]
    pub(crate) fn receive(&mut self, message: Bytes, vars: &mut Vec<Datum>) -> Outcome
        requires itself { is_at_itself (shape self.old) ≡ true }
        requires can { (i : ℕ) × CanGo (message_at i message) (unstopped i (shape self.old))
            vars.old.items }
        ensures received { (i : ℕ) →
            CanGo (message_at i message) (unstopped i (shape self.old)) vars.old.items →
            Went (message_at i message) (unstopped i (shape self.old)) (store vars.old.items) result
            (unstopped i (shape self.new)) (store vars.new.items) }
        ensures length { length vars.new.items ≡ length vars.old.items }
    {
        match self {
            Construct::Receive(input) => input.take(message, vars),
            Construct::Alt(alt) => match alt.choice {
                Choice::Taken(place) => alt.take(place, message, vars),
                _ => Outcome::Nothing,
            },
            _ => Outcome::Nothing,
        }
    }
}

impl Assignment {
    /// Assigns a number that it works out, or the bytes that come along; None at a fault.
    fn act(&self, assigned: &mut Option<Datum>, vars: &mut Vec<Datum>) -> Option<Outcome>
        requires variable { self.now.var < length vars.old.items }
        requires assigned { assigned.old ≡
            assigned_bytes (given self.now.value) (store vars.old.items) }
        ensures acted { (i : ℕ) →
            Acted i (assigned_shape self.now) (store vars.old.items) result
            (assigned_shape self.now) (store vars.new.items) }
        ensures length { length vars.new.items ≡ length vars.old.items }
    {
        // a number by itself, so that no room for bytes is copied with it
        match self.value.assigned(assigned, vars)? {
            Datum::Int(number) => set_variable(vars, self.var, Datum::Int(number)),
            bytes => set_variable(vars, self.var, bytes),
        }
        Some(Outcome::Ended)
    }
}

impl Input {
    /// Its message comes.
    #[inline(always)]
    pub(crate) fn take(&self, message: Bytes, vars: &mut Vec<Datum>) -> Outcome
        requires variable { self.now.var < length vars.old.items }
        ensures ended { result ≡ Ended }
        ensures value { store vars.new.items ≡ set (store vars.old.items) self.now.var
            (received (store vars.old.items self.now.var) message) }
        ensures length { length vars.new.items ≡ length vars.old.items }
    {
        put(vars, self.var, message);
        Outcome::Ended
    }

    /// The message comes that carries a number.
    #[inline(always)]
    pub(crate) fn take_number(&self, alloc: Global, number: i64, vars: &mut Vec<Datum>) -> Outcome
        requires variable { self.now.var < length vars.old.items }
        ensures ended { result ≡ Ended }
        ensures value { store vars.new.items ≡ set (store vars.old.items) self.now.var
            (received (store vars.old.items self.now.var) (number_bytes number)) }
        ensures length { length vars.new.items ≡ length vars.old.items }
    {
        put_number(alloc, vars, self.var, number);
        Outcome::Ended
    }
}

impl If<Frame> {
    /// Takes the first branch whose condition is true; None where there is none, or a condition before it is a fault.
    fn act(&mut self, vars: &[Datum]) -> Option<Outcome>
        requires itself { is_at_itself (branching_shape self.old) ≡ true }
        requires sound { is_sound (branching_shape self.old) ≡ true }
        ensures acted { (i : ℕ) →
            Acted i (branching_shape self.old) (store vars.now) result
            (branching_shape self.new) (store vars.now) }
    {
        let at = chosen(self.branches.as_slice(), vars)?;
        self.taken = Some(at);
        Some(self.branches[at].body.start())
    }
}

impl While<Frame> {
    /// Begins its body where its condition is true, and else ends; None at a fault.
    fn act(&mut self, vars: &[Datum]) -> Option<Outcome>
        requires itself { is_at_itself (looping_shape self.old) ≡ true }
        requires sound { is_sound (looping_shape self.old) ≡ true }
        ensures acted { (i : ℕ) →
            Acted i (looping_shape self.old) (store vars.now) result
            (looping_shape self.new) (store vars.now) }
    {
        if !self.cond.holds(vars)? {
            return Some(Outcome::Ended);
        }
        self.turning = true;
        Some(self.body.start())
    }
}

impl Count<Frame> {
    /// Begins its first turn, if it has one, and else ends; None at a fault.
    fn act(&mut self, vars: &mut Vec<Datum>) -> Option<Outcome>
        requires itself { is_at_itself (counting_shape self.old) ≡ true }
        requires sound { is_sound (counting_shape self.old) ≡ true }
        requires variable { self.old.var < length vars.old.items }
        ensures acted { (i : ℕ) →
            Acted i (counting_shape self.old) (store vars.old.items) result
            (counting_shape self.new) (store vars.new.items) }
        ensures length { length vars.new.items ≡ length vars.old.items }
    {
        let Some(turn) = self.first_turn(vars)? else {
            return Some(Outcome::Ended);
        };
        set_variable(vars, self.var, Datum::Int(turn.index));
        self.turn = Some(turn);
        Some(self.body.start())
    }

    /// The first turn, if there is one; None of both is a fault.
    fn first_turn(&self, vars: &[Datum]) -> Option<Option<Turn>>
        ensures { result ≡
            count_turn (value_of (exp self.now.base) (store vars.now))
            (value_of (exp self.now.count) (store vars.now)) }
    {
        let index = self.base.value(vars)?;
        let count = self.count.value(vars)?;
        if count < 0 {
            return None;
        }
        if count == 0 {
            return Some(None);
        }
        let last = index.checked_add(count - 1)?;
        Some(Some(Turn { index, last }))
    }
}

impl Alt<Frame> {
    /// The message comes of the guard at a place, whose body begins.
    pub(crate) fn take(&mut self, place: usize, message: Bytes, vars: &mut Vec<Datum>) -> Outcome
        requires sound { is_sound (alt_shape self.old) ≡ true }
        requires there { HasGuard (seen_guards self.old) place (length vars.old.items) }
        ensures got { HasGot place message (seen_guards self.old) (store vars.old.items) result
            (alt_shape self.new) (store vars.new.items) }
        ensures length { length vars.new.items ≡ length vars.old.items }
    {
        put(vars, self.guards[place].var, message);
        self.choice = Choice::Within(place);
        self.guards[place].body.start()
    }
}

/// The place of the first branch whose condition is true, before a condition that is a fault.
fn chosen(branches: &[Branch<Frame>], vars: &[Datum]) -> Option<usize>
    ensures { result ≡ chosen_from 0 (map (λ b. as_test b.cond) branches.now) (store vars.now) }
{
    for place in 0..branches.len() {
        if branches[place].cond.holds(vars)? {
            return Some(place);
        }
    }
    None
}

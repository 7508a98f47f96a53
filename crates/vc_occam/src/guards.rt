//! The guards of an ALT that runs.
ghost use Rattle.std.specs.Prelude.{◌≡◌, ◌<◌, ◌++◌, ◌↔◌, IsTrue, MatchOption, OnOk, false, length, map, slice_get, true};
ghost use Rattle.std.specs.List.{Contains};
ghost use Rattle.vc_occam.specs.declared.frame.Frame.TheViews.{out-Frame};
ghost use Rattle.vc_occam.specs.declared.moves.Move.TheVariants.{Choose};
ghost use Rattle.vc_occam.specs.First.{all_decided, is_true};
ghost use Rattle.vc_occam.specs.Frames.{guards_of, view};
ghost use Rattle.vc_occam.specs.Private.Frames.{IsAtItself, IsOpenAlt, choice_of, is_open_alt, moves_of, seen_guard};
ghost use Rattle.vc_process.specs.Terms.{store, as_test};
ghost use Rattle.vc_process.specs.Values.{holds};

use crate::frame::{Choice, Construct, Frame, Guard};
use crate::moves::Move;
use sqlite_items::Items;
use vc_packets::Memory;
use vc_process::Datum;

impl Frame {
    /// The guards of an ALT that has taken none of them.
    #[inline(always)]
    pub(crate) fn open_guards(&self) -> Option<&[Guard<Frame>]>
        requires alone { IsAtItself self.now }
        requires sound { (view self.now).sound ≡ true }
        ensures { MatchOption result (is_open_alt (view self.now).rest ≡ false)
            (λ guards. IsOpenAlt (out-Frame self.now).site guards.now (view self.now).rest) }
    {
        if self.stopped {
            return None;
        }
        match &self.construct {
            Construct::Alt(alt) => match alt.choice {
                Choice::Open => Some(alt.guards.as_slice()),
                _ => None,
            },
            _ => None,
        }
    }
}

impl Guard<Frame> {
    /// Whether its condition is true.
    pub(crate) fn is_open(&self, vars: &[Datum]) -> bool
        ensures { result ≡ is_true (holds (as_test self.now.cond) (store vars.now)) }
    {
        match self.cond.holds(vars) {
            Some(held) => held,
            None => false,
        }
    }

    /// The move that takes it. `place` is its place in its ALT.
    fn taking(&self, site: u16, place: u16) -> Move
        ensures { result ≡ Choose site place self.now.chan }
    {
        Move::Choose {
            site,
            guard: place,
            chan: self.chan,
        }
    }

    /// Whether the move takes it, its condition being true.
    fn is_taken(&self, made: &Move, site: u16, place: u16, vars: &[Datum]) -> bool
        ensures { IsTrue result ↔
            Contains (choice_of site place (seen_guard self.now) (store vars.now)) made.now }
    {
        self.is_open(vars) && self.taking(site, place) == *made
    }
}

/// Whether no condition is a fault.
pub(crate) fn are_decided(guards: &[Guard<Frame>], vars: &[Datum]) -> bool
    ensures { result ≡ all_decided (guards_of (map seen_guard guards.now)) (store vars.now) }
{
    for guard in guards {
        if guard.cond.holds(vars).is_none() {
            return false;
        }
    }
    true
}

/// Adds the moves that take a guard whose condition is true, where no condition is a fault.
pub(crate) fn push_choices(
    guards: &[Guard<Frame>],
    found: &mut Items<Move>,
    site: u16,
    vars: &[Datum],
) -> Result<(), Memory>
    requires { length guards.now < 65536 }
    ensures { OnOk result (found.new ≡
        found.old ++ moves_of site (map seen_guard guards.now) (store vars.now)) }
{
    if !are_decided(guards, vars) {
        return Ok(());
    }
    for place in 0..guards.len() {
        if guards[place].is_open(vars) {
            found.push(guards[place].taking(site, place as u16))?;
        }
    }
    Ok(())
}

/// The first move that takes a guard whose condition is true, where no condition is a fault.
pub(crate) fn first_choice(guards: &[Guard<Frame>], site: u16, vars: &[Datum]) -> Option<Move>
    requires { length guards.now < 65536 }
    ensures { result ≡ slice_get (moves_of site (map seen_guard guards.now) (store vars.now)) 0 }
{
    if !are_decided(guards, vars) {
        return None;
    }
    for place in 0..guards.len() {
        if guards[place].is_open(vars) {
            return Some(guards[place].taking(site, place as u16));
        }
    }
    None
}

/// Whether the move takes a guard whose condition is true, where no condition is a fault.
pub(crate) fn has_choice(guards: &[Guard<Frame>], made: &Move, site: u16, vars: &[Datum]) -> bool
    requires { length guards.now < 65536 }
    ensures { IsTrue result ↔
        Contains (moves_of site (map seen_guard guards.now) (store vars.now)) made.now }
{
    if !are_decided(guards, vars) {
        return false;
    }
    for place in 0..guards.len() {
        if guards[place].is_taken(made, site, place as u16, vars) {
            return true;
        }
    }
    false
}

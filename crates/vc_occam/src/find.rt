//! Where a site is among frames, and what it is about to do there.
ghost use Rattle.std.specs.Prelude.{◌≡◌, ℕ, ◌<◌, ◌↔◌, IfOk, IfSome, IsTrue, MatchOption, Some, length, true};
ghost use Rattle.std.specs.List.{Contains};
ghost use Rattle.vc_occam.specs.Frames.{plans_of, rest_of, view};
ghost use Rattle.vc_occam.specs.Private.Frames.{HasNothingAt, IsAtItself, StandsAt, assigned_at, output_shape, own_moves, place_with, shown, task_views, whole};
ghost use Rattle.vc_occam.specs.Private.Sites.{InPreorder, PartsInPreorder};
ghost use Rattle.vc_occam.specs.States.{carried, output_at};
ghost use Rattle.vc_process.specs.Messages.{number_bytes};
ghost use Rattle.vc_process.specs.Terms.{store};

use crate::frame::{Construct, Frame, Output, Task};
use crate::guards::has_choice;
use crate::moves::{Move, site_of};
use std::alloc::Global;
use vc_packets::{Bytes, Memory};
use vc_process::{Datum, Value};

/// For each length up to 16 the least number over 2^31 divided by it: a number of 16 bits times this, without its last 31 bits, is the
/// number divided by the length.
const INVERSES: [u32; 17] = [
    0,
    2_147_483_649,
    1_073_741_825,
    715_827_883,
    536_870_913,
    429_496_730,
    357_913_942,
    306_783_379,
    268_435_457,
    238_609_295,
    214_748_365,
    195_225_787,
    178_956_971,
    165_191_050,
    153_391_690,
    143_165_577,
    134_217_729,
];

impl Task<Frame> {
    /// The frame that a site is at, down the parts that go on; None where the part that has it has ended.
    #[cycle(find)]
    pub(crate) fn find(&self, site: u16) -> Option<&Frame>
        requires sound { (shown self.now).sound ≡ true }
        requires in_preorder { InPreorder (whole self.now) }
        ensures { MatchOption result
            (HasNothingAt site (shown self.now).rest)
            (λ frame. StandsAt site frame.now (shown self.now).rest) }
    {
        if self.begins.has_ended() {
            return None;
        }
        self.frame.find(site)
    }

    /// Whether the move is one that it can begin with.
    pub(crate) fn begins_with(&self, made: &Move, vars: &[Datum]) -> bool
        requires sound { (shown self.now).sound ≡ true }
        requires in_preorder { InPreorder (whole self.now) }
        ensures { IsTrue result ↔
            Contains (own_moves (shown self.now) vars.now) made.now }
    {
        match self.find(site_of(made)) {
            Some(frame) => frame.has_move(made, vars),
            None => false,
        }
    }

    /// The number of the output that can begin at a site; None where it is one of bytes, or there is none.
    pub(crate) fn number(&self, site: u16, vars: &[Datum]) -> Option<i64>
        requires sound { (shown self.now).sound ≡ true }
        requires in_preorder { InPreorder (whole self.now) }
        ensures { IfSome result (λ number.
            carried (output_at site (shown self.now).rest (store vars.now)) ≡
            Some (number_bytes number)) }
    {
        self.find(site)?.own_number(site, vars)
    }

    /// The message of the output that can begin at a site, if there is one.
    pub(crate) fn message(
        &self,
        alloc: Global,
        site: u16,
        vars: &[Datum],
    ) -> Result<Option<Bytes>, Memory>
        requires sound { (shown self.now).sound ≡ true }
        requires in_preorder { InPreorder (whole self.now) }
        ensures { IfOk result (λ sent. sent ≡
            carried (output_at site (shown self.now).rest (store vars.now))) }
    {
        match self.find(site) {
            Some(frame) => frame.own_message(alloc, site, vars),
            None => Ok(None),
        }
    }

    /// The bytes that the assignment at a site is about to assign; None where it assigns a number, or none begins there.
    #[inline(never)]
    pub(crate) fn assigned(
        &self,
        alloc: Global,
        site: u16,
        vars: &[Datum],
    ) -> Result<Option<Datum>, Memory>
        requires sound { (shown self.now).sound ≡ true }
        requires in_preorder { InPreorder (whole self.now) }
        ensures { IfOk result (λ value. value ≡
            assigned_at site (shown self.now).rest (store vars.now)) }
    {
        match self.find(site) {
            Some(frame) => frame.own_assigned(alloc, site, vars),
            None => Ok(None),
        }
    }
}

impl Frame {
    /// The frame that a site is at: this one, or one within it, down the parts that go on; None where the part that has it has ended.
    #[cycle(find)]
    fn find(&self, site: u16) -> Option<&Frame>
        requires sound { (view self.now).sound ≡ true }
        requires in_preorder { InPreorder (view self.now).plan }
        ensures { MatchOption result (HasNothingAt site (view self.now).rest)
            (λ frame. StandsAt site frame.now (view self.now).rest) }
    {
        if let Some(part) = self.part() {
            return part.find(site);
        }
        match &self.construct {
            Construct::Par(par) => par.tasks[part_with(par.tasks.as_slice(), site)].find(site),
            _ => Some(self),
        }
    }

    /// The number of the output that can begin at its own site, if that is this site.
    fn own_number(&self, site: u16, vars: &[Datum]) -> Option<i64>
        requires alone { IsAtItself self.now }
        ensures { IfSome result (λ number.
            carried (output_at site (view self.now).rest (store vars.now)) ≡
            Some (number_bytes number)) }
    {
        if self.site != site || self.stopped {
            return None;
        }
        match &self.construct {
            Construct::Send(output) => output.number(vars),
            _ => None,
        }
    }

    /// The message of the output that can begin at its own site, if that is this site.
    fn own_message(&self, alloc: Global, site: u16, vars: &[Datum]) -> Result<Option<Bytes>, Memory>
        requires alone { IsAtItself self.now }
        ensures { IfOk result (λ sent. sent ≡
            carried (output_at site (view self.now).rest (store vars.now))) }
    {
        if self.site != site || self.stopped {
            return Ok(None);
        }
        match &self.construct {
            Construct::Send(output) => output.message(alloc, vars),
            _ => Ok(None),
        }
    }

    /// The bytes that the assignment at its own site is about to assign, if that is this site.
    fn own_assigned(
        &self,
        alloc: Global,
        site: u16,
        vars: &[Datum],
    ) -> Result<Option<Datum>, Memory>
        requires alone { IsAtItself self.now }
        ensures { IfOk result (λ value. value ≡
            assigned_at site (view self.now).rest (store vars.now)) }
    {
        if self.site != site || self.stopped {
            return Ok(None);
        }
        match &self.construct {
            Construct::Set(set) => set.value.assigned_bytes(alloc, vars),
            _ => Ok(None),
        }
    }

    /// Whether the move is one of its own site.
    fn has_move(&self, made: &Move, vars: &[Datum]) -> bool
        requires alone { IsAtItself self.now }
        requires sound { (view self.now).sound ≡ true }
        ensures { IsTrue result ↔ Contains (own_moves (view self.now) vars.now) made.now }
    {
        match self.open_guards() {
            Some(guards) => has_choice(guards, made, self.site, vars),
            None => self.own_move(vars) == Some(*made),
        }
    }
}

impl Output {
    /// The number with which it can begin; None where it is one of bytes, or cannot begin.
    fn number(&self, vars: &[Datum]) -> Option<i64>
        ensures { IfSome result (λ number. (site : ℕ) →
            carried (output_at site (rest_of site (output_shape self.now)) (store vars.now)) ≡
            Some (number_bytes number)) }
    {
        if self.begun {
            return None;
        }
        match &self.value {
            Value::Int(number) => number.value(vars),
            Value::Bytes(_) => None,
        }
    }

    /// The message with which it can begin, if it can.
    fn message(&self, alloc: Global, vars: &[Datum]) -> Result<Option<Bytes>, Memory>
        ensures { IfOk result (λ sent. (site : ℕ) → sent ≡
            carried (output_at site (rest_of site (output_shape self.now)) (store vars.now))) }
    {
        if self.begun {
            return Ok(None);
        }
        match self.value.datum(alloc, vars)? {
            Some(datum) => Ok(Some(datum.into_message(alloc)?)),
            None => Ok(None),
        }
    }
}

/// The place of the part that has a site: the last that begins at this site or before it. It is looked for first where it is
/// if all parts are as long as the first one, and else by halving.
pub(crate) fn part_with(tasks: &[Task<Frame>], site: u16) -> usize
    requires { PartsInPreorder (plans_of (task_views tasks.now)) }
    ensures { result ≡ place_with site (task_views tasks.now) }
{
    let guess = place_by_length(tasks, site);
    if begins_last(guess, tasks, site) {
        return guess;
    }
    place_by_halving(tasks, site)
}

/// The place of the part that has a site, if all parts are as long as the first one.
fn place_by_length(tasks: &[Task<Frame>], site: u16) -> usize {
    if tasks.len() < 2 {
        return 0;
    }
    if tasks.len() == 2 {
        return usize::from(tasks[1].frame.site <= site);
    }
    let first = tasks[0].frame.site;
    let length = tasks[1].frame.site.saturating_sub(first);
    quotient(site.saturating_sub(first), length)
}

/// How often a number holds a length; 0 where the length is 0. What is read at that place waits for it, and a division takes longer than
/// a multiplication (bench/lab).
fn quotient(number: u16, length: u16) -> usize {
    match INVERSES.get(usize::from(length)) {
        Some(inverse) => ((u64::from(number) * u64::from(*inverse)) >> 31) as usize,
        None => usize::from(number.checked_div(length).unwrap_or(0)),
    }
}

/// Whether the part at a place is the last that begins at a site or before it.
fn begins_last(at: usize, tasks: &[Task<Frame>], site: u16) -> bool
    requires { PartsInPreorder (plans_of (task_views tasks.now)) }
    ensures { IsTrue result → at ≡ place_with site (task_views tasks.now) }
{
    if at >= tasks.len() || tasks[at].frame.site > site {
        return false;
    }
    tasks.len() - at == 1 || tasks[at + 1].frame.site > site
}

/// The place of the part that has a site, by halving.
fn place_by_halving(tasks: &[Task<Frame>], site: u16) -> usize
    requires { PartsInPreorder (plans_of (task_views tasks.now)) }
    ensures { result ≡ place_with site (task_views tasks.now) }
{
    let later = tasks.partition_point(|task| task.frame.site <= site);
    later.saturating_sub(1)
}

//! What frames may begin with, and what they wait for.
ghost use Rattle.std.specs.Prelude.{◌≡◌, ℕ, ◌++◌, ◌∷◌, [], IfSome, OnOk, false, true};
ghost use Rattle.vc_occam.specs.declared.frame.Frame.TheViews.{out-Frame};
ghost use Rattle.vc_occam.specs.First.{first_moves, own};
ghost use Rattle.vc_occam.specs.Frames.{all_sound, besides, rest_of, view};
ghost use Rattle.vc_occam.specs.MoveSites.{from_site};
ghost use Rattle.vc_occam.specs.declared.moves.Move.TheVariants as move;
ghost use Rattle.vc_occam.specs.Private.MoveSites.{MeetAlone};
ghost use Rattle.vc_occam.specs.Private.Frames.{GoesAlone, IsAtItself, first_waits, innermost, input_shape, is_open_alt, listed, output_shape, own_moves, shown, task_views, waits_of, whole};
ghost use Rattle.vc_occam.specs.Private.Sites.{InPreorder};
ghost use Rattle.vc_occam.specs.States.{waiting};
ghost use Rattle.vc_process.specs.Terms.{store};
ghost use Rattle.vc_process.specs.Usage.{among};
ghost use Rattle.vc_process.specs.Values.{Store};

use crate::find::part_with;
use crate::frame::{Choice, Construct, Frame, Input, Output, Par, Task};
use crate::guards::{first_choice, push_choices};
use crate::inner_channels::InnerChannels;
use crate::moves::Move;
use crate::outcome::Outcome;
use crate::waits::Waits;
use sqlite_items::Items;
use vc_packets::Memory;
use vc_process::Datum;

impl Task<Frame> {
    /// Adds the moves that it can begin with, in order of guard.
    #[cycle(moves)]
    #[inline(always)]
    pub(crate) fn push_moves(&self, found: &mut Items<Move>, vars: &[Datum]) -> Result<(), Memory>
        requires { (shown self.now).sound ≡ true }
        ensures { OnOk result (found.new ≡
            found.old ++ own_moves (shown self.now) vars.now) }
    {
        match self.begins {
            Outcome::Ended => Ok(()),
            Outcome::Nothing => Ok(()),
            Outcome::Quiet { site } => {
                found.push(Move::Quiet { site })?;
                Ok(())
            }
            Outcome::Other => self.frame.push_moves(found, vars),
        }
    }

    /// The meeting that it comes to alone, where it is at a PAR of two parts of which one outputs what the other inputs; None promises
    /// nothing.
    pub(crate) fn only_meeting(&self, inside: &InnerChannels, vars: &[Datum]) -> Option<Move>
        requires { (shown self.now).sound ≡ true }
        ensures { IfSome result (λ met.
            first_moves (among inside.now) (shown self.now).rest (store vars.now) ≡ met ∷ []) }
    {
        match self.begins {
            Outcome::Other => self.frame.only_meeting(inside, vars),
            _ => None,
        }
    }

    /// The frame within it that goes on, which has all its moves; None where it begins with a step, or has ended.
    #[inline(always)]
    fn innermost(&self) -> Option<&Frame>
        requires { (shown self.now).sound ≡ true }
        ensures { IfSome result (λ frame. (e : Store) →
            own (shown self.now).rest e ≡ own (view frame.now).rest e) }
    {
        match self.begins {
            Outcome::Other => Some(self.frame.innermost()),
            _ => None,
        }
    }

    /// The first move at a site from this one on.
    #[cycle(first)]
    pub(crate) fn first_from(&self, site: u16, vars: &[Datum]) -> Option<Move>
        requires sound { (shown self.now).sound ≡ true }
        requires in_preorder { InPreorder (whole self.now) }
        ensures { result ≡
            from_site site (own_moves (shown self.now) vars.now) }
    {
        match self.begins {
            Outcome::Ended => None,
            Outcome::Nothing => None,
            _ => self.frame.first_from(site, vars),
        }
    }

    /// The first of its sites that waits for this, if one does.
    #[cycle(waits)]
    pub(crate) fn waits_on(&self, wanted: Waits) -> Option<u16>
        requires { (shown self.now).sound ≡ true }
        ensures { result ≡ first_waits wanted (waiting (shown self.now).rest) }
    {
        if self.begins.has_ended() {
            return None;
        }
        self.frame.waits_on(wanted)
    }
}

impl Par<Frame> {
    /// The meeting of two parts, where it has no others and one outputs what the other inputs; None promises nothing.
    fn only_meeting(&self, inside: &InnerChannels, vars: &[Datum]) -> Option<Move>
        requires { all_sound (task_views self.now.tasks.items) ≡ true }
        ensures { IfSome result (λ met.
            first_moves (among inside.now) (besides (task_views self.now.tasks.items))
            (store vars.now) ≡
            met ∷ []) }
    {
        if self.tasks.len() != 2 {
            return None;
        }
        let first = self.tasks[0].innermost()?;
        let second = self.tasks[1].innermost()?;
        match first.meeting_with(second, inside, vars) {
            Some(met) => Some(met),
            None => second.meeting_with(first, inside, vars),
        }
    }
}

impl Frame {
    /// Adds the moves that it can begin with, in order of guard.
    #[cycle(moves)]
    fn push_moves(&self, found: &mut Items<Move>, vars: &[Datum]) -> Result<(), Memory>
        requires { (view self.now).sound ≡ true }
        ensures { OnOk result (found.new ≡ found.old ++ own_moves (view self.now) vars.now) }
    {
        if let Some(part) = self.part() {
            return part.push_moves(found, vars);
        }
        if let Construct::Par(par) = &self.construct {
            for task in par.tasks.as_slice() {
                task.push_moves(found, vars)?;
            }
            return Ok(());
        }
        if let Some(guards) = self.open_guards() {
            return push_choices(guards, found, self.site, vars);
        }
        if let Some(made) = self.own_move(vars) {
            found.push(made)?;
        }
        Ok(())
    }

    /// The meeting that it comes to alone, where it is at a PAR of two parts of which one outputs what the other inputs; None promises
    /// nothing.
    fn only_meeting(&self, inside: &InnerChannels, vars: &[Datum]) -> Option<Move>
        requires { (view self.now).sound ≡ true }
        ensures { IfSome result (λ met.
            first_moves (among inside.now) (view self.now).rest (store vars.now) ≡ met ∷ []) }
    {
        match &self.innermost().construct {
            Construct::Par(par) => par.only_meeting(inside, vars),
            _ => None,
        }
    }

    /// The meeting of its output with the input of another frame inside the node, where each has no other move; None promises nothing.
    #[inline(always)]
    fn meeting_with(&self, receiver: &Frame, inside: &InnerChannels, vars: &[Datum]) -> Option<Move>
        ensures { IfSome result
            (MeetAlone (among inside.now) (own_moves (view self.now) vars.now)
            (own_moves (view receiver.now) vars.now)) }
    {
        let chan = receiver.wanted_on()?;
        if inside.contains(chan) && self.offers_on(chan, vars) {
            return Some(Move::Inner {
                sender: self.site,
                receiver: receiver.site,
                guard: None,
                chan,
            });
        }
        None
    }

    /// The channel of an input that it begins with.
    #[inline(always)]
    fn wanted_on(&self) -> Option<u16>
        ensures { IfSome result (λ chan. (e : Store) →
            own (view self.now).rest e ≡ move.Want (out-Frame self.now).site chan ∷ []) }
    {
        match &self.construct {
            Construct::Receive(input) if !self.stopped && !input.begun => Some(input.chan),
            _ => None,
        }
    }

    /// Whether it begins with an output on a channel.
    #[inline(always)]
    fn offers_on(&self, chan: u16, vars: &[Datum]) -> bool
        ensures { result ≡ true →
            own_moves (view self.now) vars.now ≡ move.Offer (out-Frame self.now).site chan ∷ [] }
    {
        match &self.construct {
            Construct::Send(output) => !self.stopped && output.begins_on(chan, vars),
            _ => false,
        }
    }

    /// The frame within it that goes on, down to one that is at itself, or at a PAR.
    fn innermost(&self) -> &Frame
        requires { (view self.now).sound ≡ true }
        ensures sound { (view result.now).sound ≡ true }
        ensures alone { GoesAlone result.now }
        ensures rest { innermost (view self.now).rest ≡ innermost (view result.now).rest }
    {
        match self.part() {
            Some(part) => part.innermost(),
            None => self,
        }
    }

    /// The move of its own site, where it is no ALT that has taken no guard.
    #[inline(always)]
    pub(crate) fn own_move(&self, vars: &[Datum]) -> Option<Move>
        requires alone { IsAtItself self.now }
        requires decided { is_open_alt (view self.now).rest ≡ false }
        ensures { own_moves (view self.now) vars.now ≡ listed result }
    {
        let site = self.site;
        if self.stopped {
            return None;
        }
        match &self.construct {
            Construct::Stop => None,
            Construct::Alt(_) => None,
            Construct::Send(output) => output.own_move(site, vars),
            Construct::Receive(input) => input.own_move(site),
            Construct::Stopch { chan } => Some(Move::Stopch { site, chan: *chan }),
            _ => Some(Move::Quiet { site }),
        }
    }

    /// The first move at a site from this one on: no part of a PAR before the one that has the site has any.
    #[cycle(first)]
    fn first_from(&self, site: u16, vars: &[Datum]) -> Option<Move>
        requires sound { (view self.now).sound ≡ true }
        requires in_preorder { InPreorder (view self.now).plan }
        ensures { result ≡ from_site site (own_moves (view self.now) vars.now) }
    {
        if let Some(part) = self.part() {
            return part.first_from(site, vars);
        }
        if let Construct::Par(par) = &self.construct {
            let tasks = par.tasks.as_slice();
            for place in part_with(tasks, site)..tasks.len() {
                if let Some(made) = tasks[place].first_from(site, vars) {
                    return Some(made);
                }
            }
            return None;
        }
        if self.site < site {
            return None;
        }
        match self.open_guards() {
            Some(guards) => first_choice(guards, self.site, vars),
            None => self.own_move(vars),
        }
    }

    /// The first of its sites that waits for this, if one does.
    #[cycle(waits)]
    fn waits_on(&self, wanted: Waits) -> Option<u16>
        requires { (view self.now).sound ≡ true }
        ensures { result ≡ first_waits wanted (waiting (view self.now).rest) }
    {
        if let Some(part) = self.part() {
            return part.waits_on(wanted);
        }
        if let Construct::Par(par) = &self.construct {
            for task in par.tasks.as_slice() {
                if let Some(site) = task.waits_on(wanted) {
                    return Some(site);
                }
            }
            return None;
        }
        if self.waits() == Some(wanted) {
            return Some(self.site);
        }
        None
    }

    /// What its own site waits for.
    pub(crate) fn waits(&self) -> Option<Waits>
        requires alone { IsAtItself self.now }
        requires sound { (view self.now).sound ≡ true }
        ensures { waiting (view self.now).rest ≡ waits_of (out-Frame self.now).site result }
    {
        if self.stopped {
            return None;
        }
        match &self.construct {
            Construct::Send(output) => output.waits(),
            Construct::Receive(input) => input.waits(),
            Construct::Alt(alt) => match alt.choice {
                Choice::Taken(at) => Some(Waits::Input {
                    chan: alt.guards[at].chan,
                }),
                _ => None,
            },
            _ => None,
        }
    }
}

impl Output {
    /// Whether it can begin, on this channel.
    fn begins_on(&self, chan: u16, vars: &[Datum]) -> bool
        ensures { result ≡ true → (site : ℕ) →
            own (rest_of site (output_shape self.now)) (store vars.now) ≡ move.Offer site chan ∷ [] }
    {
        !self.begun && self.chan == chan && self.value.has_value(vars)
    }

    /// Its move; where its value is a fault it stops.
    fn own_move(&self, site: u16, vars: &[Datum]) -> Option<Move>
        ensures { own (rest_of site (output_shape self.now)) (store vars.now) ≡ listed result }
    {
        let chan = self.chan;
        if self.begun {
            return None;
        }
        if self.value.has_value(vars) {
            return Some(Move::Offer { site, chan });
        }
        Some(Move::Quiet { site })
    }

    /// What it waits for.
    fn waits(&self) -> Option<Waits>
        ensures { (site : ℕ) →
            waiting (rest_of site (output_shape self.now)) ≡ waits_of site result }
    {
        if !self.begun {
            return None;
        }
        Some(Waits::Output { chan: self.chan })
    }
}

impl Input {
    /// Its move.
    fn own_move(&self, site: u16) -> Option<Move>
        ensures { (e : Store) → own (rest_of site (input_shape self.now)) e ≡ listed result }
    {
        if self.begun {
            return None;
        }
        Some(Move::Want {
            site,
            chan: self.chan,
        })
    }

    /// What it waits for.
    fn waits(&self) -> Option<Waits>
        ensures { (site : ℕ) →
            waiting (rest_of site (input_shape self.now)) ≡ waits_of site result }
    {
        if !self.begun {
            return None;
        }
        Some(Waits::Input { chan: self.chan })
    }
}
